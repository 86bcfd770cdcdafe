//! What a reference means.

use vg_base::{LinkKind, RuleIx};

/// The rule that a reference means (SRGS 1.0 section 2.2), or why it means none.
#[derive(Clone, Copy, Debug, PartialEq, Eq)]
pub enum Target {
    Rule(RuleIx),
    Fault(LinkKind),
    /// The document that is referred to has a fault of its own, and nothing is told of the reference.
    Untold,
}
