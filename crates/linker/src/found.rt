//! What is found in a version.

use vg_base::RuleIx;

/// The rule that a document's key and a rule's name, or the key alone, stand for; or why there is none.
#[derive(Clone, Copy, Debug, PartialEq, Eq)]
pub enum Found {
    Rule(RuleIx),
    /// No document of the version has the key.
    NoDocument,
    /// The document defines no rule of the name.
    NoRule,
    /// The rule of the name is private (SRGS 1.0 section 3.2).
    NotPublic,
    /// The document declares no root rule (section 4.7).
    NoRoot,
}
