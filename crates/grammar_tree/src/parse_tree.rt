//! How words were derived.

use sqlite_items::{Boxed, Items};
use vg_base::{NodeIx, RuleIx, Word};

/// How a node derives words, level by level, after the logical parse structure (SRGS 1.0, appendix H).
#[derive(Debug, Drop)]
pub enum ParseTree {
    Token(Items<Word>),
    Seq(Items<ParseTree>),
    /// The place of the alternative that was taken, from 0, and its tree.
    Alt {
        taken: u32,
        inner: Boxed<ParseTree>,
    },
    /// A tree for each turn.
    Rep(Items<ParseTree>),
    /// The rule that a reference names, and the tree of its body.
    Rule {
        rule: RuleIx,
        inner: Boxed<ParseTree>,
    },
    /// The node of a tag.
    Tag(NodeIx),
    Null,
    /// The words that `$GARBAGE` took.
    Garbage(Items<Word>),
}
