//! The expansions of a rule as a document writes them (SRGS 1.0, section 2).

use sqlite_items::{Boxed, Items};
use vg_base::{Place, Script, Text, Word};

/// What a rule's right side stands for.
///
/// A group of one part is that part; `()` and a repeat of most 0 are `Null`; `[e]` is a repeat of least 0 and most 1.
#[derive(Debug, Drop)]
pub enum Expansion {
    /// The words of a token, one after another (section 2.1); none for a token of white space alone.
    Token(Items<Word>),
    /// Parts in order (section 2.3).
    Seq(Items<Expansion>),
    /// Alternatives, the first one preferred (section 2.4).
    Alt(Items<Expansion>),
    /// Turns of one expansion, without a bound where `most` is `None` (section 2.5).
    Rep {
        least: u32,
        most: Option<u32>,
        inner: Boxed<Expansion>,
    },
    /// A rule reference (section 2.2).
    Ref(Reference),
    /// A semantic tag (section 2.6).
    Tag(TagNode),
    /// The rule that derives no word (section 2.2.3).
    Null,
    /// The rule that derives nothing at all.
    Void,
    /// The rule that derives any words.
    Garbage,
}

/// A rule reference, and where it stands in its document.
#[derive(Debug, Drop, PartialEq, Eq)]
pub struct Reference {
    pub place: Place,
    pub goal: Goal,
}

/// Which rule a reference names (SRGS 1.0, section 2.2).
#[derive(Debug, Drop, PartialEq, Eq)]
pub enum Goal {
    /// A rule of the same document.
    Local(Text),
    /// A rule of the document at a URI.
    Named { uri: Text, rule: Text },
    /// The root rule of the document at a URI.
    Root { uri: Text },
}

/// A tag, where it stands, its text between the braces, and the script that a script document's text reads as.
#[derive(Debug, Drop)]
pub struct TagNode {
    pub place: Place,
    pub text: Text,
    pub script: Option<Script>,
}
