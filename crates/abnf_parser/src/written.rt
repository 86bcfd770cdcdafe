//! A document as it is written: a tree whose leaves are lexemes.

use crate::lexeme::{BareWord, Lexeme};
use abnf_lexer::Spanned;
use vg_base::{Boxed, Items};

/// What stands for an expansion (SRGS 1.0, section 2). A group of one part is that part.
#[derive(Debug, Drop)]
pub enum Written {
    /// A token (section 2.1), bare or in quotes.
    Token(Spanned),
    /// A reference to a rule by its name (section 2.2).
    Name(Spanned),
    /// A reference by URI (section 2.2.2).
    UriRef(Spanned),
    /// A tag (section 2.6).
    Tag(Spanned),
    /// `()`.
    Nothing,
    /// Parts in order (section 2.3).
    Sequence(Items<Written>),
    /// Alternatives (section 2.4).
    Alternatives(Items<Written>),
    /// An alternative behind its weight (section 2.4.1).
    Weighted {
        weight: Spanned,
        inner: Boxed<Written>,
    },
    /// What stands in square brackets (section 2.5).
    Optional(Boxed<Written>),
    /// What is repeated (section 2.5).
    Repeated {
        times: Spanned,
        inner: Boxed<Written>,
    },
}

/// A declaration (section 4): its keyword, where that stands, and the lexemes behind it with
/// its `;`.
#[derive(Debug, Drop)]
pub struct Declaration {
    pub keyword: BareWord,
    pub span: Spanned,
    pub others: Items<Lexeme>,
}

/// A rule definition (section 3).
#[derive(Debug, Drop)]
pub struct WrittenRule {
    pub public: bool,
    pub name: Spanned,
    pub body: Written,
}

/// A document behind its header.
#[derive(Debug, Drop)]
pub struct WrittenDocument {
    pub declarations: Items<Declaration>,
    pub rules: Items<WrittenRule>,
}
