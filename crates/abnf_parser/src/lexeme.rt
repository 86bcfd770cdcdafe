//! Lexemes by what they may stand for in a document.

use abnf_lexer::Spanned;

/// The bare words that a document means something by, outside of expansions.
#[derive(Clone, Copy, Debug, PartialEq, Eq)]
pub enum BareWord {
    Language,
    Mode,
    Voice,
    Dtmf,
    Root,
    TagFormat,
    Base,
    Lexicon,
    Meta,
    HttpEquiv,
    Is,
    Public,
    Private,
    /// Any other code of a language.
    Code,
    /// Any other word.
    Other,
}

/// What an Angle holds.
#[derive(Clone, Copy, Debug, PartialEq, Eq)]
pub enum AngleForm {
    /// A repeat.
    Repeat,
    /// Anything else, without a media type behind it.
    Plain,
    /// Anything, with a media type behind it.
    Typed,
}

/// The signs.
#[derive(Clone, Copy, Debug, PartialEq, Eq)]
pub enum Sign {
    Semicolon,
    Equals,
    Bar,
    RoundOpen,
    RoundClose,
    SquareOpen,
    SquareClose,
}

/// A lexeme, and where it stands.
#[derive(Clone, Copy, Debug, PartialEq, Eq)]
pub enum Lexeme {
    Bare { word: BareWord, span: Spanned },
    Quoted(Spanned),
    Name(Spanned),
    UriRef(Spanned),
    Angle { form: AngleForm, span: Spanned },
    Weight(Spanned),
    Language(Spanned),
    Tag(Spanned),
    Sign(Sign),
}
