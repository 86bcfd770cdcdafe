use vg_base::Place;

/// The kinds of lexemes.
#[derive(Clone, Copy, Debug, PartialEq, Eq)]
pub enum LexKind {
    /// A longest run of characters that aren't white space and begin no other lexeme.
    Bare,
    /// Characters in quotes.
    Quoted,
    /// `$` and the name of a rule.
    Name,
    /// `$<`, a reference and `>`, and a media type or none.
    UriRef,
    /// `<`, characters and `>`, and a media type or none.
    Angle,
    /// Characters between slashes, which a document's reader takes as a number.
    Weight,
    /// `!` and the code of a language.
    Language,
    /// A tag, in braces or between `{!{` and `}!}`.
    Tag,
    /// One of `;` `=` `|` `(` `)` `[` `]`.
    Sign,
}

/// The kinds of pieces of a text: lexemes, and what stands between them.
#[derive(Clone, Copy, Debug, PartialEq, Eq)]
pub enum PieceKind {
    WhiteSpace,
    LineComment,
    BlockComment,
    Lexeme(LexKind),
}

/// A lexeme: its kind, the place of its first character, and the places in bytes of its first character and
/// of the one after its last.
#[derive(Clone, Copy, Debug, PartialEq, Eq)]
pub struct Spanned {
    pub place: Place,
    pub from: u64,
    pub to: u64,
    pub kind: LexKind,
}
