//! Faults of one document.
ghost use Rattle.std.specs.Prelude.{◌≡◌, refl};
ghost use Rattle.std.specs.Cmp.{on_total, nat_cmp_total};
ghost use Rattle.std.specs.Ordering.{nat_cmp, on, as_partial_cmp};
ghost use Rattle.vg_base.specs.Faults.{doc_kind_number, doc_kind_name};

use crate::place::Place;
use std::cmp::Ordering;
use std::fmt;

/// What is wrong with a document, in the order of the kinds' numbers.
#[derive(Clone, Copy, Debug, PartialEq, Eq)]
pub enum DocKind {
    /// The text does not begin with `#ABNF` and a blank.
    NoHeader = 1,
    /// The version is not `1.0`.
    Version,
    /// The encoding has a name that is not `UTF-8`.
    Encoding,
    /// A character is not allowed, or begins no lexeme, or stands where a name cannot go on.
    BadCharacter,
    /// A comment or lexeme has no end.
    Unclosed,
    /// A lexeme that does not fit the syntax.
    Unexpected,
    /// A second declaration of one kind; only lexicons and metadata may be declared again.
    DeclaredTwice,
    /// A second rule of one name.
    RuleTwice,
    /// A rule with the name of a special rule.
    Reserved,
    /// A repeat whose least number is above its most.
    RepeatOrder,
    /// A repeat number above 65,535.
    RepeatLarge,
    /// A weight or probability that is no number, or a probability above 1.
    BadWeight,
    /// A token of a grammar for keys that is no list of keys.
    BadKey,
    /// A reference that is no URI, or too long, or whose fragment is no name.
    BadUri,
    /// A tag format that is not known.
    TagFormat,
    /// A tag that is no script.
    BadScript,
    /// The root rule is not defined.
    RootMissing,
    /// Brackets nested deeper than 64.
    Deep,
    /// More than 65,536 lexemes.
    Large,
}

impl DocKind {
    /// The kind's number, from 1 to 19: at one place the least number is told first.
    pub fn number(self) -> u32
        ensures { result ≡ doc_kind_number self }
    {
        self as u32
    }

    /// The kind's name as replies print it.
    pub fn name(self) -> &'static str
        ensures { result.now ≡ doc_kind_name self }
    {
        match self {
            DocKind::NoHeader => "NoHeader",
            DocKind::Version => "Version",
            DocKind::Encoding => "Encoding",
            DocKind::BadCharacter => "BadCharacter",
            DocKind::Unclosed => "Unclosed",
            DocKind::Unexpected => "Unexpected",
            DocKind::DeclaredTwice => "DeclaredTwice",
            DocKind::RuleTwice => "RuleTwice",
            DocKind::Reserved => "Reserved",
            DocKind::RepeatOrder => "RepeatOrder",
            DocKind::RepeatLarge => "RepeatLarge",
            DocKind::BadWeight => "BadWeight",
            DocKind::BadKey => "BadKey",
            DocKind::BadUri => "BadUri",
            DocKind::TagFormat => "TagFormat",
            DocKind::BadScript => "BadScript",
            DocKind::RootMissing => "RootMissing",
            DocKind::Deep => "Deep",
            DocKind::Large => "Large",
        }
    }
}

impl PartialOrd for DocKind {
    ghost use Rattle.vg_base.specs.Kinds.{doc_ordered};

    ghost partial_cmp = { as_partial_cmp (on doc_kind_number nat_cmp) };

    ghost laws = { doc_ordered };

    fn partial_cmp(&self, other: &DocKind) -> Option<Ordering> {
        Some(self.cmp(other))
    }
}

impl Ord for DocKind {
    ghost use Rattle.vg_base.specs.Kinds.{doc_ties};

    ghost cmp = { on doc_kind_number nat_cmp };

    ghost total = { on_total doc_kind_number nat_cmp_total };

    ghost matches_partial_cmp = { λ x y. refl };

    ghost matches_eq = { doc_ties };

    fn cmp(&self, other: &DocKind) -> Ordering {
        self.number().cmp(&other.number())
    }
}

/// A fault of a document, ordered by place, then by the kind's number.
#[derive(Clone, Copy, Debug, PartialEq, Eq, PartialOrd, Ord)]
pub struct DocFault {
    pub place: Place,
    pub kind: DocKind,
}

/// The kind's name, and the place as line and column.
impl fmt::Display for DocFault {
    fn fmt<W: fmt::Write>(&self, f: &mut fmt::Formatter<W>) -> fmt::Result {
        let DocFault { place, kind } = *self;
        write!(f, "{} at {}:{}", kind.name(), place.line, place.column)
    }
}
