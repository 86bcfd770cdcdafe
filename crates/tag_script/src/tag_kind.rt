ghost use Rattle.std.specs.Prelude.{◌≡◌};
ghost use Rattle.tag_script.specs.Kinds.{tag_kind_number, tag_kind_name};
ghost use Rattle.tag_script.specs.Outcomes.{fault_of};

use script_value::Limit;
use std::fmt;

/// Why a tag's evaluation ends without a result, in the order of the kinds' numbers.
#[derive(Clone, Copy, Debug, PartialEq, Eq)]
pub enum TagKind {
    /// A variable that is not there is read.
    Unknown = 1,
    /// An operator, a part or an assignment doesn't fit the kind of a value.
    Kind,
    /// A number past 2^53 - 1 either way, or an item set at a number that is neither one of the list's nor its length.
    Range,
    /// A quotient that isn't whole, or a division by zero.
    Fraction,
    /// A string of more than 65,536 bytes.
    TextLong,
    /// A value that holds more than 4,096 values, or more than 262,144 bytes of texts and keys.
    Wide,
    /// A value that is more than 64 deep.
    DeepValue,
}

impl TagKind {
    /// The kind's number, from 1 to 7.
    pub fn number(self) -> u32
        ensures { result ≡ tag_kind_number self }
    {
        self as u32
    }

    /// The fault of a value past this limit.
    pub(crate) fn of_limit(limit: Limit) -> TagKind
        ensures { result ≡ fault_of limit }
    {
        match limit {
            Limit::TextLong => TagKind::TextLong,
            Limit::Wide => TagKind::Wide,
            Limit::DeepValue => TagKind::DeepValue,
        }
    }

    /// The kind's name as replies print it.
    pub fn name(self) -> &'static str
        ensures { result.now ≡ tag_kind_name self }
    {
        match self {
            TagKind::Unknown => "Unknown",
            TagKind::Kind => "Kind",
            TagKind::Range => "Range",
            TagKind::Fraction => "Fraction",
            TagKind::TextLong => "TextLong",
            TagKind::Wide => "Wide",
            TagKind::DeepValue => "DeepValue",
        }
    }
}

impl fmt::Display for TagKind {
    fn fmt<W: fmt::Write>(&self, f: &mut fmt::Formatter<W>) -> fmt::Result {
        f.write_str(self.name())
    }
}
