//! Why a reference is refused.
ghost use Rattle.std.specs.Prelude.{◌≡◌};
ghost use Rattle.uri_links.specs.Faults.{fault_number, fault_name};

use std::fmt;
use vg_base::Refused;

/// What is wrong with a reference, in the order of the faults' numbers.
#[derive(Clone, Copy, Debug, PartialEq, Eq)]
pub enum UriFault {
    /// The text is no reference, or has a character that its part may not have.
    NotUri = 1,
    /// The text has more bytes than a reference may have.
    UriLong,
    /// The scheme is missing, or a fragment stands.
    NotAbsolute,
}

impl UriFault {
    pub fn number(self) -> u32
        ensures { result ≡ fault_number self }
    {
        self as u32
    }

    /// The fault's name as replies print it.
    pub fn name(self) -> &'static str
        ensures { result.now ≡ fault_name self }
    {
        match self {
            UriFault::NotUri => "NotUri",
            UriFault::UriLong => "UriLong",
            UriFault::NotAbsolute => "NotAbsolute",
        }
    }
}

/// The fault's name.
impl fmt::Display for UriFault {
    fn fmt<W: fmt::Write>(&self, f: &mut fmt::Formatter<W>) -> fmt::Result {
        f.write_str(self.name())
    }
}

/// Why a text gives no reference.
pub type UriRefused = Refused<UriFault>;
