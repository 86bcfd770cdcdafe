ghost use Rattle.std.specs.Prelude.{◌≡◌, ◌↔◌, IsNone};
ghost use Rattle.script_value.specs.Limits.{first_limit, limit_of, IsWithinLimits};

use crate::measures::Measures;
use crate::value::Value;
use vg_base::limits::{STRING_BYTES, VALUE_BYTES, VALUE_DEPTH, VALUES};

/// What a script's value may have too much of.
#[derive(Clone, Copy, Debug, PartialEq, Eq)]
pub enum Limit {
    /// A string in it is over 65,536 bytes in UTF-8.
    TextLong,
    /// It holds over 4,096 values, or over 262,144 bytes of strings and keys.
    Wide,
    /// It is over 64 deep.
    DeepValue,
}

impl Measures {
    /// The first limit that a value so large passes, if it passes one.
    pub fn first_limit(self) -> Option<Limit>
        ensures { result ≡ limit_of self }
    {
        if self.text > STRING_BYTES {
            Some(Limit::TextLong)
        } else if self.values > VALUES || self.bytes > VALUE_BYTES {
            Some(Limit::Wide)
        } else if self.depth > VALUE_DEPTH {
            Some(Limit::DeepValue)
        } else {
            None
        }
    }
}

impl Value {
    /// The first limit that the value passes, if it passes one.
    pub fn first_limit(&self) -> Option<Limit>
        ensures limit { result ≡ first_limit self.now }
        ensures within { IsNone result ↔ IsWithinLimits self.now }
    {
        self.measures().first_limit()
    }
}
