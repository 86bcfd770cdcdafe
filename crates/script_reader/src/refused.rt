//! Why a text is no script.

use std::fmt;
use vg_base::Refused;

/// The place, in characters from 0, of the first lexeme that fits no script, or the end of a text that ends too early.
#[derive(Clone, Copy, Debug, PartialEq, Eq)]
pub struct ScriptSyntax {
    pub at: u64,
}

impl fmt::Display for ScriptSyntax {
    fn fmt<W: fmt::Write>(&self, f: &mut fmt::Formatter<W>) -> fmt::Result {
        write!(f, "character {} fits no script", self.at)
    }
}

/// Why a text gives no script.
pub type ScriptRefused = Refused<ScriptSyntax>;
