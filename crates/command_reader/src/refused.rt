//! Why a line gives no command.

use thiserror::Error;
use vg_base::Refused;

/// What is wrong with a line.
#[derive(Clone, Copy, Debug, PartialEq, Eq, Error)]
pub enum LineFault {
    /// The bytes are no JSON text.
    #[error("the line is no JSON text")]
    BadJson,
    /// The JSON value has no row in the table of commands.
    #[error("the JSON value is no command")]
    NotCommand,
}

pub type LineRefused = Refused<LineFault>;
