//! Reads one line of input as a command: a JSON object (RFC 8259) with the members of its kind.
#![tactic(auto)]

mod command;
mod laws;
mod members;
mod reader;
mod refused;
mod rows;

pub use command::{
    AdminCommand, Called, Command, MatchLine, SessionCommand, TryCommand, parses_of,
};
pub use laws::commands_are_read_back;
pub use reader::read_command;
pub use refused::{LineFault, LineRefused};

#[cfg(test)]
mod tests;
