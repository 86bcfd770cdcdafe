//! Reads a tag's script, which is written in this project's own profile of ECMAScript, smaller than that of SISR 1.0.
#![tactic(auto)]

mod laws;
mod lexing;
mod machine;
mod read;
mod refused;

pub use laws::{each_text_has_one_answer, machine_reads_the_grammar, scripts_are_shallow};
pub use read::read_script;
pub use refused::{ScriptRefused, ScriptSyntax};
