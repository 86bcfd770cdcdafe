//! Reads the documents of grammars in ABNF form (SRGS 1.0, sections 3 and 4).
#![tactic(auto)]

mod laws;
mod lexeme;
mod machine;
mod read;
mod roles;
mod written;

pub use laws::{languages_are_codes, lexemes_have_one_answer, texts_have_one_answer};
pub use lexeme::{AngleForm, BareWord, Lexeme, Sign};
pub use read::read_written;
pub use written::{Declaration, Written, WrittenDocument, WrittenRule};

#[cfg(test)]
mod tests;
