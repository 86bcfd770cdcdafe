//! What documents of grammars mean, or the one place that is wrong (SRGS 1.0 sections 2 to 4; SISR 1.0 for tags).
#![tactic(auto)]

mod body;
mod context;
mod decimal;
mod declarations;
mod document;
mod escapes;
mod found;
mod laws;
mod leaves;
mod names;
mod numbers;
mod places;
mod rules;
mod spelled;
mod uris;

pub use context::Context;
pub use document::read_document;
pub use laws::{
    closures_are_one, leaves_are_lexemes, references_can_be_resolved, rows_are_one,
    texts_have_one_answer,
};
pub use uris::{base_uri, imported_keys, imports};

#[cfg(test)]
mod tests;
