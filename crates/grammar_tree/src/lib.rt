//! Trees of grammar documents, their linked rules, and what a rule derives by which tree.
#![tactic(auto)]

mod comparing;
mod copies;
mod doc_set;
mod document;
mod expansion;
pub mod laws;
mod linked;
mod parse_tree;
mod sameness;
pub mod samples;
mod sizes;
mod threads;

pub use comparing::compare;
pub use copies::copy_words;
pub use doc_set::{DocSet, DocText};
pub use document::{Doc, ReadDoc, Rule};
pub use expansion::{Expansion, Goal, Reference, TagNode};
pub use linked::{Linked, LinkedRule, Node};
pub use parse_tree::ParseTree;
pub use sameness::is_same;
pub use sizes::size;

#[cfg(test)]
mod tests;
