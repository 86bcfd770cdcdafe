//! The first parse of a line of words, and the first k, in the lexicographic order of choices.
#![tactic(auto)]

mod accepted;
mod choose;
mod guide;
mod plan;
mod walk;

pub use choose::{first, firsts};
