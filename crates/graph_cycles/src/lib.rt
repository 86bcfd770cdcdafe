//! Which vertices of a directed graph lie on a cycle.
#![tactic(auto)]

mod graph;
mod search;
mod sets;

pub use graph::Graph;

#[cfg(test)]
mod tests;
