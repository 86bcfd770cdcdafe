//! Which rules of linked rules derive themselves with nothing beside.
#![tactic(auto)]

mod above;
mod empty;
mod nodes;
mod rows;
mod rules;
mod steps;

pub use rules::self_deriving;

#[cfg(test)]
mod tests;
