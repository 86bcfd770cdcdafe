//! Which documents a publication needs: those that are reached from its entries by imports.
#![tactic(auto)]

mod by_core;
mod keyed;
mod marks;
mod reach;
mod rows;
mod searching;

pub use by_core::core_closure;
pub use keyed::is_keyed;
pub use searching::closure;

#[cfg(test)]
mod tests;
