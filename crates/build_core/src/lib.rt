//! The loading core: which document is in which state, and the events that move it.
//!
//! A document is unseen until a loader that holds an importer wants it; a wanted one is claimed by one loader, which
//! holds it while it reads it; it is finished once each of its imports was wanted. No call here reads a text or starts
//! a thread: what is proved holds of every order of events, whatever cycles the imports have.
#![tactic(auto)]

mod core_state;
mod event;
mod imports;
mod laws;
#[cfg(test)]
mod tests;

pub use core_state::CoreState;
pub use event::{DocState, Event};
pub use imports::Imports;
pub use laws::{done_is_closure, every_run};
