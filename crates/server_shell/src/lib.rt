//! The server: replies to the lines of a source, written to a sink. The loop over batches of lines
//! is generic in what a batch answers (`Batches`) and in what becomes of replies (`Delivers`); the
//! form that is answered today stands in a module of its own.
#![tactic(auto)]

mod batches;
mod delivery;
mod first_form;
mod laws;
mod outcome;
mod printing;
mod run;
#[cfg(test)]
mod tests;
mod top;

pub use batches::{BatchEnd, Batches};
pub use delivery::{Counting, Delivers};
pub use first_form::{Body, FirstForm, Refusal, Reply, each_line_has_its_reply};
pub use laws::batches_are_cut_at_ends;
pub use outcome::Status;
pub use printing::{Printed, Printing};
pub use run::run_batches;
pub use top::serve;
