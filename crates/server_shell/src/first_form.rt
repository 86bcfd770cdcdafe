//! The first form that is answered: one document at a time, of one rule over plain words. Each line
//! is a batch.
mod command;
mod form;
mod hearing;
mod keeper;
mod laws;
mod reply;
mod server;
mod words;

pub use keeper::FirstForm;
pub use laws::each_line_has_its_reply;
pub use reply::{Body, Refusal, Reply};
