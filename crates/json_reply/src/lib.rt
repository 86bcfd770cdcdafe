//! Writes a reply as one line of JSON (RFC 8259), and says that a line tells its reply.
#![tactic(auto)]

mod laws;
mod line;
mod lists;
mod object;
mod refusal;
mod reply;
mod rows;
mod threads;

pub use laws::{lines_end_once, lines_tell_replies};
pub use line::reply_text;
pub use refusal::Refusal;
pub use reply::{BestResult, Body, FaultText, Reply};

#[cfg(test)]
mod tests;
