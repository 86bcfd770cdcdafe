//! Which rules derive a line of words, by Earley's algorithm: predictor, scanner and completer.
#![tactic(auto)]

mod board;
mod chart;
mod places;
mod predictor;
mod reading;
mod search;

pub use chart::Chart;
pub use places::Places;

#[cfg(test)]
mod tests;
