//! Tag scripts are run: what a script makes of the environment of a rule instance.
#![tactic(auto)]

mod changes;
mod env;
mod evaluate;
mod execute;
mod fault;
mod laws;
mod literals;
mod numbers;
mod operator;
mod operators;
mod parts;
mod refused;
mod seen;
mod step;
mod tag_kind;
mod weighed;

pub use env::Env;
pub use execute::run;
pub use laws::{looking_changes_nothing, runs_keep, the_most_weight_is_stated};
pub use refused::RunRefused;
pub use step::Step;
pub use tag_kind::TagKind;
pub use weighed::MOST_WEIGHT;

#[cfg(test)]
mod tests;
