//! The values of tag scripts: what they hold, their limits, their parts and their JSON.
#![tactic(auto)]

mod as_json;
mod laws;
mod limits;
mod measures;
mod parts;
mod truth;
mod value;

pub use as_json::to_json;
pub use laws::{measured_in_parts, texts_tell_values};
pub use limits::Limit;
pub use measures::{Measures, of_members};
pub use truth::{is_true, same};
pub use value::{Value, put_member};

#[cfg(test)]
mod tests;
