//! Versions that one thread publishes and others read, without a lock and without waiting:
//! a count word, and a cell for each version, which is filled before the count shows it.
#![tactic(auto)]

mod cells;
mod laws;
mod notes;
mod publisher;
mod reader;
mod shelf;
mod steps;
mod threads;
mod view;

pub use laws::{
    answers_agree, known_is_what_notes_know, known_rises, numbers_stand_once, publisher_knows_each,
    reader_is_within,
};
pub use publisher::Publisher;
pub use reader::Reader;
pub use shelf::{PublishRefused, Shelf};

#[cfg(test)]
mod tests;
