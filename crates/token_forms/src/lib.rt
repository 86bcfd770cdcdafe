//! The words and the keys that a token spells (SRGS 1.0 section 2.1 and appendix E).
#![tactic(auto)]

mod counts;
mod keys;
mod words;

pub use counts::{Amount, count_words, words_fit};
pub use keys::{BadKey, KeyRefused, count_keys, is_key, keys_are_one, keys_of};
pub use words::{words_are_one, words_of, words_of_all, words_of_all_are_one};

#[cfg(test)]
mod tests;
