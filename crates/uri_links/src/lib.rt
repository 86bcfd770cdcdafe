//! References to documents and their resolution (RFC 3986).
#![tactic(auto)]

mod allowed;
mod dots;
mod fault;
mod laws;
mod parts;
mod resolution;
mod uri;

pub use fault::{UriFault, UriRefused};
pub use laws::{dots_are_gone, keys_are_keys, parts_are_one, schemes_ignore_bases};
pub use resolution::{resolve, split_fragment};
pub use uri::Uri;

#[cfg(test)]
mod tests;
