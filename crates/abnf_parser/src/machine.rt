//! The machine that reads lexemes one by one.

pub(crate) mod body;
pub(crate) mod document;
pub(crate) mod frames;
pub(crate) mod stack;
