//! Lexemes are read, one at a time, by a machine that keeps what is open on stacks of its own.

pub(crate) mod expression;
pub(crate) mod stack;
pub(crate) mod statement;
pub(crate) mod views;
