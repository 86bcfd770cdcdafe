//! A text is cut into lexemes.

pub(crate) mod cutting;
pub(crate) mod lexeme;
pub(crate) mod roles;
pub(crate) mod strings;
