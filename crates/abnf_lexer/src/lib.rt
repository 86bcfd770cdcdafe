//! Cuts the text of a grammar in ABNF form into lexemes (SRGS 1.0), and tells the first fault of its header and its cutting.
#![tactic(auto)]

mod between;
mod classes;
mod codes;
mod cutting;
mod faults;
mod front;
mod header;
mod insides;
mod laws;
mod lexemes;
mod repeats;
mod tally;

pub use codes::is_code;
pub use cutting::{DocRefused, lex};
pub use insides::{Inside, inside_of};
pub use laws::{
    headers_have_their_form, lexemes_have_one_inside, pieces_are_slices,
    repeats_are_read_in_one_way, texts_are_cut_in_one_way, texts_have_one_answer,
};
pub use lexemes::{LexKind, PieceKind, Spanned};
pub use repeats::{Most, Repeat, read_repeat};

#[cfg(test)]
mod tests;
