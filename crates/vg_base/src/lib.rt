//! Characters, texts, words, maps, places, faults, numbers and script trees: what every other crate stands on.
#![tactic(auto)]

mod characters;
mod cursor;
mod doc_fault;
mod first;
mod format;
mod laws;
pub mod limits;
mod link_fault;
mod memory;
mod mode;
mod numbers;
mod place;
mod refused;
mod runs;
mod script;
mod script_copy;
mod text;
mod text_map;
mod threads;
mod word;

pub use characters::{is_char, is_name, is_name_start, is_space};
pub use cursor::{Cursor, place_after};
pub use doc_fault::{DocFault, DocKind};
pub use first::{first_of, sooner};
pub use format::Format;
pub use laws::{fronts_end_at_places, one_first, orders_of_faults, places_rise};
pub use link_fault::{LinkFault, LinkKind};
pub use memory::Memory;
pub use mode::Mode;
pub use numbers::{Area, DocIx, LoaderNo, NodeIx, RuleIx, VersionNo};
pub use place::{Place, place_at_end};
pub use refused::Refused;
pub use runs::{
    closing_end, closings_are_found, enclosed_len, is_within_line, line_len, runs_are_counted,
    space_len,
};
pub use script::{AssignOp, BinOp, Expr, Key, Root, Script, Stmt, UnOp};
pub use sqlite_items::{Boxed, Items};
pub use text::Text;
pub use text_map::TextMap;
pub use word::{Word, join_words};

#[cfg(test)]
mod tests;
