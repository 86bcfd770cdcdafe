//! What may go from thread to thread, and be read by several threads at once.

use crate::doc_fault::DocFault;
use crate::memory::Memory;
use crate::place::Place;
use crate::refused::Refused;
use crate::script::{Expr, Key, Script, Stmt};
use crate::text::Text;
use crate::text_map::TextMap;
use crate::word::Word;

fn crosses<T: Send + Sync>() {}

/// Texts, words, maps, faults and trees of scripts cross threads. The check proves it of each type here.
fn all_cross() {
    crosses::<Text>();
    crosses::<Word>();
    crosses::<TextMap<Text>>();
    crosses::<Place>();
    crosses::<Refused<DocFault>>();
    crosses::<Memory>();
    crosses::<Key>();
    crosses::<Expr>();
    crosses::<Stmt>();
    crosses::<Script>();
}
