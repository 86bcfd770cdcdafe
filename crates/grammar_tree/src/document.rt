//! A grammar document as it was read (SRGS 1.0, sections 3 and 4).

use crate::expansion::Expansion;
use sqlite_items::Items;
use vg_base::{DocFault, Format, Mode, Place, Text};

/// A rule definition, and where its name stands (SRGS 1.0, section 3).
#[derive(Debug, Drop)]
pub struct Rule {
    pub place: Place,
    pub public: bool,
    pub name: Text,
    pub body: Expansion,
}

/// A document without a fault: its declarations (SRGS 1.0, section 4) and its rules in written order.
#[derive(Debug, Drop)]
pub struct Doc {
    pub mode: Mode,
    pub root: Option<Text>,
    pub format: Option<Format>,
    pub base: Option<Text>,
    pub rules: Items<Rule>,
}

/// What a text reads as: a document, or the one fault that is told of it.
#[derive(Debug, Drop)]
pub enum ReadDoc {
    Good(Doc),
    Bad(DocFault),
}
