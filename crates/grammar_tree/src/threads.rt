//! What may go from thread to thread, and be read by several threads at once.

use crate::doc_set::{DocSet, DocText};
use crate::document::{Doc, ReadDoc};
use crate::expansion::{Expansion, TagNode};
use crate::linked::{Linked, Node};
use crate::parse_tree::ParseTree;

fn crosses<T: Send + Sync>() {}

/// Tags cross threads.
fn tags_cross() {
    crosses::<TagNode>();
}

/// Nodes of linked rules cross threads.
fn nodes_cross() {
    crosses::<Node>();
}

/// Linked rules cross threads.
fn linked_rules_cross() {
    crosses::<Linked>();
}

/// Expansions cross threads.
fn expansions_cross() {
    crosses::<Expansion>();
}

/// Documents cross threads.
fn documents_cross() {
    crosses::<Doc>();
    crosses::<ReadDoc>();
}

/// Sets of documents and parse trees cross threads.
fn others_cross() {
    crosses::<DocText>();
    crosses::<DocSet>();
    crosses::<ParseTree>();
}
