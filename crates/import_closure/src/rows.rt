//! What a document of a set imports.
ghost use Rattle.std.specs.Prelude.{◌≡◌, ◌↔◌, ◌<◌, ◌≤◌, ℕ, true, length, map, IfOk, Contains};
ghost use Rattle.std.specs.List.Sorted.{IsStrictlyIncreasing};
ghost use Rattle.uri_links.specs.Resolution.{is_absolute};
ghost use Rattle.rule_reader.specs.Sets.{IsKey, IsKeyed, IsRow, ix};
ghost use Rattle.import_closure.specs.code.Rows.{AreKeysOf, HasKeyAmong, IsDocOf, TextReads, marks_by};

use crate::marks::marked;
use grammar_tree::{Doc, DocSet, DocText};
use indexmap::IndexSet;
use rule_reader::{
    imported_keys, read_document, references_can_be_resolved, texts_have_one_answer,
};
use std::alloc::Global;
use uri_links::Uri;
use vg_base::{DocIx, Memory, Refused, Text};

/// The documents of the set that one of them imports, in rising order. A document with a fault imports nothing.
pub(crate) fn row_of(alloc: Global, set: &DocSet, x: DocIx) -> Result<Vec<DocIx>, Memory>
    requires keyed { IsKeyed set.now }
    requires place { x.0 < length set.now }
    ensures { IfOk result (λ row. IsRow set.now x.0 row.items) }
{
    let one = set.doc(x);
    match doc_of(alloc, &one.text)? {
        Some(doc) => row_of_doc(alloc, set, x, &doc),
        None => Ok(Vec::new(alloc)),
    }
}

/// The document that the text reads as, if it has no fault.
fn doc_of(alloc: Global, text: &Text) -> Result<Option<Doc>, Memory>
    ensures { IfOk result (IsDocOf text.now) }
{
    texts_have_one_answer();
    match read_document(alloc, text) {
        Ok(doc) => Ok(Some(doc)),
        Err(Refused::Fault(_)) => Ok(None),
        Err(Refused::Memory) => Err(Memory),
    }
}

fn row_of_doc(alloc: Global, set: &DocSet, x: DocIx, doc: &Doc) -> Result<Vec<DocIx>, Memory>
    requires keyed { IsKeyed set.now }
    requires reads { TextReads set.now x.0 doc.now }
    ensures { IfOk result (λ row. IsRow set.now x.0 row.items) }
{
    texts_have_one_answer();
    let keys = keys_of(alloc, set, x, doc)?;
    let row = row_by(alloc, set.docs(), &keys)?;
    Ok(row)
}

/// The keys that the document imports.
fn keys_of(alloc: Global, set: &DocSet, x: DocIx, doc: &Doc) -> Result<IndexSet<Text>, Memory>
    requires keyed { IsKeyed set.now }
    requires reads { TextReads set.now x.0 doc.now }
    ensures { IfOk result (λ found. AreKeysOf set.now x.0 doc.now found.keys) }
{
    references_can_be_resolved();
    let one = set.doc(x);
    let key = read_key(alloc, &one.key)?;
    let keys = imported_keys(alloc, doc, &key)?;
    Ok(keys)
}

fn read_key(alloc: Global, key: &Text) -> Result<Uri, Memory>
    requires { IsKey key.now }
    ensures same { IfOk result (λ uri. uri ≡ key.now) }
    ensures absolute { IfOk result (λ uri. is_absolute uri ≡ true) }
{
    match Uri::read(alloc, key) {
        Ok(uri) => Ok(uri),
        Err(Refused::Memory) => Err(Memory),
        Err(Refused::Fault(_)) => unreachable!(),
    }
}

/// The documents with these keys, in rising order.
fn row_by(alloc: Global, docs: &[DocText], keys: &IndexSet<Text>) -> Result<Vec<DocIx>, Memory>
    requires few { length docs.now ≤ 64 }
    ensures rising { IfOk result (λ row. IsStrictlyIncreasing (map (λ y. y.0) row.items)) }
    ensures exact { IfOk result (λ row. (y : ℕ) → Contains row.items (ix y) ↔ HasKeyAmong keys.now.keys docs.now y) }
{
    let marks = marks_by(alloc, docs, keys)?;
    let row = marked(alloc, &marks)?;
    Ok(row)
}

fn marks_by(alloc: Global, docs: &[DocText], keys: &IndexSet<Text>) -> Result<Vec<bool>, Memory>
    ensures { IfOk result (λ marks. marks.items ≡ marks_by keys.now.keys docs.now) }
{
    let mut marks = Vec::new(alloc);
    for doc in docs {
        marks.push(keys.contains(&doc.key))?;
    }
    Ok(marks)
}
