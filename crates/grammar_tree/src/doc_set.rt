//! The documents that a publication is made of.

ghost use Rattle.std.specs.Prelude.{◌≡◌, ◌<◌, ◌↔◌, IsTrue, IfOk, IfErr, OnOk, OnErr, None, [], length, slice_get, slice_set, vec_len, Some};
ghost use Rattle.std.specs.Option.{option_copied};
ghost use Rattle.std.specs.List.{find, position, position_or_len};
ghost use Rattle.grammar_tree.specs.DocSets.{HasDistinctKeys, is_under, put, without};

use sqlite_items::at;
use std::alloc::{AllocFailed, Global};
use std::marker::Model;
use std::mem;
use vg_base::{DocIx, Text};

/// The text of a document under the key by which references find it.
#[derive(Debug, Drop, PartialEq, Eq)]
pub struct DocText {
    pub key: Text,
    pub text: Text,
}

/// Documents in the order in which they were staged, no key twice.
#[derive(Debug, Drop)]
pub struct DocSet {
    docs: Vec<DocText>,
}

impl Model for DocSet {
    ghost use Rattle.std.specs.Prelude.{List};
    ghost use Rattle.grammar_tree.specs.declared.doc_set.DocText.{DocText};
    ghost use Rattle.grammar_tree.specs.DocSets.{HasDistinctKeys};

    ghost Value = { List DocText };

    ghost view = { λ s. s.docs.items };

    ghost invariant = { λ s. HasDistinctKeys s.docs.items };
}

impl DocSet {
    /// The set of no documents. It takes no memory.
    pub fn open(alloc: Global) -> DocSet
        ensures { result ≡ [] }
    {
        DocSet {
            docs: Vec::new(alloc),
        }
    }

    /// The set of these documents, which it takes over. It takes no memory.
    pub fn new(docs: Vec<DocText>) -> DocSet
        requires { HasDistinctKeys docs.items }
        ensures { result ≡ docs.items }
    {
        DocSet { docs }
    }

    /// The documents out of the set, in its order, none copied. It takes no memory.
    pub fn into_docs(self) -> Vec<DocText>
        ensures same { result.items ≡ self }
        ensures distinct { HasDistinctKeys self }
    {
        let DocSet { docs } = self;
        docs
    }

    pub fn len(&self) -> usize
        ensures { result ≡ length self.now }
    {
        self.docs.len()
    }

    pub fn is_empty(&self) -> bool
        ensures { IsTrue result ↔ (self.now ≡ []) }
    {
        self.docs.is_empty()
    }

    pub fn doc(&self, at: DocIx) -> &DocText
        requires { at.0 < length self.now }
        ensures { slice_get self.now at.0 ≡ Some result.now }
    {
        &self.docs.as_slice()[at.0 as usize]
    }

    pub fn docs(&self) -> &[DocText]
        ensures same { result.now ≡ self.now }
        ensures distinct { HasDistinctKeys self.now }
    {
        self.docs.as_slice()
    }

    /// The place of the document under a key.
    pub fn position(&self, key: &Text) -> Option<usize>
        ensures { result ≡ position (is_under key.now) self.now }
    {
        let at = place_of(self.docs.as_slice(), key);
        if at < self.docs.len() { Some(at) } else { None }
    }

    /// The document under a key.
    pub fn find(&self, key: &Text) -> Option<&DocText>
        ensures { option_copied result ≡ find (is_under key.now) self.now }
    {
        let docs = self.docs.as_slice();
        at(docs, place_of(docs, key))
    }

    /// Puts a document in place of the one under its key, which is given back; a document with a new key goes last.
    /// At want of memory the document comes back and the set is unchanged; only a new key can want memory.
    pub fn put(&mut self, doc: DocText) -> Result<Option<DocText>, AllocFailed<DocText>>
        ensures ok { OnOk result (self.new ≡ put doc self.old) }
        ensures former { IfOk result (λ former. former ≡ find (is_under doc.key) self.old) }
        ensures back { IfErr result (λ failed. failed.value ≡ doc) }
        ensures absent { OnErr result (find (is_under doc.key) self.old ≡ None) }
        ensures err { OnErr result (self.new ≡ self.old) }
    {
        let at = place_of(self.docs.as_slice(), &doc.key);
        if at < self.docs.len() {
            return Ok(Some(replace_at(&mut self.docs, at, doc)));
        }
        match self.docs.push(doc) {
            Ok(()) => Ok(None),
            Err(failed) => Err(failed),
        }
    }

    /// Takes the document under a key out of the set; the others keep their order. It takes no memory.
    pub fn remove(&mut self, key: &Text) -> Option<DocText>
        ensures rest { self.new ≡ without key.now self.old }
        ensures taken { result ≡ find (is_under key.now) self.old }
    {
        let at = place_of(self.docs.as_slice(), key);
        if at < self.docs.len() {
            Some(self.docs.remove(at))
        } else {
            None
        }
    }
}

/// How many documents stand before the one under the key: all where there is none.
fn place_of(docs: &[DocText], key: &Text) -> usize
    ensures { result ≡ position_or_len (is_under key.now) docs.now }
{
    for (at, doc) in docs.iter().enumerate() {
        if doc.key == *key {
            return at;
        }
    }
    docs.len()
}

/// Puts the document in place of the one at a place, and gives that one back.
fn replace_at(docs: &mut Vec<DocText>, at: usize, doc: DocText) -> DocText
    requires { at < vec_len docs.old }
    ensures former { slice_get docs.old.items at ≡ Some result }
    ensures after { docs.new.items ≡ slice_set docs.old.items at doc }
{
    mem::replace(&mut docs[at], doc)
}
