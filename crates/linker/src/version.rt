//! Versions: documents that were linked.
ghost use Rattle.std.specs.Prelude.{◌≡◌, ◌<◌, Option, Some, None, option_map, length, slice_get};
ghost use Rattle.std.specs.Option.{option_copied};
ghost use Rattle.linker.specs.Versions.{IsVersion, find, find_in, find_root, doc_under};
ghost use Rattle.linker.specs.code.Indexes.{AreIndexes};

use crate::found::Found;
use crate::tables::NamedRule;
use grammar_tree::Linked;
use sqlite_items::Items;
use std::marker::Model;
use vg_base::{Format, Mode, RuleIx, Text, TextMap, VersionNo};

/// What a version keeps of a document: its key, its mode and tag format, and the number of its root rule.
#[derive(Debug, Drop)]
pub struct VersionDoc {
    pub key: Text,
    pub mode: Mode,
    pub format: Option<Format>,
    pub root: Option<RuleIx>,
}

/// Documents that were linked, under the number of their publication.
///
/// Contracts see the number, the documents and their linked rules. The type keeps that no rule derives itself, that each rule is of one of
/// the documents and each root one of the rules, and that each tag of a script document has its script.
#[derive(Debug, Drop)]
pub struct Version {
    number: VersionNo,
    docs: Items<VersionDoc>,
    linked: Linked,
    /// The rules of each document by name.
    indexes: Items<TextMap<NamedRule>>,
}

impl Model for Version {
    ghost use Rattle.linker.specs.Versions.{Linkage, IsVersion};
    ghost use Rattle.linker.specs.code.Indexes.{AreIndexes};
    ghost use Rattle.vg_base.specs.contracts.script.Stmt as stmt;
    ghost use Rattle.std.specs.Coded.{codes};

    ghost Value = { Linkage };

    ghost coded = { Prim.hlevel (codes, stmt.the_row.coded) };

    ghost view = { λ v. record { number = v.number; docs = v.docs; linked = v.linked } };

    ghost invariant = { λ v. IsVersion (record { number = v.number; docs = v.docs; linked = v.linked })
        × AreIndexes (record { number = v.number; docs = v.docs; linked = v.linked }) v.indexes };
}

impl Version {
    pub(crate) fn new(
        number: VersionNo,
        docs: Items<VersionDoc>,
        linked: Linked,
        indexes: Items<TextMap<NamedRule>>,
    ) -> Version
        requires version { IsVersion (record { number = number; docs = docs; linked = linked }) }
        requires indexes { AreIndexes (record { number = number; docs = docs; linked = linked }) indexes }
        ensures { result ≡ record { number = number; docs = docs; linked = linked } }
    {
        Version {
            number,
            docs,
            linked,
            indexes,
        }
    }

    /// The number of the publication.
    pub fn number(&self) -> VersionNo
        ensures { result ≡ self.now.number }
    {
        self.number
    }

    /// The documents, in the order in which they were staged.
    pub fn docs(&self) -> &[VersionDoc]
        ensures docs { result.now ≡ self.now.docs }
        ensures kept { IsVersion self.now }
    {
        self.docs.as_slice()
    }

    /// The linked rules of all documents.
    pub fn linked(&self) -> &Linked
        ensures linked { result.now ≡ self.now.linked }
        ensures kept { IsVersion self.now }
    {
        &self.linked
    }

    /// The rule that a key and a rule's name stand for, or a key alone for the root rule of its document. A root rule is found whatever its
    /// scope, a rule by name where it is public (SRGS 1.0 section 3.2). It takes no memory.
    pub fn find(&self, key: &Text, rule: Option<&Text>) -> Found
        ensures { result ≡ find self.now key.now (option_copied rule.entry) }
    {
        match place_of(self.docs.as_slice(), key) {
            None => Found::NoDocument,
            Some(place) => self.find_in(place, rule),
        }
    }

    /// The same in the document at this place.
    fn find_in(&self, place: usize, rule: Option<&Text>) -> Found
        requires { place < length self.now.docs }
        ensures { result ≡ find_in self.now (option_copied rule.entry) place }
    {
        let Some(name) = rule else {
            return match self.docs.as_slice()[place].root {
                Some(root) => Found::Rule(root),
                None => Found::NoRoot,
            };
        };
        match self.indexes.as_slice()[place].get(name) {
            None => Found::NoRule,
            Some(found) if found.public => Found::Rule(found.rule),
            Some(_) => Found::NotPublic,
        }
    }
}

/// Where the document under the key stands.
fn place_of(docs: &[VersionDoc], key: &Text) -> Option<usize>
    ensures { result ≡ doc_under key.now docs.now }
{
    for (place, doc) in docs.iter().enumerate() {
        if doc.key == *key {
            return Some(place);
        }
    }
    None
}
