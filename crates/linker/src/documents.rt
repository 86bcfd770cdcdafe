//! The documents laid one after another.
ghost use Rattle.std.specs.Prelude.{◌≡◌, ◌<◌, ◌≤◌, ◌^◌, ◌∷◌, [], List, Some, IfOk, OnOk, length, reverse};
ghost use Rattle.grammar_tree.specs.declared.document.Doc.{Doc};
ghost use Rattle.grammar_tree.specs.declared.document.ReadDoc.TheVariants as read;
ghost use Rattle.linker.specs.declared.set_fault.SetFault.{SetFault};
ghost use Rattle.rule_reader.specs.Imports.{IsReadableBase, IsResolvable, base_uri};
ghost use Rattle.rule_reader.specs.Sets.{IsKey, IsKeyed};
ghost use Rattle.linker.specs.code.Tables.{AreTables};
ghost use Rattle.linker.specs.code.Tellings.{Keeps};
ghost use Rattle.linker.specs.code.Wholes.{AreResolvable, IsWhole, LaysReading, LaysRules};

use crate::defined::Defined;
use crate::faults::Faults;
use crate::laying::{Laying, lay, next, reversed};
use crate::scope::{Base, Scope};
use crate::set_fault::FaultKind;
use crate::tables::Known;
use crate::version::VersionDoc;
use grammar_tree::{Doc, DocSet, LinkedRule, ReadDoc, Rule, size};
use rule_reader::base_uri;
use sqlite_items::Items;
use std::alloc::Global;
use uri_links::Uri;
use vg_base::{DocIx, Memory, Refused, Text};

/// All that was laid so far.
#[derive(Debug, Drop)]
pub struct Whole {
    pub laying: Laying,
    pub rules: Items<LinkedRule>,
    pub docs: Items<VersionDoc>,
    pub defined: Vec<Defined>,
}

/// A set with the tables of its documents.
#[derive(Clone, Copy)]
pub struct Library<'a> {
    pub set: &'a DocSet,
    pub tables: &'a [Option<Known>],
}

/// Lays all documents that were read, and tells their faults.
pub(crate) fn lay_documents(
    alloc: Global,
    library: &Library<'_>,
    docs: Vec<Option<ReadDoc>>,
    faults: Faults,
) -> Result<Whole, Memory>
    requires keyed { IsKeyed library.now.set.now }
    requires sized { length docs.items ≡ length library.now.set.now }
    requires tables { AreTables docs.items library.now.tables.now }
    requires resolvable { AreResolvable docs.items }
    ensures { IfOk result (λ whole. (before : List SetFault) → Keeps before faults → IsWhole library.now.set.now docs.items before whole) }
{
    let mut whole = Whole {
        laying: Laying {
            nodes: Vec::new(alloc),
            faults,
        },
        rules: Items::new(alloc),
        docs: Items::new(alloc),
        defined: Vec::new(alloc),
    };
    for (place, reading) in docs.into_iter().enumerate() {
        lay_reading(alloc, library, place, reading, &mut whole)?;
    }
    Ok(whole)
}

/// Lays the document at the place where it was read, or tells its fault.
fn lay_reading(
    alloc: Global,
    library: &Library<'_>,
    place: usize,
    reading: Option<ReadDoc>,
    whole: &mut Whole,
) -> Result<(), Memory>
    requires keyed { IsKeyed library.now.set.now }
    requires sized { length library.now.tables.now ≡ length library.now.set.now }
    requires place { place < length library.now.set.now }
    requires numbered { length whole.old.docs ≤ place }
    requires resolvable { (doc : Doc) → reading ≡ Some (read.Good doc) → IsResolvable doc }
    ensures { OnOk result (LaysReading library.now place reading whole.old whole.new) }
{
    let Some(reading) = reading else {
        return Ok(());
    };
    match reading {
        ReadDoc::Good(doc) => {
            lay_document(alloc, library, place, doc, whole)?;
            Ok(())
        }
        ReadDoc::Bad(fault) => {
            let key = &library.set.docs()[place].key;
            let kind = FaultKind::Doc(fault.kind);
            whole.laying.faults.tell(key, fault.place, kind)?;
            Ok(())
        }
    }
}

/// Lays one document.
fn lay_document(
    alloc: Global,
    library: &Library<'_>,
    place: usize,
    doc: Doc,
    whole: &mut Whole,
) -> Result<(), Memory>
    requires keyed { IsKeyed library.now.set.now }
    requires sized { length library.now.tables.now ≡ length library.now.set.now }
    requires place { place < length library.now.set.now }
    requires numbered { length whole.old.docs ≤ place }
    requires resolvable { IsResolvable doc }
    ensures { OnOk result (LaysReading library.now place (Some (read.Good doc)) whole.old whole.new) }
{
    let key = &library.set.docs()[place].key;
    // A document that was read has a table.
    let Some(own) = &library.tables[place] else {
        return Ok(());
    };
    let base = base_of(alloc, key, &doc.base)?;
    let scope = Scope {
        set: library.set,
        tables: library.tables,
        place,
        key,
        own,
        base: &base,
    };
    let number = whole.docs.len() as u32;
    whole.docs.push(VersionDoc {
        key: key.copy()?,
        mode: doc.mode,
        format: doc.format,
        root: own.root,
    })?;
    lay_rules(
        alloc,
        &scope,
        DocIx(number),
        reversed(alloc, doc.rules)?,
        whole,
    )?;
    Ok(())
}

/// The URI against which the references of the document are resolved.
fn base_of(alloc: Global, key: &Text, base: &Option<Text>) -> Result<Base, Memory>
    requires key { IsKey key.now }
    requires base { IsReadableBase base.now }
    ensures { IfOk result (λ found. found ≡ base_uri key.now base.now) }
{
    match Uri::read(alloc, key) {
        Ok(key) => Ok(Base::new(base_uri(alloc, &key, base)?)),
        Err(Refused::Memory) => Err(Memory),
        Err(Refused::Fault(_)) => unreachable!(),
    }
}

/// Lays rules, which come with the last one first.
fn lay_rules(
    alloc: Global,
    scope: &Scope<'_>,
    number: DocIx,
    rules: Vec<Rule>,
    whole: &mut Whole,
) -> Result<(), Memory>
    requires { scope.now.place < 2 ^ 32 }
    ensures { OnOk result (LaysRules scope.now number (reverse rules.items) whole.old whole.new) }
{
    let mut rules = rules;
    while let Some(rule) = rules.pop() {
        lay_rule(alloc, scope, number, rule, whole)?;
    }
    Ok(())
}

/// Lays one rule.
fn lay_rule(
    alloc: Global,
    scope: &Scope<'_>,
    number: DocIx,
    rule: Rule,
    whole: &mut Whole,
) -> Result<(), Memory>
    requires { scope.now.place < 2 ^ 32 }
    ensures { OnOk result (LaysRules scope.now number (rule ∷ []) whole.old whole.new) }
{
    whole.defined.push(Defined {
        doc: DocIx(scope.place as u32),
        place: rule.place,
        size: size(&rule.body),
    })?;
    let body = next(&whole.laying)?;
    lay(alloc, scope, rule.body, &mut whole.laying)?;
    whole.rules.push(LinkedRule {
        doc: number,
        name: rule.name,
        public: rule.public,
        body,
    })?;
    Ok(())
}
