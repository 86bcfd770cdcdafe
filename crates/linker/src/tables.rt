//! What is known of the documents before their references are followed.
ghost use Rattle.std.specs.Prelude.{◌≡◌, ◌+◌, IfOk};
ghost use Rattle.linker.specs.Targets.{rule_count};
ghost use Rattle.linker.specs.code.Tables.{AreTables, AreNamed, IsKnown, IsTable};

use grammar_tree::{Doc, ReadDoc, Rule};
use std::alloc::Global;
use vg_base::{Memory, Mode, RuleIx, TextMap};

/// A rule that a name finds.
#[derive(Clone, Copy, Debug, PartialEq, Eq)]
pub struct NamedRule {
    pub rule: RuleIx,
    pub public: bool,
}

/// What references need to know of a document that was read.
#[derive(Debug, Drop)]
pub struct Known {
    pub mode: Mode,
    pub root: Option<RuleIx>,
    pub names: TextMap<NamedRule>,
}

/// The tables of all documents; none of one that wasn't read, or has a fault.
pub(crate) fn tables_of(
    alloc: Global,
    docs: &[Option<ReadDoc>],
) -> Result<Vec<Option<Known>>, Memory>
    ensures { IfOk result (λ tables. AreTables docs.now tables.items) }
{
    let mut tables = Vec::new(alloc);
    let mut rules: u32 = 0;
    for reading in docs {
        let table = table_at(alloc, reading, rules)?;
        tables.push(table)?;
        rules = after(rules, reading)?;
    }
    Ok(tables)
}

/// The table of a document that was read, before which so many rules stand.
fn table_at(alloc: Global, reading: &Option<ReadDoc>, before: u32) -> Result<Option<Known>, Memory>
    ensures { IfOk result (IsTable before reading.now) }
{
    match reading {
        Some(ReadDoc::Good(doc)) => Ok(Some(table_of(alloc, doc, before)?)),
        _ => Ok(None),
    }
}

/// How many rules there are with those of the document. Where 32 bits can't number them, memory is wanted.
fn after(rules: u32, reading: &Option<ReadDoc>) -> Result<u32, Memory>
    ensures { IfOk result (λ sum. sum ≡ rules + rule_count reading.now) }
{
    let Some(ReadDoc::Good(doc)) = reading else {
        return Ok(rules);
    };
    match u32::try_from(doc.rules.len()) {
        Ok(count) => rules.checked_add(count).ok_or(Memory),
        Err(_) => Err(Memory),
    }
}

/// What is known of a document before which so many rules stand.
fn table_of(alloc: Global, doc: &Doc, before: u32) -> Result<Known, Memory>
    ensures { IfOk result (IsKnown before doc.now) }
{
    let names = names_of(alloc, doc.rules.as_slice(), before)?;
    let root = match &doc.root {
        Some(name) => names.get(name).map(|found| found.rule),
        None => None,
    };
    Ok(Known {
        mode: doc.mode,
        root,
        names,
    })
}

/// The rules by their names. Of two with one name the first is found.
fn names_of(alloc: Global, rules: &[Rule], before: u32) -> Result<TextMap<NamedRule>, Memory>
    ensures { IfOk result (AreNamed before rules.now) }
{
    let mut names = TextMap::new(alloc);
    let mut at = before;
    for rule in rules {
        if !names.contains(&rule.name) {
            let found = NamedRule {
                rule: RuleIx(at),
                public: rule.public,
            };
            names.set(rule.name.copy()?, found)?;
        }
        at = at.checked_add(1).ok_or(Memory)?;
    }
    Ok(names)
}
