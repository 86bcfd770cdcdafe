//! The documents that are reached, by the loading core: what one loader has done at its end.
ghost use Rattle.std.specs.Prelude.{◌≡◌, ◌↔◌, ◌≤◌, ◌<◌, ◌++◌, ◌∷◌, ℕ, [], length, map, All, Contains, IfOk, OnOk};
ghost use Rattle.std.specs.List.Sorted.{IsStrictlyIncreasing};
ghost use Rattle.build_core.specs.Rows.{ByRows, IsClosed};
ghost use Rattle.build_core.specs.Core.{DoneIsClosure, IsDone};
ghost use Rattle.rule_reader.specs.Sets.{ArePlaces, AreRows, IsClosure, IsKeyed, IsRow, ix};
ghost use Rattle.import_closure.specs.code.Cores.{AreFirstRows, done_marks, is_done};

use crate::marks::marked;
use crate::rows::row_of;
use build_core::{CoreState, DocState, Imports};
use grammar_tree::DocSet;
use sqlite_items::Items;
use std::alloc::Global;
use vg_base::{DocIx, Memory};

/// The same as `closure`, by the loading core: it is opened on what the documents of the set import, and one loader goes
/// on to the end. The text of each document of the set is read once.
pub fn core_closure(alloc: Global, set: &DocSet, entries: &[DocIx]) -> Result<Vec<DocIx>, Memory>
    requires keyed { IsKeyed set.now }
    requires places { ArePlaces set.now entries.now }
    ensures { IfOk result (λ closure. IsClosure set.now entries.now closure.items) }
{
    let imports = imports_of(alloc, set)?;
    let core = ended(alloc, &imports, entries)?;
    let docs = done(alloc, &core)?;
    Ok(docs)
}

/// What each document of the set imports.
fn imports_of(alloc: Global, set: &DocSet) -> Result<Imports, Memory>
    requires keyed { IsKeyed set.now }
    ensures { IfOk result (λ imports. AreRows set.now imports) }
{
    let rows = rows_of(alloc, set)?;
    match Imports::of(rows) {
        Some(imports) => Ok(imports),
        None => unreachable!(),
    }
}

#[tactic(auto, using(crate::proofs::CoreLemmas::no_rows, crate::proofs::CoreLemmas::one_more_row))]
fn rows_of(alloc: Global, set: &DocSet) -> Result<Items<Items<DocIx>>, Memory>
    requires keyed { IsKeyed set.now }
    ensures rows { IfOk result (λ rows. AreRows set.now rows) }
    ensures closed { IfOk result (λ rows. IsClosed rows) }
{
    let mut rows = Items::new(alloc);
    for x in 0..set.len() {
        let row = row_of(alloc, set, DocIx(x as u32))?;
        rows.push(Items::from_vec(row))?;
    }
    Ok(rows)
}

/// A core at its end, whose documents that are done are those that are reached.
fn ended(alloc: Global, imports: &Imports, entries: &[DocIx]) -> Result<CoreState, Memory>
    requires { All (λ d. d.0 < length imports.now) entries.now }
    ensures closure { IfOk result (λ core. DoneIsClosure (ByRows imports.now) entries.now core.docs) }
    ensures few { IfOk result (λ core. length core.docs ≤ 64) }
{
    let _documents = imports.len();
    let mut core = CoreState::open(alloc, imports, entries, 1)?;
    core.run_to_end(imports);
    Ok(core)
}

/// The documents that are done, in rising order.
fn done(alloc: Global, core: &CoreState) -> Result<Vec<DocIx>, Memory>
    requires few { length core.now.docs ≤ 64 }
    ensures rising { IfOk result (λ docs. IsStrictlyIncreasing (map (λ y. y.0) docs.items)) }
    ensures exact { IfOk result (λ docs. (y : ℕ) → Contains docs.items (ix y) ↔ IsDone core.now.docs y) }
{
    let marks = done_marks(alloc, core)?;
    let docs = marked(alloc, &marks)?;
    Ok(docs)
}

fn done_marks(alloc: Global, core: &CoreState) -> Result<Vec<bool>, Memory>
    requires few { length core.now.docs ≤ 64 }
    ensures { IfOk result (λ marks. marks.items ≡ done_marks core.now.docs) }
{
    let mut marks = Vec::new(alloc);
    for y in 0..core.len() {
        marks.push(is_done(core.state(DocIx(y as u32))))?;
    }
    Ok(marks)
}

fn is_done(state: DocState) -> bool
    ensures { result ≡ is_done state }
{
    matches!(state, DocState::Done(_))
}
