//! The documents that are reached, by a list of those that are left to be followed.
ghost use Rattle.std.specs.Prelude.{◌≡◌, ◌<◌, List, [], length, All, IfOk};
ghost use Rattle.grammar_tree.specs.declared.doc_set.DocText.{DocText};
ghost use Rattle.rule_reader.specs.Sets.{ArePlaces, IsClosure, IsKeyed};
ghost use Rattle.import_closure.specs.code.Reach.{IsWithin};

use crate::reach::Reach;
use crate::rows::row_of;
use grammar_tree::DocSet;
use std::alloc::Global;
use vg_base::{DocIx, Memory};

/// The documents at the end of some walk of imports from an entry, in rising order. The text of each is read once, and
/// no other one's. A document with a fault imports nothing.
pub fn closure(alloc: Global, set: &DocSet, entries: &[DocIx]) -> Result<Vec<DocIx>, Memory>
    requires keyed { IsKeyed set.now }
    requires places { ArePlaces set.now entries.now }
    ensures { IfOk result (λ closure. IsClosure set.now entries.now closure.items) }
{
    let reach = searched(alloc, set, entries)?;
    let docs = reach.met(alloc)?;
    Ok(docs)
}

/// Nothing is left to be followed.
fn searched(alloc: Global, set: &DocSet, entries: &[DocIx]) -> Result<Reach, Memory>
    requires keyed { IsKeyed set.now }
    requires places { ArePlaces set.now entries.now }
    ensures within { IfOk result (λ reach. IsWithin set.now entries.now reach) }
    ensures ended { IfOk result (λ reach. reach.left ≡ []) }
{
    let mut reach = begun(alloc, set.len(), entries)?;
    while let Some(x) = reach.next() {
        let row = row_of(alloc, set, x)?;
        reach.meet_all(&row)?;
    }
    Ok(reach)
}

/// The entries are met.
fn begun(alloc: Global, docs: usize, entries: &[DocIx]) -> Result<Reach, Memory>
    requires { All (λ doc. doc.0 < docs) entries.now }
    ensures { IfOk result (λ reach. (set : List DocText) → length set ≡ docs → IsWithin set entries.now reach) }
{
    let mut reach = Reach::new(alloc, docs)?;
    reach.meet_all(entries)?;
    Ok(reach)
}
