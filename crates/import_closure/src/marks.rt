//! Documents marked by their places.
ghost use Rattle.std.specs.Prelude.{◌≡◌, ◌↔◌, ◌≤◌, ◌∷◌, ◌++◌, ℕ, [], length, map, cond, IfOk, OnOk, Contains};
ghost use Rattle.std.specs.List.Sorted.{IsStrictlyIncreasing};
ghost use Rattle.rule_reader.specs.Sets.{ix};
ghost use Rattle.import_closure.specs.code.Marks.{IsMarked, places_from};

use std::alloc::Global;
use vg_base::{DocIx, Memory};

/// The places that are marked, in rising order.
#[tactic(auto, using(crate::proofs::MarkLemmas::places_rise, crate::proofs::MarkLemmas::places_are_marked))]
pub(crate) fn marked(alloc: Global, marks: &[bool]) -> Result<Vec<DocIx>, Memory>
    requires few { length marks.now ≤ 64 }
    ensures rising { IfOk result (λ docs. IsStrictlyIncreasing (map (λ y. y.0) docs.items)) }
    ensures exact { IfOk result (λ docs. (y : ℕ) → Contains docs.items (ix y) ↔ IsMarked marks.now y) }
{
    let docs = places(alloc, marks)?;
    Ok(docs)
}

#[tactic(auto, using(crate::proofs::MarkLemmas::one_more_mark))]
fn places(alloc: Global, marks: &[bool]) -> Result<Vec<DocIx>, Memory>
    requires few { length marks.now ≤ 64 }
    ensures { IfOk result (λ docs. docs.items ≡ places_from 0 marks.now) }
{
    let mut docs = Vec::new(alloc);
    for y in 0..marks.len() {
        push_if(&mut docs, marks[y], y as u32)?;
    }
    Ok(docs)
}

fn push_if(docs: &mut Vec<DocIx>, is_marked: bool, y: u32) -> Result<(), Memory>
    ensures { OnOk result (docs.new.items ≡ docs.old.items ++ cond is_marked (ix y ∷ []) []) }
{
    if is_marked {
        docs.push(DocIx(y))?;
    }
    Ok(())
}
