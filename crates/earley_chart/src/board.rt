//! What a run has found so far, and what is still to be looked at.

ghost use Rattle.std.specs.Prelude.{◌≡◌, ℕ, ◌<◌, ◌⊎◌, length, IfOk, OnOk, IfNone, IfSome, nat_eq};
ghost use Rattle.earley_chart.specs.code.Boards.{IsWhole, IsSpot, IsDue, AddsOnly, IsAlike, Takes, Ended};
ghost use Rattle.earley_chart.specs.code.Boards.{Grows, Shows, IsIdle, IsWithin, IsOfEither, StaysDistinct};

use crate::places::Places;
use indexmap::IndexSet;
use std::alloc::Global;
use std::collections::BTreeSet;
use vg_base::Memory;

/// A node with so many steps behind it, at a place: of a sequence parts, of alternatives those that
/// are passed over, of a repeat turns and one. At step 0 it is the node itself.
#[derive(Clone, Copy, Debug, PartialEq, Eq, Hash)]
pub struct Spot {
    pub node: u32,
    pub step: usize,
    pub start: u32,
}

/// Spots are numbered as they are met. Beside each stand the places where it ends, and who is to
/// look again where it ends elsewhere, each once. Those from `seen` on have not been looked at.
#[derive(Drop)]
pub struct Board {
    pub spots: IndexSet<Spot>,
    pub ends: Vec<Places>,
    pub waiting: Vec<IndexSet<usize>>,
    pub seen: usize,
    pub again: BTreeSet<usize>,
}

impl Board {
    pub fn new(alloc: Global) -> Board
        ensures whole { IsWhole result }
        ensures none { length result.spots.keys ≡ 0 }
    {
        Board {
            spots: IndexSet::new(alloc),
            ends: Vec::new(alloc),
            waiting: Vec::new(alloc),
            seen: 0,
            again: BTreeSet::new(alloc),
        }
    }

    /// The number of a spot, which is a new one where it wasn't met before.
    pub fn meet(&mut self, alloc: Global, spot: Spot) -> Result<usize, Memory>
        requires { IsWhole self.old }
        ensures whole { OnOk result (IsWhole self.new) }
        ensures grows { OnOk result (Grows self.old self.new) }
        ensures met { IfOk result (λ at. IsSpot self.new at spot) }
        ensures other { OnOk result (AddsOnly spot self.old self.new) }
    {
        let (at, added) = self.spots.insert_full(spot)?;
        if added {
            self.ends.push(Places::none())?;
            self.waiting.push(IndexSet::new(alloc))?;
        }
        Ok(at)
    }

    /// Where a spot ends so far; the one above is to look again where it ends elsewhere.
    pub fn look(&mut self, alloc: Global, above: usize, spot: Spot) -> Result<Places, Memory>
        requires whole { IsWhole self.old }
        requires above { above < length self.old.spots.keys }
        ensures whole { OnOk result (IsWhole self.new) }
        ensures grows { OnOk result (Grows self.old self.new) }
        ensures sees { IfOk result (Shows self.new above spot) }
        ensures other { OnOk result (AddsOnly spot self.old self.new) }
    {
        let at = self.meet(alloc, spot)?;
        self.waiting[at].insert(above)?;
        Ok(self.ends[at])
    }

    /// A spot ends at these places too. Who waits for it is to look again.
    pub fn end(&mut self, at: usize, ends: Places) -> Result<(), Memory>
        requires whole { IsWhole self.old }
        requires at { at < length self.old.spots.keys }
        ensures whole { OnOk result (IsWhole self.new) }
        ensures ended { OnOk result (Ended self.old self.new at ends) }
    {
        let known = self.ends[at];
        let all = known.with(ends);
        if all == known {
            return Ok(());
        }
        self.ends[at] = all;
        call(&mut self.again, self.waiting[at].as_slice())?;
        self.waiting[at].clear();
        Ok(())
    }

    /// The next spot to be looked at: one that wasn't looked at, else of those that are to be looked
    /// at again the one that was met last. What stands later in the line is mostly met later, so it
    /// mostly has all its ends before what stands earlier looks at it.
    pub fn next(&mut self) -> Option<usize>
        requires { IsWhole self.old }
        ensures whole { IsWhole self.new }
        ensures same { IsAlike self.old self.new }
        ensures none { IfNone result (IsIdle self.old) }
        ensures some { IfSome result (Takes self.old self.new) }
    {
        if self.seen < self.spots.len() {
            let at = self.seen;
            self.seen += 1;
            return Some(at);
        }
        self.again.pop_last()
    }
}

/// Those who wait are to look again.
fn call(again: &mut BTreeSet<usize>, waiting: &[usize]) -> Result<(), Memory>
    ensures all { OnOk result (IsWithin waiting.now again.new.keys) }
    ensures kept { OnOk result (IsWithin again.old.keys again.new.keys) }
    ensures from { OnOk result (IsOfEither again.new.keys again.old.keys waiting.now) }
    ensures distinct { OnOk result (StaysDistinct again.old.keys again.new.keys) }
{
    for above in waiting {
        again.insert(*above)?;
    }
    Ok(())
}
