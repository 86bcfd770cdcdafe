//! Rules that derive themselves, and rules that are too large together.
ghost use Rattle.std.specs.Prelude.{◌≡◌, ◌+◌, ◌<◌, ◌&&◌, ◌∷◌, ◌++◌, if◌then◌else◌, min, nat_le, nat_lt, [], List, OnOk, length};
ghost use Rattle.std.specs.List.{All};
ghost use Rattle.linker.specs.declared.set_fault.SetFault.{SetFault};
ghost use Rattle.linker.specs.Numbers.{Definition};
ghost use Rattle.linker.specs.SetFaults.{fault_at};
ghost use Rattle.linker.specs.code.Late.{AreDefined, TellsLate};
ghost use Rattle.linker.specs.code.Tellings.{Keeps};
ghost use Rattle.vg_base.specs.Limits as limits;

use crate::faults::Faults;
use crate::set_fault::FaultKind;
use grammar_tree::{DocSet, Linked};
use self_derivation::self_deriving;
use std::alloc::Global;
use vg_base::{DocIx, LinkKind, Memory, Place, Text};

/// The largest size of rules that are published together, and the size at which counting stops.
const MOST: u64 = 65_536;

const PAST: u64 = 65_537;

/// Where a rule is defined, with the place of its document in the set, and its size, which stops at 65,537.
#[derive(Clone, Copy, Debug)]
pub struct Defined {
    pub doc: DocIx,
    pub place: Place,
    pub size: u64,
}

/// Tells, rule by rule, which derive themselves, and the one with which all are too large.
pub(crate) fn tell_late(
    alloc: Global,
    set: &DocSet,
    linked: &Linked,
    defined: &[Defined],
    faults: &mut Faults,
) -> Result<(), Memory>
    requires places { All (λ rule. rule.doc.0 < length set.now) defined.now }
    requires sized { length defined.now ≡ length linked.now.rules }
    ensures { OnOk result ((definitions : List Definition) → AreDefined set.now definitions defined.now → TellsLate linked.now definitions faults.old faults.new) }
{
    let marks = self_deriving(alloc, linked)?;
    let mut before: u64 = 0;
    for (r, rule) in defined.iter().enumerate() {
        let key = &set.doc(rule.doc).key;
        let next = stopped(before, rule.size);
        tell_if(faults, marks[r], key, rule.place, LinkKind::SelfDerive)?;
        tell_if(
            faults,
            passes(before, next),
            key,
            rule.place,
            LinkKind::NodesOver,
        )?;
        before = next;
    }
    Ok(())
}

/// The size of the rules so far and of one more, which stops past the limit.
fn stopped(before: u64, size: u64) -> u64
    ensures { result ≡ min (before + size) 65537 }
{
    let sum = before.saturating_add(size);
    if sum < PAST { sum } else { PAST }
}

/// Whether the size of the rules so far is within the limit, and the next one is past it.
fn passes(before: u64, next: u64) -> bool
    ensures { result ≡ (nat_le before limits.nodes && nat_lt limits.nodes next) }
{
    before <= MOST && next > MOST
}

/// Tells a fault where it holds.
fn tell_if(
    faults: &mut Faults,
    holds: bool,
    key: &Text,
    place: Place,
    kind: LinkKind,
) -> Result<(), Memory>
    ensures { OnOk result ((all : List SetFault) → Keeps all faults.old
        → Keeps (all ++ (if holds then fault_at key.now place (FaultKind.Link kind) ∷ [] else [])) faults.new) }
{
    if holds {
        faults.tell(key, place, FaultKind::Link(kind))?;
    }
    Ok(())
}
