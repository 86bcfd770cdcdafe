//! The faults that were told so far.
ghost use Rattle.std.specs.Prelude.{◌≡◌, ◌∷◌, ◌++◌, [], List, OnOk};
ghost use Rattle.linker.specs.declared.set_fault.SetFault.{SetFault};
ghost use Rattle.linker.specs.SetFaults.{fault_at};
ghost use Rattle.linker.specs.code.Tellings.{Keeps};

use crate::set_fault::{FaultKind, SetFault};
use sqlite_items::Items;
use std::alloc::Global;
use vg_base::{Memory, Place, Text};

/// So many faults are kept one by one.
const KEPT: usize = 64;

/// The first faults, and how many there are.
#[derive(Debug, Drop)]
pub struct Faults {
    pub first: Items<SetFault>,
    pub count: u64,
}

impl Faults {
    pub(crate) fn new(alloc: Global) -> Faults
        ensures { Keeps [] result }
    {
        Faults {
            first: Items::new(alloc),
            count: 0,
        }
    }

    /// Tells one more, in the document under the key.
    pub(crate) fn tell(&mut self, key: &Text, place: Place, kind: FaultKind) -> Result<(), Memory>
        ensures { OnOk result ((all : List SetFault) → Keeps all self.old → Keeps (all ++ fault_at key.now place kind ∷ []) self.new) }
    {
        let count = self.count.checked_add(1).ok_or(Memory)?;
        if self.first.len() < KEPT {
            self.first.push(SetFault {
                uri: key.copy()?,
                place,
                kind,
            })?;
        }
        self.count = count;
        Ok(())
    }
}
