//! Entries of a publish that aren't staged.
ghost use Rattle.std.specs.Prelude.{◌≡◌, ◌++◌, List, IfOk, OnOk};
ghost use Rattle.linker.specs.declared.set_fault.SetFault.{SetFault};
ghost use Rattle.linker.specs.Readings.{missing};
ghost use Rattle.linker.specs.SetFaults.{entry_faults};
ghost use Rattle.linker.specs.code.Tellings.{Keeps};

use crate::faults::Faults;
use crate::set_fault::FaultKind;
use grammar_tree::DocSet;
use indexmap::IndexSet;
use std::alloc::Global;
use vg_base::{LinkKind, Memory, Place, Text};

/// The entries that aren't staged, each once.
fn missing(alloc: Global, set: &DocSet, entries: &[Text]) -> Result<IndexSet<Text>, Memory>
    ensures { IfOk result (λ found. found.keys ≡ missing set.now entries.now) }
{
    let mut found = IndexSet::new(alloc);
    for entry in entries {
        if set.position(entry).is_none() {
            found.insert(entry.copy()?)?;
        }
    }
    Ok(found)
}

/// Tells the entries that aren't staged; they stand in no text.
pub(crate) fn tell_entries(
    alloc: Global,
    set: &DocSet,
    entries: &[Text],
    faults: &mut Faults,
) -> Result<(), Memory>
    ensures { OnOk result ((all : List SetFault) → Keeps all faults.old → Keeps (all ++ entry_faults (missing set.now entries.now)) faults.new) }
{
    let absent = missing(alloc, set, entries)?;
    tell_absent(absent.as_slice(), faults)
}

/// Tells these, in order.
fn tell_absent(keys: &[Text], faults: &mut Faults) -> Result<(), Memory>
    ensures { OnOk result ((all : List SetFault) → Keeps all faults.old → Keeps (all ++ entry_faults keys.now) faults.new) }
{
    let kind = FaultKind::Link(LinkKind::NoDocument);
    for key in keys {
        faults.tell(key, Place { line: 0, column: 0 }, kind)?;
    }
    Ok(())
}
