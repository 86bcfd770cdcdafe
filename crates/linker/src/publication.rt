//! Linking the documents of a publish.
ghost use Rattle.std.specs.Prelude.{◌≡◌, ℕ, List, IfOk};
ghost use Rattle.rule_reader.specs.Sets.{IsKeyed};
ghost use Rattle.linker.specs.declared.linking.Linking.TheVariants as linking;
ghost use Rattle.linker.specs.Readings.{Readings, HaveReadings, staged};
ghost use Rattle.linker.specs.Linking.{Links};
ghost use Rattle.linker.specs.code.Indexes.{names_in};
ghost use Rattle.linker.specs.code.Publications.{HaveNumbers, IsLaid, WasLaid};

use crate::defined::tell_late;
use crate::documents::{Library, Whole, lay_documents};
use crate::entries::tell_entries;
use crate::faults::Faults;
use crate::laying::Laying;
use crate::linking::Linking;
use crate::tables::{Known, NamedRule, tables_of};
use crate::version::Version;
use grammar_tree::{DocSet, Linked, LinkedRule, Node, ReadDoc};
use rule_reader::references_can_be_resolved;
use sqlite_items::Items;
use std::alloc::Global;
use vg_base::{Memory, Text, TextMap, VersionNo};

/// Links the documents that the staged entries of a publish need.
///
/// `docs` has the reading of each of them, and none of any other. Where there are faults the answer is `Faulty`: entries that aren't staged,
/// faults of documents by themselves and of their references; where there are none of these, rules that derive themselves and
/// rules that are too large together. Else it is the version of these documents, in the order of the set.
pub fn link(
    alloc: Global,
    set: &DocSet,
    docs: Vec<Option<ReadDoc>>,
    entries: &[Text],
    number: VersionNo,
) -> Result<Linking, Memory>
    requires keyed { IsKeyed set.now }
    requires readings { HaveReadings set.now (staged set.now entries.now) docs.items }
    ensures { IfOk result (Links set.now entries.now number) }
{
    references_can_be_resolved();
    let tables = tables_of(alloc, &docs)?;
    let mut faults = Faults::new(alloc);
    tell_entries(alloc, set, entries, &mut faults)?;
    let library = Library {
        set,
        tables: &tables,
    };
    let whole = lay_documents(alloc, &library, docs, faults)?;
    let linking = judge(alloc, set, whole, tables, number)?;
    Ok(linking)
}

/// The faults that were told of entries, documents and references; else what comes of their rules.
fn judge(
    alloc: Global,
    set: &DocSet,
    whole: Whole,
    tables: Vec<Option<Known>>,
    number: VersionNo,
) -> Result<Linking, Memory>
    requires { WasLaid set.now tables.items whole }
    ensures { IfOk result (λ linking. (entries : List (List ℕ)) (docs : Readings)
        → IsLaid set.now entries docs tables.items whole → Links set.now entries number linking) }
{
    let early = whole.laying.faults.count;
    if early > 0 {
        let Whole { laying, .. } = whole;
        return Ok(faulty(laying.faults));
    }
    let linking = conclude(alloc, set, whole, tables, number)?;
    Ok(linking)
}

/// The version of what was laid, or the faults of its rules.
fn conclude(
    alloc: Global,
    set: &DocSet,
    whole: Whole,
    tables: Vec<Option<Known>>,
    number: VersionNo,
) -> Result<Linking, Memory>
    requires laid { WasLaid set.now tables.items whole }
    requires none { whole.laying.faults.count ≡ 0 }
    ensures { IfOk result (λ linking. (entries : List (List ℕ)) (docs : Readings)
        → IsLaid set.now entries docs tables.items whole → Links set.now entries number linking) }
{
    let Whole {
        laying: Laying { nodes, faults },
        rules,
        docs,
        defined,
    } = whole;
    let mut faults = faults;
    let linked = linked_of(nodes, rules)?;
    tell_late(alloc, set, &linked, &defined, &mut faults)?;
    if faults.count > 0 {
        return Ok(faulty(faults));
    }
    let indexes = indexes_of(alloc, tables)?;
    Ok(Linking::Sound(Version::new(number, docs, linked, indexes)))
}

fn faulty(faults: Faults) -> Linking
    ensures { result ≡ linking.Faulty faults.first faults.count }
{
    let Faults { first, count } = faults;
    Linking::Faulty { first, count }
}

/// The linked rules of the set. Where 32 bits can't number their nodes, memory is wanted.
fn linked_of(nodes: Vec<Node>, rules: Items<LinkedRule>) -> Result<Linked, Memory>
    requires { HaveNumbers nodes.items rules }
    ensures { IfOk result (λ linked. linked ≡ record { nodes = nodes.items; rules = rules }) }
{
    if nodes.len() > u32::MAX as usize {
        return Err(Memory);
    }
    Ok(Linked::new(Items::from_vec(nodes), rules))
}

/// The names of all documents that were read, without their tables.
fn indexes_of(
    alloc: Global,
    tables: Vec<Option<Known>>,
) -> Result<Items<TextMap<NamedRule>>, Memory>
    ensures { IfOk result (λ indexes. indexes ≡ names_in tables.items) }
{
    let mut indexes = Items::new(alloc);
    for table in tables {
        if let Some(known) = table {
            indexes.push(known.names)?;
        }
    }
    Ok(indexes)
}
