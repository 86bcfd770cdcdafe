//! What a publish is given of the documents: their readings.
ghost use Rattle.std.specs.Prelude.{◌≡◌, ◌≤◌, ◌==◌, true, false, List, IfOk, MatchOption, length};
ghost use Rattle.std.specs.List.{list_any};
ghost use Rattle.vg_base.specs.declared.numbers.DocIx.{DocIx};
ghost use Rattle.rule_reader.specs.Sets.{ArePlaces, IsClosure, IsKeyed};
ghost use Rattle.linker.specs.Readings.{HaveReadings, IsReadAs, staged};

use grammar_tree::{DocSet, ReadDoc};
use import_closure::closure;
use rule_reader::read_document;
use std::alloc::Global;
use vg_base::{DocIx, Memory, Refused, Text};

/// The readings of the documents that the staged entries need, and of no other.
#[tactic(auto, using(crate::proofs::ReadingLemmas::staged_within))]
pub(super) fn readings(
    alloc: Global,
    set: &DocSet,
    entries: &[Text],
) -> Result<Vec<Option<ReadDoc>>, Memory>
    requires keyed { IsKeyed set.now }
    ensures { IfOk result (λ docs. HaveReadings set.now (staged set.now entries.now) docs.items) }
{
    let places = places_of(alloc, set, entries)?;
    let needed = closure(alloc, set, &places)?;
    let docs = read_needed(alloc, set, &needed)?;
    Ok(docs)
}

/// Where the staged entries stand.
#[tactic(auto, using(crate::proofs::ReadingLemmas::place_none, crate::proofs::ReadingLemmas::place_some, crate::proofs::ReadingLemmas::place_within))]
fn places_of(alloc: Global, set: &DocSet, entries: &[Text]) -> Result<Vec<DocIx>, Memory>
    requires few { length set.now ≤ 64 }
    ensures { IfOk result (λ places. places.items ≡ staged set.now entries.now) }
{
    let mut places = Vec::new(alloc);
    for entry in entries {
        if let Some(place) = set.position(entry) {
            places.push(DocIx(place as u32))?;
        }
    }
    Ok(places)
}

/// The readings of these documents, and of no other.
#[tactic(auto, using(crate::proofs::ReadingLemmas::none_read, crate::proofs::ReadingLemmas::read_more, crate::proofs::ReadingLemmas::have_readings))]
fn read_needed(
    alloc: Global,
    set: &DocSet,
    needed: &[DocIx],
) -> Result<Vec<Option<ReadDoc>>, Memory>
    ensures { IfOk result (λ docs. (entries : List DocIx) → ArePlaces set.now entries → IsClosure set.now entries needed.now
        → HaveReadings set.now entries docs.items) }
{
    let mut docs = Vec::new(alloc);
    for (place, doc) in set.docs().iter().enumerate() {
        docs.push(read_if(alloc, &doc.text, has(needed, place))?)?;
    }
    Ok(docs)
}

fn has(docs: &[DocIx], place: usize) -> bool
    ensures { result ≡ list_any (λ doc. doc.0 == place) docs.now }
{
    docs.iter().any(|doc| doc.0 as usize == place)
}

fn read_if(alloc: Global, text: &Text, is_needed: bool) -> Result<Option<ReadDoc>, Memory>
    ensures { IfOk result (λ reading. MatchOption reading (is_needed ≡ false) (λ read. (is_needed ≡ true) × IsReadAs text.now read)) }
{
    if !is_needed {
        return Ok(None);
    }
    match read_document(alloc, text) {
        Ok(doc) => Ok(Some(ReadDoc::Good(doc))),
        Err(Refused::Fault(fault)) => Ok(Some(ReadDoc::Bad(fault))),
        Err(Refused::Memory) => Err(Memory),
    }
}
