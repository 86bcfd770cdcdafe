//! The parts of literals. They are kept while they fit in one value; from then on they are only measured.
ghost use Rattle.std.specs.Prelude.{◌≡◌, [], map, IfOk};
ghost use Rattle.vg_base.specs.Pairs.{find};
ghost use Rattle.vg_base.specs.Refusals.{Gives};
ghost use Rattle.tag_script.specs.code.Literals as spec;
ghost use Rattle.tag_script.specs.code.Seen.{seen};

use crate::refused::RunRefused;
use crate::seen::Seen;
use crate::tag_kind::TagKind;
use script_value::{Measures, Value, put_member};
use sqlite_items::Items;
use std::alloc::Global;
use vg_base::{Expr, Memory, Text, TextMap};

/// The items of a list so far: all of them, or none where they don't fit.
#[derive(Drop)]
pub(crate) struct ListParts {
    values: Items<Value>,
    measures: Measures,
}

impl ListParts {
    pub(crate) fn new(alloc: Global) -> ListParts
        ensures { result ≡ spec.no_items }
    {
        ListParts {
            values: Items::new(alloc),
            measures: Measures::none(),
        }
    }

    /// With one more item, which is copied only where it is kept.
    pub(crate) fn with(self, alloc: Global, item: Seen) -> Result<ListParts, Memory>
        ensures { IfOk result (λ parts. parts ≡ spec.with_item self (seen item.entry)) }
    {
        let measures = self.measures.with(item.value().measures());
        let mut values = self.values;
        if measures.around().first_limit().is_some() {
            values = Items::new(alloc);
        } else {
            values.push(item.into_value(alloc)?)?;
        }
        Ok(ListParts { values, measures })
    }

    /// The list of all items, where they fit.
    pub(crate) fn list(self) -> Result<Value, RunRefused>
        ensures { Gives result (spec.list_of self) }
    {
        match self.measures.around().first_limit() {
            None => Ok(Value::List(self.values)),
            Some(limit) => Err(RunRefused::Fault(TagKind::of_limit(limit))),
        }
    }
}

/// The members of a record so far: all of them, or none where they don't fit.
#[derive(Drop)]
pub(crate) struct RecordParts {
    members: TextMap<Value>,
    measures: Measures,
}

impl RecordParts {
    pub(crate) fn new(alloc: Global) -> RecordParts
        ensures { result ≡ spec.no_members }
    {
        RecordParts {
            members: TextMap::new(alloc),
            measures: Measures::none(),
        }
    }

    /// With one more member, if it is the last of its key; it is copied only where it is kept.
    pub(crate) fn with(
        self,
        alloc: Global,
        last: bool,
        key: &Text,
        member: Seen,
    ) -> Result<RecordParts, Memory>
        ensures { IfOk result (λ parts. parts ≡ spec.with_last last key.now (seen member.entry) self) }
    {
        if !last {
            return Ok(self);
        }
        let measures = self.measures.with_key(key).with(member.value().measures());
        let mut members = self.members;
        if measures.around().first_limit().is_some() {
            members = TextMap::new(alloc);
        } else {
            put_member(&mut members, key.copy()?, member.into_value(alloc)?)?;
        }
        Ok(RecordParts { members, measures })
    }

    /// The record of all members, where they fit.
    pub(crate) fn record(self) -> Result<Value, RunRefused>
        ensures { Gives result (spec.record_of self) }
    {
        match self.measures.around().first_limit() {
            None => Ok(Value::Record(self.members)),
            Some(limit) => Err(RunRefused::Fault(TagKind::of_limit(limit))),
        }
    }
}

/// Of each key the number of the last pair that has it.
pub(crate) fn last_places(alloc: Global, pairs: &[(Text, Expr)]) -> Result<TextMap<usize>, Memory>
    ensures { IfOk result (λ places. places ≡ spec.places (map (λ pair. pair.0) pairs.now) 0 []) }
{
    let mut places = TextMap::new(alloc);
    for (at, pair) in pairs.iter().enumerate() {
        places.set(pair.0.copy()?, at)?;
    }
    Ok(places)
}

/// Whether the pair of this number is the last one with its key.
pub(crate) fn is_last(places: &TextMap<usize>, key: &Text, at: usize) -> bool
    ensures { result ≡ spec.is_at (find key.now places.now) at }
{
    match places.get(key) {
        Some(last) => *last == at,
        None => false,
    }
}
