//! The places from which a rest can be completed, by the chart's spans.

ghost use Rattle.std.specs.Prelude.{◌≡◌, ℕ, ◌<◌, ◌^◌, ◌≤◌, ◌↔◌, IsTrue, IfOk, length};
ghost use Rattle.grammar_tree.specs.Derives.{IsAtMost};
ghost use Rattle.grammar_tree.specs.Choices.{is_open};
ghost use Rattle.earley_chart.specs.Places.{Holds};
ghost use Rattle.parse_choice.specs.code.Ways.{IsBefore, Leaves, AreInLine, AreWays, ends_of, Suffices, IsCompleted, AreOnward, IsFurther, HasSome, next_of};
ghost use Rattle.parse_choice.specs.code.Trails.{IsDecided};

use crate::guide::Trail;
use earley_chart::{Chart, Places};
use sqlite_items::Items;
use std::alloc::Global;
use vg_base::{Memory, NodeIx};

/// So many places has the longest line.
const PLACES: u32 = 65;

/// The places from which the node ends at one of these, and, where a word is asked for, elsewhere than it began.
pub fn before(chart: &Chart, node: NodeIx, ends: Places, with_word: bool) -> Places
    requires { AreInLine chart.now }
    ensures { IsBefore chart.now node ends with_word result }
{
    let mut all = Places::none();
    for place in 0..PLACES {
        let reached = spans(chart, node, place, with_word).shared(ends);
        if !reached.is_empty() {
            all = all.with(Places::one(place));
        }
    }
    all
}

/// Where the node ends from a place, and, where a word is asked for, elsewhere.
pub fn spans(chart: &Chart, node: NodeIx, place: u32, with_word: bool) -> Places
    requires line { AreInLine chart.now }
    requires place { place < 65 }
    ensures { Holds result (Leaves chart.now node place with_word) }
{
    let ends = chart.ends(node, place);
    if with_word {
        ends.shared(Places::range(place + 1, PLACES))
    } else {
        ends
    }
}

/// Whether there is a place.
pub fn has_some(ends: Places) -> bool
    ensures { IsTrue result ↔ HasSome ends }
{
    !ends.is_empty()
}

/// Whether there is one of these places behind a place and no further than the last.
pub fn goes_further(ends: Places, place: u32, last: u32) -> bool
    requires { last ≤ 64 }
    ensures { IsTrue result ↔ IsFurther ends place last }
{
    place < last && !ends.shared(Places::range(place + 1, last)).is_empty()
}

/// The counts of a repeat, and the node of its turns.
#[derive(Clone, Copy)]
pub struct Repeat {
    pub least: u32,
    pub most: Option<u32>,
    pub inner: NodeIx,
}

impl Repeat {
    /// Whether so many turns may be made.
    pub fn allows(self, turns: usize) -> bool
        ensures { IsTrue result ↔ IsAtMost self.most turns }
    {
        match self.most {
            None => true,
            Some(most) => turns <= most as usize,
        }
    }
}

/// A repeat of which so many turns were made. Set number l of `ways` has the places from which l turns, each with
/// a word, lead to where the repeat may end.
#[derive(Drop)]
pub struct Turns {
    pub repeat: Repeat,
    pub made: u32,
    pub ways: Items<Places>,
}

/// The places from which so many turns with a word lead to one of these, for each number of turns until there are none.
pub fn ways(
    alloc: Global,
    chart: &Chart,
    inner: NodeIx,
    ends: Places,
) -> Result<Items<Places>, Memory>
    requires { AreInLine chart.now }
    ensures { IfOk result (AreWays chart.now inner ends) }
{
    let mut ways = Items::new(alloc);
    let mut set = ends;
    for _ in 0..PLACES {
        ways.push(set)?;
        set = before(chart, inner, set, true);
        if set.is_empty() {
            return Ok(ways);
        }
    }
    Ok(ways)
}

impl Turns {
    /// Where the repeat may end.
    pub fn ends(&self) -> Places
        ensures { result ≡ ends_of self.now.ways }
    {
        match self.ways.get(0) {
            None => Places::none(),
            Some(ends) => *ends,
        }
    }

    /// Whether both another turn and no more turn are within the counts.
    pub fn is_open(&self) -> bool
        ensures { result ≡ is_open self.now.repeat.least self.now.repeat.most self.now.made }
    {
        self.repeat.least <= self.made && self.repeat.allows(self.made as usize + 1)
    }

    /// Whether turns behind so many can be enough and not too many, if so many of them have a word;
    /// where a turn can be empty, empty ones fill up to the least.
    fn suffices(&self, made: usize, words: usize, empty: bool) -> bool
        requires made { made < 2 ^ 33 }
        requires words { words < 2 ^ 33 }
        ensures { IsTrue result ↔ Suffices self.now.repeat made words empty }
    {
        let least = self.repeat.least as usize;
        (empty || least <= made + words) && self.repeat.allows((made + words).max(least))
    }

    /// The places from which the repeat can be completed after so many turns.
    fn completed(&self, made: usize, empty: bool) -> Places
        requires made { made < 2 ^ 33 }
        requires few { length self.now.ways ≤ 65 }
        ensures { Holds result (IsCompleted self.now made empty) }
    {
        let mut all = Places::none();
        for (words, set) in self.ways.as_slice().iter().enumerate() {
            if self.suffices(made, words, empty) {
                all = all.with(*set);
            }
        }
        all
    }

    /// Where the next turn may end, if it begins at a place.
    pub fn onward(&self, chart: &Chart, place: u32) -> Places
        requires line { AreInLine chart.now }
        requires place { place < 65 }
        requires few { length self.now.ways ≤ 65 }
        ensures { AreOnward chart.now self.now place result }
    {
        let inner = self.repeat.inner;
        let empty = chart.derives(inner, place, place);
        let made = self.made as usize + 1;
        if !self.repeat.allows(made) {
            return Places::none();
        }
        let full = self.repeat.least <= self.made;
        spans(chart, inner, place, full).shared(self.completed(made, empty))
    }

    /// Whether another turn is made, up to some place. Only past the least and below the most this is a choice.
    pub fn another(
        &self,
        trail: &mut Trail,
        guide: &[u32],
        place: u32,
        possible: bool,
    ) -> Result<bool, Memory>
        requires { place < 65 }
        ensures { IfOk result (IsDecided self.now place possible (record { guide = guide.now; old = trail.old; now = trail.new })) }
    {
        if !self.is_open() {
            return Ok(self.made < self.repeat.least);
        }
        let stops = self.ends().has(place);
        let taken = trail.either(guide, possible, stops)?;
        Ok(taken)
    }

    /// One turn more, as long as turns can be counted.
    pub fn next(self) -> Result<Turns, Memory>
        ensures { IfOk result (λ next. next ≡ next_of self) }
    {
        let Turns { repeat, made, ways } = self;
        match made.checked_add(1) {
            None => Err(Memory),
            Some(made) => Ok(Turns { repeat, made, ways }),
        }
    }
}
