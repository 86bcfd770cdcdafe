//! The chart of a rule over a line of words.

ghost use Rattle.std.specs.Prelude.{◌≡◌, ◌<◌, ◌≤◌, ◌↔◌, IsTrue, IfOk, MatchOption, length};
ghost use Rattle.earley_chart.specs.Chart.{EndsAt, IsRow, IsTable, Predicts, RanOn, Spans};
ghost use Rattle.earley_chart.specs.Chart.{Lacks, AtRow};
ghost use Rattle.earley_chart.specs.Places.{Holds};
ghost use Rattle.earley_chart.specs.Chart.{TellsMatch, TellsReached, TellsSpan, TellsLonger};

use crate::board::{Board, Spot};
use crate::places::Places;
use crate::reading::{Reading, Task};
use crate::search::search;
use grammar_tree::{Linked, copy_words};
use indexmap::IndexSet;
use sqlite_items::Items;
use std::alloc::Global;
use std::marker::Model;
use vg_base::{Memory, NodeIx, RuleIx, Word};

/// What a rule reaches over a line of words, and where each node that is reached ends. Contracts see
/// the rule, the words and these rows; `RanOn` says that they are those of linked rules.
#[derive(Drop)]
pub struct Chart {
    rule: RuleIx,
    words: Items<Word>,
    spots: IndexSet<Spot>,
    ends: Vec<Places>,
}

impl Model for Chart {
    ghost use Rattle.earley_chart.specs.Chart.{Table, IsTable};

    ghost Value = { Table };

    ghost view = { λ c. record { rule = c.rule; words = c.words; spots = c.spots.keys; ends = c.ends.items } };

    ghost invariant = { λ c. IsTable (
        record { rule = c.rule; words = c.words; spots = c.spots.keys; ends = c.ends.items }
        ) };
}

impl Chart {
    /// Runs the rule over the words.
    pub fn run(
        alloc: Global,
        linked: &Linked,
        rule: RuleIx,
        words: &[Word],
    ) -> Result<Chart, Memory>
        requires rule { rule.0 < length linked.now.rules }
        requires few { length words.now ≤ 64 }
        ensures ran { IfOk result (λ chart. RanOn linked.now chart) }
        ensures rule { IfOk result (λ chart. chart.rule ≡ rule) }
        ensures words { IfOk result (λ chart. chart.words ≡ words.now) }
    {
        let reading = Reading {
            words,
            goes_on: false,
        };
        let task = Task {
            linked,
            rule,
            reading,
        };
        let Board {
            spots,
            ends,
            waiting: _,
            seen: _,
            again: _,
        } = search(&task, alloc)?;
        let words = copy_words(alloc, words)?;
        Ok(Chart {
            rule,
            words,
            spots,
            ends,
        })
    }

    /// The rule on which the chart was run.
    pub fn rule(&self) -> RuleIx
        ensures { result ≡ self.now.rule }
    {
        self.rule
    }

    /// Whether the rule derives the words.
    pub fn matched(&self) -> bool
        ensures { TellsMatch self.now result }
    {
        self.ends_at(0, self.words.len() as u32)
    }

    /// Whether a derivation of the first `i` words reaches the node.
    pub fn predicted(&self, node: NodeIx, i: u32) -> bool
        ensures row { IsTrue result ↔ Predicts self.now node i }
        ensures reached { TellsReached self.now node i result }
    {
        self.row(node, i).is_some()
    }

    /// Whether the node, where it is reached after the first `i` words, derives the words from there
    /// to place `j`.
    pub fn derives(&self, node: NodeIx, i: u32, j: u32) -> bool
        ensures row { IsTrue result ↔ Spans self.now node i j }
        ensures derives { Predicts self.now node i → TellsSpan self.now node i j result }
    {
        match self.row(node, i) {
            None => false,
            Some(row) => self.ends_at(row, j),
        }
    }

    /// All places where the node ends from place `i`; none where it isn't reached there.
    pub fn ends(&self, node: NodeIx, i: u32) -> Places
        ensures { Holds result (λ j. Spans self.now node i j) }
    {
        match self.row(node, i) {
            None => Places::none(),
            Some(row) => self.ends[row],
        }
    }

    /// Whether the rule derives some list of words of which the chart's words are a proper prefix.
    /// `linked` is what the chart was run on.
    pub fn extends(&self, alloc: Global, linked: &Linked) -> Result<bool, Memory>
        requires { RanOn linked.now self.now }
        ensures { IfOk result (TellsLonger linked.now self.now) }
    {
        let reading = Reading {
            words: self.words.as_slice(),
            goes_on: true,
        };
        let task = Task {
            linked,
            rule: self.rule,
            reading,
        };
        let board = search(&task, alloc)?;
        Ok(board.ends[0].has(reading.last()))
    }

    /// The row of a node at a place.
    fn row(&self, node: NodeIx, start: u32) -> Option<usize>
        ensures row { MatchOption result (Lacks self.now node start) (AtRow self.now node start) }
        ensures table { IsTable self.now }
    {
        self.spots.get_index_of(&Spot {
            node: node.0,
            step: 0,
            start,
        })
    }

    /// Whether a row ends at a place.
    fn ends_at(&self, row: usize, place: u32) -> bool
        requires { row < length self.now.spots }
        ensures { IsTrue result ↔ EndsAt self.now row place }
    {
        place < 128 && self.ends[row].has(place)
    }
}
