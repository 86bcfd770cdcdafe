//! What a spot asks of other spots, and where it ends by that: the predictor, and the scanner at
//! tokens and `$GARBAGE`.

ghost use Rattle.std.specs.Prelude.{◌≡◌, ℕ, ◌+◌, ◌≤◌, ◌<◌, ◌^◌, ◌↔◌, length};
ghost use Rattle.std.specs.Prelude.{IfOk, OnOk, IsTrue, Some};
ghost use Rattle.grammar_tree.specs.Derives.{IsAtMost};
ghost use Rattle.earley_chart.specs.code.Steps.{next_level};
ghost use Rattle.grammar_tree.specs.Links.{node_at};
ghost use Rattle.grammar_tree.specs.declared.linked.Node.TheVariants as Node;
ghost use Rattle.earley_chart.specs.Places.{Has, Holds};
ghost use Rattle.earley_chart.specs.code.Boards.{IsSpot, Shows, Sees, moved, node_of};
ghost use Rattle.earley_chart.specs.code.Sound.{IsGood, RightSpot, RightEnd, Went, IsOf, Answer};
ghost use Rattle.earley_chart.specs.code.Sound.{SeesEach, EndsOfSome, rules_of, is_repeat};

use crate::board::{Board, Spot};
use crate::places::Places;
use crate::reading::Task;
use grammar_tree::Node;
use std::alloc::Global;
use vg_base::{Memory, NodeIx, RuleIx};

/// So many places has the longest line, with the one past its end.
const PLACES: u32 = 66;

/// Looks at a spot.
fn look(
    task: &Task<'_>,
    alloc: Global,
    board: &mut Board,
    above: usize,
    spot: Spot,
) -> Result<Places, Memory>
    requires good { IsGood task.now board.old }
    requires above { above < length board.old.spots.keys }
    requires right { RightSpot task.now spot }
    ensures went { OnOk result (Went task.now board.old board.new) }
    ensures sees { IfOk result (λ ends. Sees board.new above spot (Has ends)) }
    ensures right { IfOk result (λ ends. (j : ℕ) → Has ends j → RightEnd task.now spot j) }
{
    let ends = board.look(alloc, above, spot)?;
    Ok(ends)
}

/// Looks at the spot moved to each of these places, from its own place on.
fn onward(
    task: &Task<'_>,
    alloc: Global,
    board: &mut Board,
    above: usize,
    next: Spot,
    places: Places,
) -> Result<Places, Memory>
    requires good { IsGood task.now board.old }
    requires above { above < length board.old.spots.keys }
    requires right { (j : ℕ) → next.start ≤ j → Has places j → RightSpot task.now (moved next j) }
    ensures went { OnOk result (Went task.now board.old board.new) }
    ensures sees { IfOk result (SeesEach board.new above next places) }
    ensures right { IfOk result (EndsOfSome task.now next places) }
{
    let mut ends = Places::none();
    for place in next.start..PLACES {
        if places.has(place) {
            let spot = Spot {
                node: next.node,
                step: next.step,
                start: place,
            };
            ends = ends.with(look(task, alloc, board, above, spot)?);
        }
    }
    Ok(ends)
}

/// A sequence asks its next part; what stands behind that part goes on where it ends.
fn part(
    task: &Task<'_>,
    alloc: Global,
    board: &mut Board,
    at: usize,
    spot: Spot,
    parts: &[NodeIx],
) -> Result<Places, Memory>
    requires of { IsOf task.now board.old at spot }
    requires kind { node_at (rules_of task.now) (node_of spot) ≡ Some (Node.Seq parts.now) }
    ensures went { OnOk result (Went task.now board.old board.new) }
    ensures answer { IfOk result (Answer task.now board.new at spot) }
{
    let start = spot.start;
    if spot.step >= parts.len() {
        return Ok(Places::one(start));
    }
    let first = Spot {
        node: parts[spot.step].0,
        step: 0,
        start,
    };
    let ends = look(task, alloc, board, at, first)?;
    if spot.step + 1 == parts.len() {
        return Ok(ends);
    }
    let next = Spot {
        node: spot.node,
        step: spot.step + 1,
        start,
    };
    let later = onward(task, alloc, board, at, next, ends)?;
    Ok(later)
}

/// Alternatives ask the next one, and those behind it.
fn alternative(
    task: &Task<'_>,
    alloc: Global,
    board: &mut Board,
    at: usize,
    spot: Spot,
    parts: &[NodeIx],
) -> Result<Places, Memory>
    requires of { IsOf task.now board.old at spot }
    requires kind { node_at (rules_of task.now) (node_of spot) ≡ Some (Node.Alt parts.now) }
    ensures went { OnOk result (Went task.now board.old board.new) }
    ensures answer { IfOk result (Answer task.now board.new at spot) }
{
    let start = spot.start;
    if spot.step >= parts.len() {
        return Ok(Places::none());
    }
    let first = Spot {
        node: parts[spot.step].0,
        step: 0,
        start,
    };
    let ends = look(task, alloc, board, at, first)?;
    let next = Spot {
        node: spot.node,
        step: spot.step + 1,
        start,
    };
    let others = look(task, alloc, board, at, next)?;
    Ok(ends.with(others))
}

/// The counts of a repeat, and the node of its turns.
#[derive(Clone, Copy)]
pub struct Repeat {
    pub least: u32,
    pub most: Option<u32>,
    pub inner: NodeIx,
}

impl Repeat {
    /// Whether so many turns may be made.
    fn allows(self, turns: usize) -> bool
        ensures { IsTrue result ↔ IsAtMost self.most turns }
    {
        match self.most {
            None => true,
            Some(most) => turns <= most as usize,
        }
    }

    /// The step of one turn more: turns are counted to the least where there is no most.
    fn next_step(self, turns: usize) -> usize
        requires allowed { IsAtMost self.most (turns + 1) }
        requires few { turns + 1 < 2 ^ 64 }
        ensures { result ≡ next_level self.least self.most turns + 1 }
    {
        match self.most {
            None if turns < self.least as usize => turns + 2,
            None => turns + 1,
            Some(_) => turns + 2,
        }
    }

    /// A repeat ends where its turns are enough.
    fn enough(self, turns: usize, start: u32) -> Places
        requires { start < 128 }
        ensures { Holds result (λ j. (j ≡ start) × (self.least ≤ turns)) }
    {
        if self.least as usize <= turns {
            Places::one(start)
        } else {
            Places::none()
        }
    }

    /// Where a turn may have no word, such turns fill up to the least.
    fn filled(self, start: u32, ends: Places) -> Places
        requires { start < 128 }
        ensures { Holds result (λ j. (j ≡ start) × Has ends start × IsAtMost self.most self.least) }
    {
        if ends.has(start) && self.allows(self.least as usize) {
            Places::one(start)
        } else {
            Places::none()
        }
    }
}

/// A repeat ends where its turns are enough, or where turns without a word fill up to the least;
/// and it asks one more turn where that is allowed. Turns with a word are counted.
fn turn(
    task: &Task<'_>,
    alloc: Global,
    board: &mut Board,
    at: usize,
    spot: Spot,
    repeat: Repeat,
) -> Result<Places, Memory>
    requires of { IsOf task.now board.old at spot }
    requires kind { node_at (rules_of task.now) (node_of spot) ≡ Some (is_repeat repeat) }
    ensures went { OnOk result (Went task.now board.old board.new) }
    ensures answer { IfOk result (Answer task.now board.new at spot) }
{
    let start = spot.start;
    let turns = spot.step.saturating_sub(1);
    let enough = repeat.enough(turns, start);
    if !repeat.allows(turns + 1) {
        return Ok(enough);
    }
    let first = Spot {
        node: repeat.inner.0,
        step: 0,
        start,
    };
    let ends = look(task, alloc, board, at, first)?;
    let here = enough.with(repeat.filled(start, ends));
    let next = Spot {
        node: spot.node,
        step: repeat.next_step(turns),
        start: start + 1,
    };
    let later = onward(task, alloc, board, at, next, ends)?;
    Ok(here.with(later))
}

/// A reference asks the body of its rule.
fn reference(
    task: &Task<'_>,
    alloc: Global,
    board: &mut Board,
    at: usize,
    spot: Spot,
    rule: RuleIx,
) -> Result<Places, Memory>
    requires of { IsOf task.now board.old at spot }
    requires kind { node_at (rules_of task.now) (node_of spot) ≡ Some (Node.Ref rule) }
    requires rule { rule.0 < length task.now.linked.now.rules }
    ensures went { OnOk result (Went task.now board.old board.new) }
    ensures answer { IfOk result (Answer task.now board.new at spot) }
{
    let body = Spot {
        node: task.linked.rule(rule).body.0,
        step: 0,
        start: spot.start,
    };
    let ends = look(task, alloc, board, at, body)?;
    Ok(ends)
}

/// Where a spot ends, by what it asks.
pub fn follow(
    task: &Task<'_>,
    alloc: Global,
    board: &mut Board,
    at: usize,
    spot: Spot,
) -> Result<Places, Memory>
    requires of { IsOf task.now board.old at spot }
    ensures went { OnOk result (Went task.now board.old board.new) }
    ensures answer { IfOk result (Answer task.now board.new at spot) }
{
    match task.linked.node(NodeIx(spot.node)) {
        Node::Token(own) => Ok(task.reading.token(own.as_slice(), spot.start)),
        Node::Seq(parts) => part(task, alloc, board, at, spot, parts.as_slice()),
        Node::Alt(parts) => alternative(task, alloc, board, at, spot, parts.as_slice()),
        Node::Rep { least, most, inner } => {
            let repeat = Repeat {
                least: *least,
                most: *most,
                inner: *inner,
            };
            turn(task, alloc, board, at, spot, repeat)
        }
        Node::Ref(rule) => reference(task, alloc, board, at, spot, *rule),
        Node::Tag(_) | Node::Null => Ok(Places::one(spot.start)),
        Node::Void => Ok(Places::none()),
        Node::Garbage => Ok(task.reading.garbage(spot.start)),
    }
}
