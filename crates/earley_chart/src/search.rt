//! The run: what is to be looked at is looked at, until nothing is left.

ghost use Rattle.std.specs.Prelude.{◌≡◌, ℕ, ◌≤◌, ◌<◌, IfOk, OnOk, Some, length};
ghost use Rattle.earley_chart.specs.Places.{Has};
ghost use Rattle.earley_chart.specs.code.Boards.{IsSpot, IsDue, EndsAt};
ghost use Rattle.earley_chart.specs.code.Sound.{Begun, IsGood, Visited, Ran, rules_of, words_of};

use crate::board::{Board, Spot};
use crate::predictor::follow;
use crate::reading::Task;
use std::alloc::Global;
use vg_base::Memory;

/// All spots that the task reaches, and where each ends. Spot 0 is the rule's body at place 0.
pub fn search(task: &Task<'_>, alloc: Global) -> Result<Board, Memory>
    requires rule { task.now.rule.0 < length (rules_of task.now).rules }
    requires few { length (words_of task.now) ≤ 64 }
    ensures { IfOk result (Ran task.now) }
{
    let mut board = begin(task, alloc)?;
    while let Some(at) = board.next() {
        visit(task, alloc, &mut board, at)?;
    }
    Ok(board)
}

/// A board that has the rule's body alone.
fn begin(task: &Task<'_>, alloc: Global) -> Result<Board, Memory>
    requires rule { task.now.rule.0 < length (rules_of task.now).rules }
    requires few { length (words_of task.now) ≤ 64 }
    ensures { IfOk result (Begun task.now) }
{
    let _linked = task.linked.rule_count();
    let mut board = Board::new(alloc);
    let body = Spot {
        node: task.linked.rule(task.rule).body.0,
        step: 0,
        start: 0,
    };
    board.meet(alloc, body)?;
    Ok(board)
}

/// Looks at a spot: what it asks is asked, and it ends where that ends.
fn visit(task: &Task<'_>, alloc: Global, board: &mut Board, at: usize) -> Result<(), Memory>
    requires good { IsGood task.now board.old }
    requires within { at < length board.old.spots.keys }
    ensures { OnOk result (Visited task.now board.old board.new at) }
{
    let spot = board.spots.as_slice()[at];
    let ends = follow(task, alloc, board, at, spot)?;
    board.end(at, ends)?;
    Ok(())
}
