//! Statements that are whole, put into what waits for them.
ghost use Rattle.std.specs.Prelude.{◌≡◌, ◌∷◌, true, false, IfOk, MatchOption};
ghost use Rattle.script_reader.specs.code.Statements as spec;

use crate::machine::stack::{Closing, Outer, Part, Phase, Stack, State};
use std::alloc::Global;
use vg_base::{Boxed, Items, Memory, Stmt, limits};

/// Where a script begins: 64 levels of nesting are left.
pub(crate) fn start(alloc: Global) -> State
    ensures { result ≡ spec.start }
{
    State {
        body: Items::new(alloc),
        outer: Stack::new(alloc),
        room: limits::NESTING as u32,
        phase: Phase::Start,
    }
}

pub(crate) fn at(body: Items<Stmt>, outer: Stack<Outer>, room: u32, phase: Phase) -> State
    ensures { result ≡ spec.at body outer room phase }
{
    State {
        body,
        outer,
        room,
        phase,
    }
}

fn closes(all: bool, part: &Part) -> bool
    ensures { result ≡ spec.closes all part.now }
{
    match part {
        Part::Block(_) => false,
        Part::IfYes(_) => all,
        Part::IfElse { .. } => true,
    }
}

fn made(alloc: Global, part: Part, statement: Stmt) -> Result<Stmt, Memory>
    ensures { IfOk result (λ s. s ≡ spec.made part statement) }
{
    match part {
        Part::Block(_) => Ok(statement),
        Part::IfYes(test) => Ok(Stmt::If {
            test,
            yes: Boxed::new(alloc, statement)?,
            other: None,
        }),
        Part::IfElse { test, yes } => Ok(Stmt::If {
            test,
            yes: Boxed::new(alloc, yes)?,
            other: Some(Boxed::new(alloc, statement)?),
        }),
    }
}

/// Takes off the innermost part where it is an `if` that ends with its statement.
fn pop_closing(outer: &mut Stack<Outer>, all: bool) -> Result<Option<Outer>, Memory>
    ensures { IfOk result (λ o. MatchOption o ((outer.new ≡ outer.old) × (spec.top_closes all outer.old ≡ false))
        (λ top. (outer.old ≡ top ∷ outer.new) × (spec.closes all top.part ≡ true))) }
{
    let Some(top) = outer.pop() else {
        return Ok(None);
    };
    if closes(all, &top.part) {
        return Ok(Some(top));
    }
    outer.push(top)?;
    Ok(None)
}

/// Ends each `if` that ends with this statement: those with an `else`, or all.
#[tactic(auto, unfolding(crate::specs::code::Statements::settled))]
pub(crate) fn settled(
    alloc: Global,
    all: bool,
    mut outer: Stack<Outer>,
    mut room: u32,
    mut statement: Stmt,
) -> Result<Closing, Memory>
    ensures { IfOk result (λ c. c ≡ spec.settled all outer room statement) }
{
    while let Some(top) = pop_closing(&mut outer, all)? {
        statement = made(alloc, top.part, statement)?;
        room = top.room;
    }
    Ok(Closing {
        outer,
        room,
        statement,
    })
}
