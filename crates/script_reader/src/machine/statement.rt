//! Reading statements: what one more lexeme does.
ghost use Rattle.std.specs.Prelude.{◌≡◌, Some, IfOk};
ghost use Rattle.script_reader.specs.code.Statements as spec;

pub(crate) mod ends;
pub(crate) mod settling;
pub(crate) mod starts;
pub(crate) mod values;

use crate::lexing::lexeme::Lexeme;
use crate::machine::expression::operand_end::ended;
use crate::machine::stack::{Outer, Phase, Stack, State};
use crate::machine::statement::ends::next;
use crate::machine::statement::starts::{on_done, on_if, on_start, on_var, on_var_name};
use crate::machine::statement::values::{on_value, statement_of};
use std::alloc::Global;
use vg_base::{Items, Memory, Script, Stmt};

/// One more lexeme: what was read then, or `None` where it fits no script.
#[tactic(auto, unfolding(crate::specs::code::Statements::step))]
pub(crate) fn step(alloc: Global, state: State, lexeme: Lexeme) -> Result<Option<State>, Memory>
    ensures { IfOk result (λ o. o ≡ spec.step state lexeme) }
{
    let State {
        body,
        outer,
        room,
        phase,
    } = state;
    match phase {
        Phase::Start => on_start(alloc, body, outer, room, lexeme),
        Phase::Done(statement) => on_done(alloc, body, outer, room, statement, lexeme),
        Phase::Var => Ok(on_var(body, outer, room, lexeme)),
        Phase::VarName(name) => on_var_name(alloc, body, outer, room, name, lexeme),
        Phase::If { inside } => Ok(on_if(alloc, body, outer, room, inside, lexeme)),
        Phase::Value { purpose, inside } => {
            on_value(alloc, body, outer, room, purpose, inside, lexeme)
        }
    }
}

fn script_of(body: Items<Stmt>, mut outer: Stack<Outer>) -> Option<Script>
    ensures { result ≡ spec.script_of body outer }
{
    match outer.pop() {
        None => Some(Script { body }),
        Some(_) => None,
    }
}

/// The script that ends with this statement.
fn script_with(
    alloc: Global,
    body: Items<Stmt>,
    outer: Stack<Outer>,
    room: u32,
    statement: Stmt,
) -> Result<Option<Script>, Memory>
    ensures { IfOk result (λ o. o ≡ spec.script_with body outer room (Some statement)) }
{
    let State { body, outer, .. } = next(alloc, body, outer, room, statement)?;
    Ok(script_of(body, outer))
}

/// The statement that ends here, where one does.
fn last_of(alloc: Global, phase: Phase) -> Result<Option<Stmt>, Memory>
    ensures { IfOk result (λ o. o ≡ spec.last_of phase) }
{
    match phase {
        Phase::Done(statement) => Ok(Some(statement)),
        Phase::VarName(name) => Ok(Some(Stmt::Var { name, value: None })),
        Phase::Value { purpose, inside } => match ended(alloc, inside)? {
            Some(value) => Ok(statement_of(purpose, value)),
            None => Ok(None),
        },
        _ => Ok(None),
    }
}

/// The script that ends here, or `None` where it goes on.
#[tactic(auto, unfolding(crate::specs::code::Statements::result_of))]
pub(crate) fn result_of(alloc: Global, state: State) -> Result<Option<Script>, Memory>
    ensures { IfOk result (λ o. o ≡ spec.result_of state) }
{
    let State {
        body,
        outer,
        room,
        phase,
    } = state;
    if let Phase::Start = phase {
        return Ok(script_of(body, outer));
    }
    match last_of(alloc, phase)? {
        Some(statement) => script_with(alloc, body, outer, room, statement),
        None => Ok(None),
    }
}
