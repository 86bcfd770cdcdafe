//! The value that a statement reads.
ghost use Rattle.std.specs.Prelude.{◌≡◌, IfOk};
ghost use Rattle.script_reader.specs.code.Statements as spec;

use crate::lexing::lexeme::{Lexeme, assignment_of};
use crate::machine::expression::frames::begun;
use crate::machine::expression::turn;
use crate::machine::stack::{Inside, Now, Outer, Part, Phase, Purpose, Stack, State, Turn, View};
use crate::machine::statement::ends::{Closer, closer_of, on_end};
use crate::machine::statement::settling::at;
use std::alloc::Global;
use vg_base::{AssignOp, Expr, Items, Key, Memory, Root, Stmt};

pub(crate) fn statement_of(purpose: Purpose, value: Expr) -> Option<Stmt>
    ensures { result ≡ spec.statement_of purpose value }
{
    match purpose {
        Purpose::Plain => Some(Stmt::Plain(value)),
        Purpose::Var(name) => Some(Stmt::Var {
            name,
            value: Some(value),
        }),
        Purpose::Assign { root, path, op } => Some(Stmt::Assign {
            root,
            path,
            op,
            value,
        }),
        Purpose::Test { .. } => None,
    }
}

#[tactic(auto, unfolding(crate::specs::code::Statements::on_test))]
fn on_test(
    body: Items<Stmt>,
    mut outer: Stack<Outer>,
    room: u32,
    inside: u32,
    test: Expr,
    closer: Closer,
) -> Result<Option<State>, Memory>
    ensures { IfOk result (λ o. o ≡ spec.on_test body outer room inside test closer) }
{
    match closer {
        Closer::RoundClose => {
            outer.push(Outer {
                part: Part::IfYes(test),
                room,
            })?;
            Ok(Some(at(body, outer, inside, Phase::Start)))
        }
        _ => Ok(None),
    }
}

/// The expression of a statement ended before this lexeme.
#[tactic(auto, unfolding(crate::specs::code::Statements::on_ended))]
fn on_ended(
    alloc: Global,
    body: Items<Stmt>,
    outer: Stack<Outer>,
    room: u32,
    purpose: Purpose,
    value: Expr,
    closer: Closer,
) -> Result<Option<State>, Memory>
    ensures { IfOk result (λ o. o ≡ spec.on_ended body outer room purpose value closer) }
{
    if let Purpose::Test { inside } = purpose {
        return on_test(body, outer, room, inside, value, closer);
    }
    match statement_of(purpose, value) {
        Some(statement) => on_end(alloc, body, outer, room, statement, closer),
        None => Ok(None),
    }
}

pub(crate) fn with_value(
    body: Items<Stmt>,
    outer: Stack<Outer>,
    room: u32,
    purpose: Purpose,
    inside: Inside,
) -> State
    ensures { result ≡ spec.with_value body outer room purpose inside }
{
    at(body, outer, room, Phase::Value { purpose, inside })
}

/// What is assigned to, where an assignment may begin here.
fn target_of(purpose: &Purpose, inside: Inside) -> Option<(Root, Items<Key>)>
    ensures { result ≡ spec.target_of purpose.now inside.frames inside.now }
{
    let Inside { frames, now, .. } = inside;
    if is_plain(purpose) && frames.len() == 0 {
        target_in(now)
    } else {
        None
    }
}

fn is_plain(purpose: &Purpose) -> bool
    ensures { result ≡ spec.is_plain purpose.now }
{
    matches!(purpose, Purpose::Plain)
}

/// The target that stands in view.
fn target_in(now: Now) -> Option<(Root, Items<Key>)>
    ensures { result ≡ spec.target_in now }
{
    let Now::View(view) = now else {
        return None;
    };
    match view {
        View::Target { root, path } => Some((root, path)),
        _ => None,
    }
}

fn assigned(
    alloc: Global,
    body: Items<Stmt>,
    outer: Stack<Outer>,
    room: u32,
    purpose: Purpose,
    inside: Inside,
    op: AssignOp,
) -> Option<State>
    ensures { result ≡ spec.assigned body outer room purpose inside op }
{
    match target_of(&purpose, inside) {
        Some((root, path)) => Some(with_value(
            body,
            outer,
            room,
            Purpose::Assign { root, path, op },
            begun(alloc, room, false),
        )),
        None => None,
    }
}

fn assignment(lexeme: &Lexeme) -> Option<AssignOp>
    ensures { result ≡ spec.assignment lexeme.now }
{
    match lexeme {
        Lexeme::Sign(sign) => assignment_of(*sign),
        _ => None,
    }
}

fn on_turn(
    alloc: Global,
    body: Items<Stmt>,
    outer: Stack<Outer>,
    room: u32,
    purpose: Purpose,
    turn: Turn,
    closer: Closer,
) -> Result<Option<State>, Memory>
    ensures { IfOk result (λ o. o ≡ spec.on_turn body outer room purpose turn closer) }
{
    match turn {
        Turn::On(inside) => Ok(Some(with_value(body, outer, room, purpose, inside))),
        Turn::Ended(value) => on_ended(alloc, body, outer, room, purpose, value, closer),
        Turn::Unfit => Ok(None),
    }
}

/// A lexeme within the expression of a statement.
#[tactic(auto, unfolding(crate::specs::code::Statements::on_value))]
pub(crate) fn on_value(
    alloc: Global,
    body: Items<Stmt>,
    outer: Stack<Outer>,
    room: u32,
    purpose: Purpose,
    inside: Inside,
    lexeme: Lexeme,
) -> Result<Option<State>, Memory>
    ensures { IfOk result (λ o. o ≡ spec.on_value body outer room purpose inside lexeme) }
{
    if let Some(op) = assignment(&lexeme) {
        return Ok(assigned(alloc, body, outer, room, purpose, inside, op));
    }
    let closer = closer_of(&lexeme);
    let turn = turn(alloc, inside, lexeme)?;
    on_turn(alloc, body, outer, room, purpose, turn, closer)
}
