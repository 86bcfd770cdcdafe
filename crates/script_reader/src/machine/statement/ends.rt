//! What ends a statement.
ghost use Rattle.std.specs.Prelude.{◌≡◌, IfOk};
ghost use Rattle.script_reader.specs.code.Statements as spec;

use crate::lexing::lexeme::{Lexeme, Sign};
use crate::lexing::roles::{Role, role_of};
use crate::machine::stack::{Closing, Outer, Part, Phase, Stack, State};
use crate::machine::statement::settling::{at, settled};
use std::alloc::Global;
use vg_base::{Items, Memory, Stmt};

fn listed_in(
    body: Items<Stmt>,
    mut outer: Stack<Outer>,
    top: Outer,
    room: u32,
    statement: Stmt,
) -> Result<State, Memory>
    ensures { IfOk result (λ s. s ≡ spec.listed_at body top.part top.room outer room statement) }
{
    let Outer {
        part,
        room: outside,
    } = top;
    match part {
        Part::Block(mut done) => {
            done.push(statement)?;
            outer.push(Outer {
                part: Part::Block(done),
                room: outside,
            })?;
            Ok(at(body, outer, room, Phase::Start))
        }
        part => {
            outer.push(Outer {
                part,
                room: outside,
            })?;
            Ok(at(body, outer, room, Phase::Done(statement)))
        }
    }
}

/// Puts a whole statement to the list that it belongs to.
fn listed(mut body: Items<Stmt>, closing: Closing) -> Result<State, Memory>
    ensures { IfOk result (λ s. s ≡ spec.listed body closing.outer closing.room closing.statement) }
{
    let Closing {
        mut outer,
        room,
        statement,
    } = closing;
    match outer.pop() {
        None => {
            body.push(statement)?;
            Ok(at(body, outer, room, Phase::Start))
        }
        Some(top) => listed_in(body, outer, top, room, statement),
    }
}

/// The state behind a whole statement that no `else` follows.
#[tactic(auto, unfolding(crate::specs::code::Statements::next))]
pub(crate) fn next(
    alloc: Global,
    body: Items<Stmt>,
    outer: Stack<Outer>,
    room: u32,
    statement: Stmt,
) -> Result<State, Memory>
    ensures { IfOk result (λ s. s ≡ spec.next body outer room statement) }
{
    let closing = settled(alloc, true, outer, room, statement)?;
    listed(body, closing)
}

fn branch_of(
    body: Items<Stmt>,
    mut outer: Stack<Outer>,
    top: Outer,
    room: u32,
    statement: Stmt,
) -> Result<Option<State>, Memory>
    ensures { IfOk result (λ o. o ≡ spec.branch_at body top.part top.room outer room statement) }
{
    let Outer {
        part,
        room: outside,
    } = top;
    match part {
        Part::IfYes(test) => {
            outer.push(Outer {
                part: Part::IfElse {
                    test,
                    yes: statement,
                },
                room: outside,
            })?;
            Ok(Some(at(body, outer, room, Phase::Start)))
        }
        _ => Ok(None),
    }
}

fn other_branch(body: Items<Stmt>, closing: Closing) -> Result<Option<State>, Memory>
    ensures { IfOk result (λ o. o ≡ spec.other_branch body closing.outer closing.room closing.statement) }
{
    let Closing {
        mut outer,
        room,
        statement,
    } = closing;
    match outer.pop() {
        Some(top) => branch_of(body, outer, top, room, statement),
        None => Ok(None),
    }
}

/// The state behind a statement and `else`.
#[tactic(auto, unfolding(crate::specs::code::Statements::on_else))]
pub(crate) fn on_else(
    alloc: Global,
    body: Items<Stmt>,
    outer: Stack<Outer>,
    room: u32,
    statement: Stmt,
) -> Result<Option<State>, Memory>
    ensures { IfOk result (λ o. o ≡ spec.on_else body outer room statement) }
{
    let closing = settled(alloc, false, outer, room, statement)?;
    other_branch(body, closing)
}

pub(crate) fn block_closed(body: Items<Stmt>, mut outer: Stack<Outer>) -> Option<State>
    ensures { result ≡ spec.block_closed body outer }
{
    let Some(Outer { part, room }) = outer.pop() else {
        return None;
    };
    match part {
        Part::Block(done) => Some(at(body, outer, room, Phase::Done(Stmt::Block(done)))),
        _ => None,
    }
}

/// The state behind a statement and the `}` of its block.
fn on_curly(
    alloc: Global,
    body: Items<Stmt>,
    outer: Stack<Outer>,
    room: u32,
    statement: Stmt,
) -> Result<Option<State>, Memory>
    ensures { IfOk result (λ o. o ≡ spec.on_curly body outer room statement) }
{
    let State { body, outer, .. } = next(alloc, body, outer, room, statement)?;
    Ok(block_closed(body, outer))
}

/// Whether the lexeme that ends an expression or a statement is one of these.
#[derive(Clone, Copy, PartialEq, Eq)]
pub(crate) enum Closer {
    Semicolon,
    RoundClose,
    CurlyClose,
    Else,
    Other,
}

pub(crate) fn closer_of(lexeme: &Lexeme) -> Closer
    ensures { result ≡ spec.closer_of lexeme.now }
{
    match lexeme {
        Lexeme::Sign(Sign::Semicolon) => Closer::Semicolon,
        Lexeme::Sign(Sign::RoundClose) => Closer::RoundClose,
        Lexeme::Sign(Sign::CurlyClose) => Closer::CurlyClose,
        Lexeme::Word(word) => match role_of(word) {
            Role::Else => Closer::Else,
            _ => Closer::Other,
        },
        _ => Closer::Other,
    }
}

/// A statement that wants its end, and a lexeme.
#[tactic(auto, unfolding(crate::specs::code::Statements::on_end))]
pub(crate) fn on_end(
    alloc: Global,
    body: Items<Stmt>,
    outer: Stack<Outer>,
    room: u32,
    statement: Stmt,
    closer: Closer,
) -> Result<Option<State>, Memory>
    ensures { IfOk result (λ o. o ≡ spec.on_end body outer room statement closer) }
{
    match closer {
        Closer::Semicolon => Ok(Some(at(body, outer, room, Phase::Done(statement)))),
        Closer::CurlyClose => on_curly(alloc, body, outer, room, statement),
        Closer::Else => on_else(alloc, body, outer, room, statement),
        _ => Ok(None),
    }
}
