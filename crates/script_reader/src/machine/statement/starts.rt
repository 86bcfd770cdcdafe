//! The first lexemes of a statement.
ghost use Rattle.std.specs.Prelude.{◌≡◌, IfOk};
ghost use Rattle.script_reader.specs.code.Statements as spec;

use crate::lexing::lexeme::{Lexeme, Sign};
use crate::lexing::roles::{Role, is_name, role_of};
use crate::machine::expression::frames::begun;
use crate::machine::stack::{Outer, Part, Phase, Purpose, Stack, State};
use crate::machine::statement::ends::{Closer, block_closed, closer_of, next, on_else, on_end};
use crate::machine::statement::settling::at;
use crate::machine::statement::values::{on_value, with_value};
use std::alloc::Global;
use vg_base::{Items, Memory, Stmt, Text};

fn if_begun(body: Items<Stmt>, outer: Stack<Outer>, room: u32) -> Option<State>
    ensures { result ≡ spec.if_begun body outer room }
{
    if room == 0 {
        return None;
    }
    Some(at(body, outer, room, Phase::If { inside: room - 1 }))
}

fn block_begun(
    alloc: Global,
    body: Items<Stmt>,
    mut outer: Stack<Outer>,
    room: u32,
) -> Result<Option<State>, Memory>
    ensures { IfOk result (λ o. o ≡ spec.block_begun body outer room) }
{
    if room == 0 {
        return Ok(None);
    }
    outer.push(Outer {
        part: Part::Block(Items::new(alloc)),
        room,
    })?;
    Ok(Some(at(body, outer, room - 1, Phase::Start)))
}

/// Which kind of statement a lexeme begins.
#[derive(Clone, Copy)]
enum Beginning {
    Semicolon,
    CurlyOpen,
    CurlyClose,
    Var,
    If,
    Value,
}

fn beginning_of(lexeme: &Lexeme) -> Beginning
    ensures { result ≡ spec.beginning_of lexeme.now }
{
    match lexeme {
        Lexeme::Sign(Sign::Semicolon) => Beginning::Semicolon,
        Lexeme::Sign(Sign::CurlyOpen) => Beginning::CurlyOpen,
        Lexeme::Sign(Sign::CurlyClose) => Beginning::CurlyClose,
        Lexeme::Word(word) => match role_of(word) {
            Role::Var => Beginning::Var,
            Role::If => Beginning::If,
            _ => Beginning::Value,
        },
        _ => Beginning::Value,
    }
}

/// A lexeme before a statement.
#[tactic(auto, unfolding(crate::specs::code::Statements::on_start))]
pub(crate) fn on_start(
    alloc: Global,
    body: Items<Stmt>,
    outer: Stack<Outer>,
    room: u32,
    lexeme: Lexeme,
) -> Result<Option<State>, Memory>
    ensures { IfOk result (λ o. o ≡ spec.on_start body outer room lexeme) }
{
    match beginning_of(&lexeme) {
        Beginning::Semicolon => Ok(Some(at(body, outer, room, Phase::Done(Stmt::Empty)))),
        Beginning::CurlyOpen => block_begun(alloc, body, outer, room),
        Beginning::CurlyClose => Ok(block_closed(body, outer)),
        Beginning::Var => Ok(Some(at(body, outer, room, Phase::Var))),
        Beginning::If => Ok(if_begun(body, outer, room)),
        Beginning::Value => {
            let inside = begun(alloc, room, true);
            on_value(alloc, body, outer, room, Purpose::Plain, inside, lexeme)
        }
    }
}

/// A lexeme behind a statement that needs nothing more.
#[tactic(auto, unfolding(crate::specs::code::Statements::on_done))]
pub(crate) fn on_done(
    alloc: Global,
    body: Items<Stmt>,
    outer: Stack<Outer>,
    room: u32,
    statement: Stmt,
    lexeme: Lexeme,
) -> Result<Option<State>, Memory>
    ensures { IfOk result (λ o. o ≡ spec.on_done body outer room statement lexeme) }
{
    if closer_of(&lexeme) == Closer::Else {
        return on_else(alloc, body, outer, room, statement);
    }
    let State {
        body,
        outer,
        room,
        ..
    } = next(alloc, body, outer, room, statement)?;
    on_start(alloc, body, outer, room, lexeme)
}

#[tactic(auto, unfolding(crate::specs::code::Statements::on_var))]
pub(crate) fn on_var(
    body: Items<Stmt>,
    outer: Stack<Outer>,
    room: u32,
    lexeme: Lexeme,
) -> Option<State>
    ensures { result ≡ spec.on_var body outer room lexeme }
{
    let Lexeme::Word(word) = lexeme else {
        return None;
    };
    if is_name(role_of(&word)) {
        Some(at(body, outer, room, Phase::VarName(word)))
    } else {
        None
    }
}

#[tactic(auto, unfolding(crate::specs::code::Statements::on_var_name))]
pub(crate) fn on_var_name(
    alloc: Global,
    body: Items<Stmt>,
    outer: Stack<Outer>,
    room: u32,
    name: Text,
    lexeme: Lexeme,
) -> Result<Option<State>, Memory>
    ensures { IfOk result (λ o. o ≡ spec.on_var_name body outer room name lexeme) }
{
    if let Lexeme::Sign(Sign::Set) = &lexeme {
        let inside = begun(alloc, room, false);
        return Ok(Some(with_value(body, outer, room, Purpose::Var(name), inside)));
    }
    let statement = Stmt::Var { name, value: None };
    on_end(alloc, body, outer, room, statement, closer_of(&lexeme))
}

#[tactic(auto, unfolding(crate::specs::code::Statements::on_if))]
pub(crate) fn on_if(
    alloc: Global,
    body: Items<Stmt>,
    outer: Stack<Outer>,
    room: u32,
    inside: u32,
    lexeme: Lexeme,
) -> Option<State>
    ensures { result ≡ spec.on_if body outer room inside lexeme }
{
    match lexeme {
        Lexeme::Sign(Sign::RoundOpen) => Some(with_value(
            body,
            outer,
            room,
            Purpose::Test { inside },
            begun(alloc, inside, false),
        )),
        _ => None,
    }
}
