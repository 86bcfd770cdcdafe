//! Within a list, a record, `rules` and `meta`.
ghost use Rattle.std.specs.Prelude.{◌≡◌, IfOk};
ghost use Rattle.script_reader.specs.code.Expressions as spec;

use crate::lexing::lexeme::{Lexeme, Sign};
use crate::lexing::roles::{Role, role_of};
use crate::machine::expression::frames::{beside, on, on_value};
use crate::machine::expression::operand_start::on_start;
use crate::machine::stack::{Frame, Now, Open, Source, Stack, Turn, View};
use crate::machine::views::{extended, rule_view, text_of};
use std::alloc::Global;
use vg_base::{Expr, Items, Key, Memory, Text};

#[tactic(auto, unfolding(crate::specs::code::Expressions::on_list))]
pub(crate) fn on_list(
    alloc: Global,
    mut frames: Stack<Open>,
    room: u32,
    outside: u32,
    lexeme: Lexeme,
) -> Result<Turn, Memory>
    ensures { IfOk result (λ t. t ≡ spec.on_list frames room outside lexeme) }
{
    if let Lexeme::Sign(Sign::SquareClose) = &lexeme {
        return Ok(on_value(frames, outside, Expr::List(Items::new(alloc))));
    }
    frames.push(Open {
        frame: Frame::List(Items::new(alloc)),
        room: outside,
    })?;
    on_start(alloc, frames, room, false, lexeme)
}

fn keyed(frames: Stack<Open>, room: u32, outside: u32, done: Items<(Text, Expr)>, key: Text) -> Turn
    ensures { result ≡ spec.keyed frames room outside done key }
{
    on(frames, room, Now::Keyed { done, key, outside })
}

#[tactic(auto, unfolding(crate::specs::code::Expressions::on_members))]
pub(crate) fn on_members(
    frames: Stack<Open>,
    room: u32,
    outside: u32,
    done: Items<(Text, Expr)>,
    lexeme: Lexeme,
) -> Turn
    ensures { result ≡ spec.on_members frames room outside done lexeme }
{
    match lexeme {
        Lexeme::Word(word) => keyed(frames, room, outside, done, word),
        Lexeme::Str(text) => keyed(frames, room, outside, done, text),
        Lexeme::Number { digits, .. } => keyed(frames, room, outside, done, digits),
        Lexeme::Sign(Sign::CurlyClose) if done.is_empty() => {
            on_value(frames, outside, Expr::Record(done))
        }
        _ => Turn::Unfit,
    }
}

#[tactic(auto, unfolding(crate::specs::code::Expressions::on_keyed))]
pub(crate) fn on_keyed(
    frames: Stack<Open>,
    room: u32,
    outside: u32,
    done: Items<(Text, Expr)>,
    key: Text,
    lexeme: Lexeme,
) -> Result<Turn, Memory>
    ensures { IfOk result (λ t. t ≡ spec.on_keyed frames room outside done key lexeme) }
{
    match lexeme {
        Lexeme::Sign(Sign::Colon) => beside(frames, outside, room, Frame::Member { done, key }),
        _ => Ok(Turn::Unfit),
    }
}

#[tactic(auto, unfolding(crate::specs::code::Expressions::on_dot))]
pub(crate) fn on_dot(
    alloc: Global,
    frames: Stack<Open>,
    room: u32,
    view: View,
    lexeme: Lexeme,
) -> Result<Turn, Memory>
    ensures { IfOk result (λ t. t ≡ spec.on_dot frames room view lexeme) }
{
    match lexeme {
        Lexeme::Word(word) => Ok(on(
            frames,
            room,
            Now::View(extended(alloc, view, Key::Word(word))?),
        )),
        _ => Ok(Turn::Unfit),
    }
}

/// Goes on where `.` comes.
#[tactic(auto, unfolding(crate::specs::code::Expressions::past_dot))]
pub(crate) fn past_dot(frames: Stack<Open>, room: u32, now: Now, lexeme: Lexeme) -> Turn
    ensures { result ≡ spec.past_dot frames room now lexeme }
{
    match lexeme {
        Lexeme::Sign(Sign::Dot) => on(frames, room, now),
        _ => Turn::Unfit,
    }
}

/// Goes on where `)` comes.
#[tactic(auto, unfolding(crate::specs::code::Expressions::past_close))]
pub(crate) fn past_close(frames: Stack<Open>, room: u32, now: Now, lexeme: Lexeme) -> Turn
    ensures { result ≡ spec.past_close frames room now lexeme }
{
    match lexeme {
        Lexeme::Sign(Sign::RoundClose) => on(frames, room, now),
        _ => Turn::Unfit,
    }
}

#[tactic(auto, unfolding(crate::specs::code::Expressions::on_rule))]
pub(crate) fn on_rule(frames: Stack<Open>, room: u32, lexeme: Lexeme) -> Turn
    ensures { result ≡ spec.on_rule frames room lexeme }
{
    match lexeme {
        Lexeme::Word(word) => on(frames, room, Now::View(rule_view(word))),
        _ => Turn::Unfit,
    }
}

#[tactic(auto, unfolding(crate::specs::code::Expressions::on_meta))]
pub(crate) fn on_meta(frames: Stack<Open>, room: u32, lexeme: Lexeme) -> Turn
    ensures { result ≡ spec.on_meta frames room lexeme }
{
    match lexeme {
        Lexeme::Word(word) => on(frames, room, Now::Source(Source::Rule(word))),
        _ => Turn::Unfit,
    }
}

fn source_called(frames: Stack<Open>, room: u32, source: Source) -> Turn
    ensures { result ≡ spec.source_called frames room source }
{
    let Source::Rule(word) = source else {
        return Turn::Unfit;
    };
    if room == 0 {
        return Turn::Unfit;
    }
    match role_of(&word) {
        Role::Latest => on(frames, room, Now::SourceCall(Source::Latest)),
        Role::Current => on(frames, room, Now::SourceCall(Source::Current)),
        _ => Turn::Unfit,
    }
}

#[tactic(auto, unfolding(crate::specs::code::Expressions::on_source))]
pub(crate) fn on_source(frames: Stack<Open>, room: u32, source: Source, lexeme: Lexeme) -> Turn
    ensures { result ≡ spec.on_source frames room source lexeme }
{
    match lexeme {
        Lexeme::Sign(Sign::Dot) => on(frames, room, Now::SourceDot(source)),
        Lexeme::Sign(Sign::RoundOpen) => source_called(frames, room, source),
        _ => Turn::Unfit,
    }
}

#[tactic(auto, unfolding(crate::specs::code::Expressions::on_text))]
pub(crate) fn on_text(frames: Stack<Open>, room: u32, source: Source, lexeme: Lexeme) -> Turn
    ensures { result ≡ spec.on_text frames room source lexeme }
{
    let Lexeme::Word(word) = lexeme else {
        return Turn::Unfit;
    };
    match role_of(&word) {
        Role::Text => on_value(frames, room, text_of(source)),
        _ => Turn::Unfit,
    }
}
