//! A sign that ends what is open innermost, or stands within it.
ghost use Rattle.std.specs.Prelude.{◌≡◌, IfOk};
ghost use Rattle.script_reader.specs.code.Expressions as spec;
ghost use Rattle.script_reader.specs.declared.machine.stack.Frame.TheVariants as f;

use crate::lexing::lexeme::Sign;
use crate::machine::expression::frames::{beside, on, on_value};
use crate::machine::stack::{Frame, Now, Open, Stack, Turn, View, Whole};
use crate::machine::views::extended;
use std::alloc::Global;
use vg_base::{Expr, Items, Key, Memory, Text};

/// A value, and then a sign that may end what waits for it.
#[tactic(auto, unfolding(crate::specs::code::Expressions::closed))]
pub(crate) fn closed(alloc: Global, whole: Whole, sign: Sign) -> Result<Turn, Memory>
    ensures { IfOk result (λ t. t ≡ spec.closed whole.frames whole.room whole.value sign) }
{
    let Whole {
        mut frames,
        room,
        value,
    } = whole;
    let Some(
        Open {
            frame,
            room: outside,
        },
    ) = frames.pop()
    else {
        return Ok(Turn::Ended(value));
    };
    close_frame(alloc, frame, sign, frames, outside, room, value)
}

/// A value in a frame, and then a sign that may close it.
#[tactic(auto, unfolding(crate::specs::code::Expressions::close_frame))]
fn close_frame(
    alloc: Global,
    frame: Frame,
    sign: Sign,
    frames: Stack<Open>,
    outside: u32,
    room: u32,
    value: Expr,
) -> Result<Turn, Memory>
    ensures { IfOk result (λ t. t ≡ spec.close_frame frame sign frames outside room value) }
{
    match frame {
        Frame::Round => Ok(close_round(sign, frames, outside, room, value)),
        Frame::Index(view) => close_index(alloc, view, sign, frames, outside, room, value),
        Frame::List(done) => close_list(done, sign, frames, outside, room, value),
        Frame::Member { done, key } => close_member(done, key, sign, frames, outside, room, value),
        Frame::ChooseYes(test) => close_first(test, sign, frames, outside, room, value),
        _ => Ok(Turn::Unfit),
    }
}

#[tactic(auto, unfolding(crate::specs::code::Expressions::close_frame))]
fn close_round(sign: Sign, frames: Stack<Open>, outside: u32, room: u32, value: Expr) -> Turn
    ensures { result ≡ spec.close_frame f.Round sign frames outside room value }
{
    match sign {
        Sign::RoundClose => on_value(frames, outside, value),
        _ => Turn::Unfit,
    }
}

#[tactic(auto, unfolding(crate::specs::code::Expressions::close_frame))]
fn close_index(
    alloc: Global,
    view: View,
    sign: Sign,
    frames: Stack<Open>,
    outside: u32,
    room: u32,
    value: Expr,
) -> Result<Turn, Memory>
    ensures { IfOk result (λ t. t ≡ spec.close_frame (f.Index view) sign frames outside room value) }
{
    match sign {
        Sign::SquareClose => Ok(on(
            frames,
            outside,
            Now::View(extended(alloc, view, Key::Index(value))?),
        )),
        _ => Ok(Turn::Unfit),
    }
}

#[tactic(auto, unfolding(crate::specs::code::Expressions::close_frame))]
fn close_list(
    mut done: Items<Expr>,
    sign: Sign,
    frames: Stack<Open>,
    outside: u32,
    room: u32,
    value: Expr,
) -> Result<Turn, Memory>
    ensures { IfOk result (λ t. t ≡ spec.close_frame (f.List done) sign frames outside room value) }
{
    match sign {
        Sign::SquareClose => {
            done.push(value)?;
            Ok(on_value(frames, outside, Expr::List(done)))
        }
        Sign::Comma => {
            done.push(value)?;
            beside(frames, outside, room, Frame::List(done))
        }
        _ => Ok(Turn::Unfit),
    }
}

#[tactic(auto, unfolding(crate::specs::code::Expressions::close_frame))]
fn close_member(
    mut done: Items<(Text, Expr)>,
    key: Text,
    sign: Sign,
    frames: Stack<Open>,
    outside: u32,
    room: u32,
    value: Expr,
) -> Result<Turn, Memory>
    ensures { IfOk result (λ t. t ≡ spec.close_frame (f.Member done key) sign frames outside room value) }
{
    match sign {
        Sign::CurlyClose => {
            done.push((key, value))?;
            Ok(on_value(frames, outside, Expr::Record(done)))
        }
        Sign::Comma => {
            done.push((key, value))?;
            Ok(on(frames, room, Now::Members { done, outside }))
        }
        _ => Ok(Turn::Unfit),
    }
}

/// The first branch of a choice ends where the second one begins.
#[tactic(auto, unfolding(crate::specs::code::Expressions::close_frame))]
fn close_first(
    test: Expr,
    sign: Sign,
    frames: Stack<Open>,
    outside: u32,
    room: u32,
    value: Expr,
) -> Result<Turn, Memory>
    ensures { IfOk result (λ t. t ≡ spec.close_frame (f.ChooseYes test) sign frames outside room value) }
{
    match sign {
        Sign::Colon => beside(frames, outside, room, Frame::ChooseNo { test, yes: value }),
        _ => Ok(Turn::Unfit),
    }
}
