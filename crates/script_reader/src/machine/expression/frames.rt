//! What is open around an expression, and what folds.
ghost use Rattle.std.specs.Prelude.{◌≡◌, ◌∷◌, true, false, IfOk, MatchOption};
ghost use Rattle.script_reader.specs.code.Expressions as spec;
ghost use Rattle.script_reader.specs.Chains as chains;

use crate::lexing::lexeme::level;
use crate::machine::stack::{Frame, Inside, Now, Open, Stack, Turn, View, Whole};
use std::alloc::Global;
use vg_base::{BinOp, Boxed, Expr, Items, Memory};

/// The start of an expression.
pub(crate) fn begun(alloc: Global, room: u32, first: bool) -> Inside
    ensures { result ≡ spec.begun room first }
{
    Inside {
        frames: Stack::new(alloc),
        room,
        now: Now::Start { first },
    }
}

pub(crate) fn on(frames: Stack<Open>, room: u32, now: Now) -> Turn
    ensures { result ≡ spec.on frames room now }
{
    Turn::On(Inside { frames, room, now })
}

pub(crate) fn on_value(frames: Stack<Open>, room: u32, value: Expr) -> Turn
    ensures { result ≡ spec.on_value frames room value }
{
    on(frames, room, Now::View(View::Value(value)))
}

/// Opens a frame one level deeper.
pub(crate) fn deeper(mut frames: Stack<Open>, room: u32, frame: Frame) -> Result<Turn, Memory>
    ensures { IfOk result (λ t. t ≡ spec.deeper frames room frame) }
{
    if room == 0 {
        return Ok(Turn::Unfit);
    }
    frames.push(Open { frame, room })?;
    Ok(on(frames, room - 1, Now::Start { first: false }))
}

/// Opens a frame at the same level.
pub(crate) fn beside(
    mut frames: Stack<Open>,
    outside: u32,
    room: u32,
    frame: Frame,
) -> Result<Turn, Memory>
    ensures { IfOk result (λ t. t ≡ spec.beside frames outside room frame) }
{
    frames.push(Open {
        frame,
        room: outside,
    })?;
    Ok(on(frames, room, Now::Start { first: false }))
}

fn folds(least: u32, frame: &Frame) -> bool
    ensures { result ≡ spec.folds least frame.now }
{
    match frame {
        Frame::Signed(_) => true,
        Frame::Left { op, .. } => least <= level(*op),
        Frame::ChooseNo { .. } => least == 0,
        _ => false,
    }
}

/// A value, and then an operator and its right operand.
fn linked(alloc: Global, left: Expr, op: BinOp, right: Expr) -> Result<Expr, Memory>
    ensures { IfOk result (λ e. e ≡ chains.linked left op right) }
{
    match left {
        Expr::Chain { first, mut more } => {
            more.push((op, right))?;
            Ok(Expr::Chain { first, more })
        }
        left => {
            let mut more = Items::new(alloc);
            more.push((op, right))?;
            Ok(Expr::Chain {
                first: Boxed::new(alloc, left)?,
                more,
            })
        }
    }
}

fn made(alloc: Global, frame: Frame, value: Expr) -> Result<Expr, Memory>
    ensures { IfOk result (λ e. e ≡ spec.made frame value) }
{
    match frame {
        Frame::Signed(op) => Ok(Expr::Unary {
            op,
            inner: Boxed::new(alloc, value)?,
        }),
        Frame::Left { value: left, op } => linked(alloc, left, op, value),
        Frame::ChooseNo { test, yes } => Ok(Expr::Choose {
            test: Boxed::new(alloc, test)?,
            yes: Boxed::new(alloc, yes)?,
            no: Boxed::new(alloc, value)?,
        }),
        _ => Ok(value),
    }
}

/// Takes off the top frame where it folds.
fn pop_folding(frames: &mut Stack<Open>, least: u32) -> Result<Option<Open>, Memory>
    ensures { IfOk result (λ o. MatchOption o ((frames.new ≡ frames.old) × (spec.top_folds least frames.old ≡ false))
        (λ top. (frames.old ≡ top ∷ frames.new) × (spec.folds least top.frame ≡ true))) }
{
    let Some(top) = frames.pop() else {
        return Ok(None);
    };
    if folds(least, &top.frame) {
        return Ok(Some(top));
    }
    frames.push(top)?;
    Ok(None)
}

/// Ends what waits for this value and holds it at least so tightly.
#[tactic(auto, unfolding(crate::specs::code::Expressions::folded))]
pub(crate) fn folded(
    alloc: Global,
    least: u32,
    mut frames: Stack<Open>,
    mut room: u32,
    mut value: Expr,
) -> Result<Whole, Memory>
    ensures { IfOk result (λ w. w ≡ spec.folded least frames room value) }
{
    while let Some(top) = pop_folding(&mut frames, least)? {
        value = made(alloc, top.frame, value)?;
        room = top.room;
    }
    Ok(Whole {
        frames,
        room,
        value,
    })
}
