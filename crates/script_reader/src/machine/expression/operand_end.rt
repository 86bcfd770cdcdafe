//! What stands behind an operand.
ghost use Rattle.std.specs.Prelude.{◌≡◌, IfOk};
ghost use Rattle.script_reader.specs.code.Expressions as spec;

use crate::lexing::lexeme::{Lexeme, Sign, level, operator_of};
use crate::lexing::roles::{Role, role_of};
use crate::machine::expression::closing::closed;
use crate::machine::expression::frames::{beside, deeper, folded, on};
use crate::machine::stack::{Frame, Inside, Now, Open, Stack, Turn, View, Whole};
use crate::machine::views::value_of;
use std::alloc::Global;
use vg_base::{BinOp, Expr, Memory};

#[tactic(auto, unfolding(crate::specs::code::Expressions::operated))]
fn operated(
    alloc: Global,
    frames: Stack<Open>,
    room: u32,
    view: View,
    op: BinOp,
) -> Result<Turn, Memory>
    ensures { IfOk result (λ t. t ≡ spec.operated frames room view op) }
{
    let value = value_of(alloc, view)?;
    let whole = folded(alloc, level(op), frames, room, value)?;
    beside(
        whole.frames,
        whole.room,
        whole.room,
        Frame::Left {
            value: whole.value,
            op,
        },
    )
}

#[tactic(auto, unfolding(crate::specs::code::Expressions::chosen))]
fn chosen(alloc: Global, frames: Stack<Open>, room: u32, view: View) -> Result<Turn, Memory>
    ensures { IfOk result (λ t. t ≡ spec.chosen frames room view) }
{
    let value = value_of(alloc, view)?;
    let whole = folded(alloc, 1, frames, room, value)?;
    deeper(whole.frames, whole.room, Frame::ChooseYes(whole.value))
}

#[tactic(auto, unfolding(crate::specs::code::Expressions::ending))]
fn ending(
    alloc: Global,
    frames: Stack<Open>,
    room: u32,
    view: View,
    sign: Sign,
) -> Result<Turn, Memory>
    ensures { IfOk result (λ t. t ≡ spec.ending frames room view sign) }
{
    let value = value_of(alloc, view)?;
    let whole = folded(alloc, 0, frames, room, value)?;
    closed(alloc, whole, sign)
}

fn called(frames: Stack<Open>, room: u32, view: View) -> Turn
    ensures { result ≡ spec.called frames room view }
{
    match view {
        View::Latest if room > 0 => on(frames, room, Now::RuleCall),
        _ => Turn::Unfit,
    }
}

#[tactic(auto, unfolding(crate::specs::code::Expressions::view_sign))]
fn view_sign(
    alloc: Global,
    frames: Stack<Open>,
    room: u32,
    view: View,
    sign: Sign,
) -> Result<Turn, Memory>
    ensures { IfOk result (λ t. t ≡ spec.view_sign frames room view sign) }
{
    if let Some(op) = operator_of(sign) {
        return operated(alloc, frames, room, view, op);
    }
    match sign {
        Sign::Question => chosen(alloc, frames, room, view),
        Sign::Dot => Ok(on(frames, room, Now::Dot(view))),
        Sign::SquareOpen => deeper(frames, room, Frame::Index(view)),
        Sign::RoundOpen => Ok(called(frames, room, view)),
        Sign::RoundClose
        | Sign::SquareClose
        | Sign::CurlyClose
        | Sign::Comma
        | Sign::Colon
        | Sign::Semicolon => ending(alloc, frames, room, view, sign),
        _ => Ok(Turn::Unfit),
    }
}

/// The value of an expression that ends here, or `None` where it goes on.
#[tactic(auto, unfolding(crate::specs::code::Expressions::ended))]
pub(crate) fn ended(alloc: Global, inside: Inside) -> Result<Option<Expr>, Memory>
    ensures { IfOk result (λ o. o ≡ spec.ended inside) }
{
    let Inside { frames, room, now } = inside;
    let Now::View(view) = now else {
        return Ok(None);
    };
    let value = value_of(alloc, view)?;
    let Whole {
        mut frames,
        value,
        ..
    } = folded(alloc, 0, frames, room, value)?;
    match frames.pop() {
        None => Ok(Some(value)),
        Some(_) => Ok(None),
    }
}

fn before_else(alloc: Global, inside: Inside, role: Role) -> Result<Turn, Memory>
    ensures { IfOk result (λ t. t ≡ spec.before_else inside role) }
{
    if role != Role::Else {
        return Ok(Turn::Unfit);
    }
    match ended(alloc, inside)? {
        Some(value) => Ok(Turn::Ended(value)),
        None => Ok(Turn::Unfit),
    }
}

#[tactic(auto, unfolding(crate::specs::code::Expressions::on_view))]
pub(crate) fn on_view(
    alloc: Global,
    frames: Stack<Open>,
    room: u32,
    view: View,
    lexeme: Lexeme,
) -> Result<Turn, Memory>
    ensures { IfOk result (λ t. t ≡ spec.on_view frames room view lexeme) }
{
    match lexeme {
        Lexeme::Sign(sign) => view_sign(alloc, frames, room, view, sign),
        Lexeme::Word(word) => before_else(
            alloc,
            Inside {
                frames,
                room,
                now: Now::View(view),
            },
            role_of(&word),
        ),
        _ => Ok(Turn::Unfit),
    }
}
