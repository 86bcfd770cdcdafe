//! The first lexeme of an operand.
ghost use Rattle.std.specs.Prelude.{◌≡◌, IfOk};
ghost use Rattle.script_reader.specs.code.Expressions as spec;
ghost use Rattle.script_reader.specs.Roles.{role_of};

use crate::lexing::lexeme::{Lexeme, Sign, prefix_of};
use crate::lexing::roles::{Role, is_name, role_of};
use crate::machine::expression::frames::{deeper, on, on_value};
use crate::machine::stack::{Frame, Now, Open, Stack, Turn, View};
use std::alloc::Global;
use vg_base::{Expr, Items, Memory, Root, Text};

#[tactic(auto, unfolding(crate::specs::code::Expressions::start_word))]
fn start_word(alloc: Global, frames: Stack<Open>, room: u32, first: bool, word: Text) -> Turn
    ensures { result ≡ spec.start_word frames room first word (role_of word) }
{
    let role = role_of(&word);
    match role {
        Role::Out if first => on(
            frames,
            room,
            Now::View(View::Target {
                root: Root::Out,
                path: Items::new(alloc),
            }),
        ),
        Role::Out => on_value(frames, room, Expr::Out),
        Role::Rules => on(frames, room, Now::Rules),
        Role::Meta => on(frames, room, Now::Meta),
        Role::True => on_value(frames, room, Expr::Truth(true)),
        Role::False => on_value(frames, room, Expr::Truth(false)),
        Role::Null => on_value(frames, room, Expr::Null),
        _ if !is_name(role) => Turn::Unfit,
        _ if first => on(
            frames,
            room,
            Now::View(View::Target {
                root: Root::Name(word),
                path: Items::new(alloc),
            }),
        ),
        _ => on_value(frames, room, Expr::Name(word)),
    }
}

#[tactic(auto, unfolding(crate::specs::code::Expressions::start_sign))]
fn start_sign(alloc: Global, frames: Stack<Open>, room: u32, sign: Sign) -> Result<Turn, Memory>
    ensures { IfOk result (λ t. t ≡ spec.start_sign frames room sign) }
{
    if let Some(op) = prefix_of(sign) {
        return deeper(frames, room, Frame::Signed(op));
    }
    if room == 0 {
        return Ok(Turn::Unfit);
    }
    match sign {
        Sign::RoundOpen => deeper(frames, room, Frame::Round),
        Sign::SquareOpen => Ok(on(frames, room - 1, Now::ListStart { outside: room })),
        Sign::CurlyOpen => Ok(on(
            frames,
            room - 1,
            Now::Members {
                done: Items::new(alloc),
                outside: room,
            },
        )),
        _ => Ok(Turn::Unfit),
    }
}

#[tactic(auto, unfolding(crate::specs::code::Expressions::on_start))]
pub(crate) fn on_start(
    alloc: Global,
    frames: Stack<Open>,
    room: u32,
    first: bool,
    lexeme: Lexeme,
) -> Result<Turn, Memory>
    ensures { IfOk result (λ t. t ≡ spec.on_start frames room first lexeme) }
{
    match lexeme {
        Lexeme::Word(word) => Ok(start_word(alloc, frames, room, first, word)),
        Lexeme::Number { value, .. } => Ok(on_value(frames, room, Expr::Number(value))),
        Lexeme::Str(text) => Ok(on_value(frames, room, Expr::Str(text))),
        Lexeme::Sign(sign) => start_sign(alloc, frames, room, sign),
        Lexeme::Bad => Ok(Turn::Unfit),
    }
}
