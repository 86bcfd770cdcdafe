//! Reading an expression: what one more lexeme does.
ghost use Rattle.std.specs.Prelude.{◌≡◌, IfOk};
ghost use Rattle.script_reader.specs.code.Expressions as spec;

pub(crate) mod closing;
pub(crate) mod frames;
pub(crate) mod operand_end;
pub(crate) mod operand_start;
pub(crate) mod within;

use crate::lexing::lexeme::Lexeme;
use crate::machine::expression::operand_end::on_view;
use crate::machine::expression::operand_start::on_start;
use crate::machine::expression::within::{
    on_dot, on_keyed, on_list, on_members, on_meta, on_rule, on_source, on_text, past_close,
    past_dot,
};
use crate::machine::stack::{Inside, Now, Turn, View};
use std::alloc::Global;
use vg_base::{Expr, Memory};

/// One more lexeme.
#[tactic(auto, unfolding(crate::specs::code::Expressions::turn))]
pub(crate) fn turn(alloc: Global, inside: Inside, lexeme: Lexeme) -> Result<Turn, Memory>
    ensures { IfOk result (λ t. t ≡ spec.turn inside lexeme) }
{
    let Inside { frames, room, now } = inside;
    match now {
        Now::Start { first } => on_start(alloc, frames, room, first, lexeme),
        Now::View(view) => on_view(alloc, frames, room, view, lexeme),
        Now::Dot(view) => on_dot(alloc, frames, room, view, lexeme),
        Now::ListStart { outside } => on_list(alloc, frames, room, outside, lexeme),
        Now::Members { done, outside } => Ok(on_members(frames, room, outside, done, lexeme)),
        Now::Keyed { done, key, outside } => on_keyed(frames, room, outside, done, key, lexeme),
        Now::Rules => Ok(past_dot(frames, room, Now::RulesDot, lexeme)),
        Now::RulesDot => Ok(on_rule(frames, room, lexeme)),
        Now::RuleCall => {
            let value = Now::View(View::Value(Expr::LatestRule));
            Ok(past_close(frames, room, value, lexeme))
        }
        Now::Meta => Ok(past_dot(frames, room, Now::MetaDot, lexeme)),
        Now::MetaDot => Ok(on_meta(frames, room, lexeme)),
        Now::Source(source) => Ok(on_source(frames, room, source, lexeme)),
        Now::SourceCall(source) => { Ok(past_close(frames, room, Now::Source(source), lexeme)) }
        Now::SourceDot(source) => Ok(on_text(frames, room, source, lexeme)),
    }
}
