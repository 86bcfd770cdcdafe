//! Reading a whole script.
ghost use Rattle.std.specs.Prelude.{◌≡◌, ◌<◌, ◌≤◌, ◌^◌, IfOk, length, drop};
ghost use Rattle.script_reader.specs.code.Advances.{advance, further, ending};
ghost use Rattle.script_reader.specs.code.Front.{front};
ghost use Rattle.script_reader.specs.Answers.{script_answer};
ghost use Rattle.script_reader.specs.Depth.{script_depth};
ghost use Rattle.script_reader.specs.Reading.{Reads};
ghost use Rattle.vg_base.specs.Refusals.{Gives, Meets};
ghost use Rattle.vg_base.specs.declared.refused.Refused.TheVariants as refused;
ghost use Rattle.script_reader.specs.code.Statements.{step, result_of};

use crate::lexing::cutting::{Cut, front_at};
use crate::lexing::lexeme::Lexeme;
use crate::machine::stack::State;
use crate::machine::statement::settling::start;
use crate::machine::statement::{result_of, step};
use crate::refused::{ScriptRefused, ScriptSyntax};
use std::alloc::Global;
use vg_base::{Memory, Refused, Script, Text};

/// What comes of the text at a place.
#[derive(Drop)]
enum Advance {
    /// Reading goes on so many characters further.
    On(State, usize),
    /// The text is this script.
    Read(Script),
    /// What stands here fits no script.
    Unfit,
}

/// Reads the script of a tag. `Memory` comes where memory is wanted and isn't there; no contract says when that is.
pub fn read_script(alloc: Global, text: &Text) -> Result<Script, ScriptRefused>
    // What is read is spelled so, and no other script is; a refusal has the place of the first lexeme that fits no script.
    ensures reads { Meets result (Reads text.now) }
    ensures gives { Gives result (script_answer text.now) }
    ensures shallow { IfOk result (λ script. script_depth script < 600) }
{
    let characters = text.characters(alloc)?;
    read_characters(alloc, characters.as_slice())
}

/// Reads the characters of a script.
fn read_characters(alloc: Global, text: &[char]) -> Result<Script, ScriptRefused>
    requires { length text.now < 2 ^ 63 }
    ensures reads { Meets result (Reads text.now) }
    ensures gives { Gives result (script_answer text.now) }
    ensures shallow { IfOk result (λ script. script_depth script < 600) }
{
    let mut state = start(alloc);
    let mut at = 0usize;
    loop {
        match advanced(alloc, text, at, state)? {
            Advance::On(next, len) => {
                state = next;
                at += len;
            }
            Advance::Read(script) => return Ok(script),
            Advance::Unfit => return Err(unfit_at(at)),
        }
    }
}

/// What stands at this place fits no script.
fn unfit_at(at: usize) -> ScriptRefused
    ensures { result ≡ refused.Fault (record { at = at }) }
{
    Refused::Fault(ScriptSyntax { at: at as u64 })
}

/// What comes of the text at a place.
fn advanced(alloc: Global, text: &[char], at: usize, state: State) -> Result<Advance, Memory>
    requires small { length text.now < 2 ^ 63 }
    requires within { at ≤ length text.now }
    ensures { IfOk result (λ a. a ≡ advance state (front (drop at text.now))) }
{
    let cut = front_at(alloc, text, at)?;
    over_cut(alloc, state, cut)
}

/// What comes of what stands at a place.
fn over_cut(alloc: Global, state: State, cut: Cut) -> Result<Advance, Memory>
    ensures { IfOk result (λ a. a ≡ advance state cut) }
{
    match cut {
        Cut::Gap(len) => Ok(Advance::On(state, len)),
        Cut::Whole(lexeme, len) => over_lexeme(alloc, state, lexeme, len),
        Cut::Stop => Ok(Advance::Unfit),
        Cut::End => at_end(alloc, state),
    }
}

/// What comes of a lexeme.
fn over_lexeme(alloc: Global, state: State, lexeme: Lexeme, len: usize) -> Result<Advance, Memory>
    ensures { IfOk result (λ a. a ≡ further (step state lexeme) len) }
{
    match step(alloc, state, lexeme)? {
        Some(next) => Ok(Advance::On(next, len)),
        None => Ok(Advance::Unfit),
    }
}

/// What comes of a text that ends here.
fn at_end(alloc: Global, state: State) -> Result<Advance, Memory>
    ensures { IfOk result (λ a. a ≡ ending (result_of state)) }
{
    match result_of(alloc, state)? {
        Some(script) => Ok(Advance::Read(script)),
        None => Ok(Advance::Unfit),
    }
}
