//! Repeats (SRGS 1.0 section 2.5).
ghost use Rattle.std.specs.Prelude.{◌≡◌, true, Some, IfOk, MatchBool};
ghost use Rattle.std.specs.List.{list_all};
ghost use Rattle.std.specs.Option.{option_copied};
ghost use Rattle.abnf_lexer.specs.Repeats.{is_digit, most_of};
ghost use Rattle.rule_reader.specs.LeafFaults.{IsOutOfOrder, IsTooLarge, TimesFaults};
ghost use Rattle.rule_reader.specs.Numbers.{number_of, IsPast, IsChance};
ghost use Rattle.rule_reader.specs.Meaning.{repeated};
ghost use Rattle.rule_reader.specs.code.Walks.{IsTurned, IsReadAs};
ghost use Rattle.rule_reader.specs.code.Turns.{AreDigits, TurnsOf, TurnsAre};

use crate::decimal::is_probability;
use crate::found::tell;
use crate::numbers::{is_less, number_of};
use crate::places::slice_at;
use abnf_lexer::{Most, Repeat, Spanned, read_repeat};
use grammar_tree::Expansion;
use std::alloc::Global;
use vg_base::limits::REPEAT;
use vg_base::{Boxed, DocFault, DocKind, Memory, Text};

/// At least and at most how often.
#[derive(Clone, Copy)]
pub(crate) struct Turns {
    least: u32,
    most: Option<u32>,
}

/// Whether the most is below the least.
fn is_out_of_order(least: &[char], most: Most<'_>) -> bool
    requires least { list_all is_digit least.now ≡ true }
    requires most { AreDigits (most_of most) }
    ensures { MatchBool result (IsOutOfOrder least.now (most_of most.entry))
        (IsOutOfOrder least.now (most_of most.entry) → ⊥) }
{
    match most {
        Most::UpTo(digits) => is_less(digits, least),
        Most::Same | Most::Endless => false,
    }
}

fn is_past(digits: &[char]) -> bool
    ensures { MatchBool result (IsPast (Some (number_of digits.now)))
        (IsPast (Some (number_of digits.now)) → ⊥) }
{
    number_of(digits) > REPEAT
}

/// Whether one of the numbers is too large.
fn is_too_large(least: &[char], most: Most<'_>) -> bool
    ensures { MatchBool result (IsTooLarge least.now (most_of most.entry))
        (IsTooLarge least.now (most_of most.entry) → ⊥) }
{
    match most {
        Most::UpTo(digits) => is_past(least) || is_past(digits),
        Most::Same | Most::Endless => is_past(least),
    }
}

/// Whether it is a probability, or there is none.
fn is_chance(alloc: Global, chance: Option<&[char]>) -> Result<bool, Memory>
    ensures { IfOk result (λ b. MatchBool b (IsChance (option_copied chance.entry))
        (IsChance (option_copied chance.entry) → ⊥)) }
{
    match chance {
        Some(characters) => {
            let text = Text::from_characters(alloc, characters)?;
            let good = is_probability(alloc, &text)?;
            Ok(good)
        }
        None => Ok(true),
    }
}

/// The numbers of a repeat, where none is too large.
fn turns_of(least: &[char], most: Most<'_>) -> Turns
    ensures { (IsTooLarge least.now (most_of most.entry) → ⊥) → TurnsOf least.now (most_of most.entry) result }
{
    let number = number_of(least) as u32;
    Turns {
        least: number,
        most: match most {
            Most::Same => Some(number),
            Most::Endless => None,
            Most::UpTo(digits) => Some(number_of(digits) as u32),
        },
    }
}

/// Reads the numbers of a repeat.
pub(crate) fn read_times(
    alloc: Global,
    text: &Text,
    span: Spanned,
    found: &mut Option<DocFault>,
) -> Result<Turns, Memory>
    requires { IsTurned text.now span }
    ensures { IfOk result (IsReadAs (TimesFaults text.now span) (TurnsAre text.now span) found.old found.new) }
{
    let slice = slice_at(alloc, text, span)?;
    let Some(repeat) = read_repeat(slice.as_slice()) else {
        return Ok(Turns {
            least: 0,
            most: None,
        });
    };
    let Repeat {
        least,
        most,
        chance,
    } = repeat;
    tell(
        found,
        is_out_of_order(least, most),
        span,
        DocKind::RepeatOrder,
    );
    tell(found, is_too_large(least, most), span, DocKind::RepeatLarge);
    let good = is_chance(alloc, chance)?;
    tell(found, !good, span, DocKind::BadWeight);
    Ok(turns_of(least, most))
}

/// What is repeated so often; nothing where it is at most 0 times.
pub(crate) fn repeated(alloc: Global, turns: Turns, inner: Expansion) -> Result<Expansion, Memory>
    ensures { IfOk result (λ x. x ≡ repeated turns.least turns.most inner) }
{
    match turns.most {
        Some(0) => Ok(Expansion::Null),
        most => Ok(Expansion::Rep {
            least: turns.least,
            most,
            inner: Boxed::new(alloc, inner)?,
        }),
    }
}
