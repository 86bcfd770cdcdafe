//! Repeats: how often an expansion may stand, as it is written in an Angle.
ghost use Rattle.std.specs.Prelude.{◌≡◌, ◌==◌, ◌≤◌, length, MatchOption};
ghost use Rattle.std.specs.List.{prefix_len};
ghost use Rattle.std.specs.Option.{option_map, option_copied};
ghost use Rattle.vg_base.specs.Runs.{begins};
ghost use Rattle.abnf_lexer.specs.Repeats.{is_digit, IsRepeat, IsNoRepeat, shown, most_of};
ghost use Rattle.abnf_lexer.specs.code.Repeats as spec;

use crate::between::{Enclosed, between};
use vg_base::space_len;

/// At most how often.
#[derive(Clone, Copy, Debug)]
pub enum Most<'a> {
    /// As often as at least.
    Same,
    /// Without end.
    Endless,
    /// Up to the number that these digits are.
    UpTo(&'a [char]),
}

/// A repeat as it is written: the digits of its least number, its most, and the characters of its probability or none.
#[derive(Clone, Copy, Debug)]
pub struct Repeat<'a> {
    pub least: &'a [char],
    pub most: Most<'a>,
    pub chance: Option<&'a [char]>,
}

/// The repeat that the slice of an Angle is. It takes no memory: all that it gives is lent from the slice.
pub fn read_repeat(slice: &[char]) -> Option<Repeat<'_>>
    ensures { MatchOption result (IsNoRepeat slice.now)
        (λ r. IsRepeat slice.now r.least.now (most_of r.most) (option_copied r.chance)) }
{
    in_angles(slice)
}

fn in_angles(slice: &[char]) -> Option<Repeat<'_>>
    ensures { option_map shown result ≡ spec.repeat slice.now }
{
    let Some(Enclosed { inside, behind }) = between(&['<'], &['>'], slice) else {
        return None;
    };
    if behind.is_empty() {
        numbers(behind_spaces(inside))
    } else {
        None
    }
}

/// The text behind the white space at its front.
fn behind_spaces(text: &[char]) -> &[char]
    ensures { result.now ≡ spec.behind_spaces text.now }
{
    &text[space_len(text)..]
}

/// How many digits come next.
fn digits_len(text: &[char]) -> usize
    ensures value { result ≡ prefix_len is_digit text.now }
    ensures within { result ≤ length text.now }
{
    text.iter().take_while(|c| c.is_ascii_digit()).count()
}

fn begins_digit(text: &[char]) -> bool
    ensures { result ≡ begins is_digit text.now }
{
    matches!(text, ['0'..='9', ..])
}

fn begins_hyphen(text: &[char]) -> bool
    ensures { result ≡ begins (λ c. c == 45) text.now }
{
    matches!(text, ['-', ..])
}

/// The digits that come next.
fn digits(text: &[char]) -> &[char]
    ensures { result.now ≡ spec.digits text.now }
{
    &text[..digits_len(text)]
}

/// The text behind the digits and the white space at its front.
fn behind_digits(text: &[char]) -> &[char]
    ensures { result.now ≡ spec.behind_digits text.now }
{
    behind_spaces(&text[digits_len(text)..])
}

/// At most how often, and what is left.
#[derive(Clone, Copy, Debug)]
struct Ranged<'a> {
    most: Most<'a>,
    rest: &'a [char],
}

/// What a hyphen and white space are behind: a number, or none.
fn behind_hyphen(text: &[char]) -> Ranged<'_>
    ensures { spec.ranged_of result ≡ spec.behind_hyphen text.now }
{
    if begins_digit(text) {
        Ranged {
            most: Most::UpTo(digits(text)),
            rest: behind_digits(text),
        }
    } else {
        Ranged {
            most: Most::Endless,
            rest: text,
        }
    }
}

/// What follows the least number: a hyphen and a number or none, or nothing.
fn range(text: &[char]) -> Ranged<'_>
    ensures { spec.ranged_of result ≡ spec.range text.now }
{
    if begins_hyphen(text) {
        behind_hyphen(behind_spaces(&text[1..]))
    } else {
        Ranged {
            most: Most::Same,
            rest: text,
        }
    }
}

/// The probability, or none at the end of the text.
fn chance(text: &[char]) -> Option<Option<&[char]>>
    ensures { option_map option_copied result ≡ spec.chance text.now }
{
    if text.is_empty() {
        return Some(None);
    }
    let Some(Enclosed { inside, behind }) = between(&['/'], &['/'], text) else {
        return None;
    };
    if behind_spaces(behind).is_empty() {
        Some(Some(inside))
    } else {
        None
    }
}

/// The numbers and the probability that stand in angles, without the white space at the front.
fn numbers(text: &[char]) -> Option<Repeat<'_>>
    ensures { option_map shown result ≡ spec.numbers text.now }
{
    if !begins_digit(text) {
        return None;
    }
    let Ranged { most, rest } = range(behind_digits(text));
    let Some(chance) = chance(rest) else {
        return None;
    };
    Some(Repeat {
        least: digits(text),
        most,
        chance,
    })
}
