//! Weights and probabilities: digits with a dot among them or none (SRGS 1.0 sections 2.4.1 and 2.5).
ghost use Rattle.std.specs.Prelude.{◌≡◌, ◌≢◌, ◌≤◌, ◌∷◌, ◌++◌, ℕ, List, [], IfOk, MatchBool, MatchOption, length};
ghost use Rattle.std.specs.List.{list_all, prefix_len};
ghost use Rattle.std.specs.Option.{option_copied};
ghost use Rattle.abnf_lexer.specs.Repeats.{is_digit};
ghost use Rattle.token_forms.specs.Words.{AreWords};
ghost use Rattle.rule_reader.specs.Numbers.{IsDecimal, IsWeight, IsAtMostOne, IsProbability};
ghost use Rattle.rule_reader.specs.code.Numbers.{digits, behind_digits, dotted, only};

use crate::numbers::number_of;
use std::alloc::Global;
use token_forms::words_of;
use vg_base::{Memory, Text, Word};

/// The digits before the dot, and those behind it.
#[derive(Clone, Copy)]
struct Decimal<'a> {
    whole: &'a [char],
    behind: &'a [char],
}

fn only(words: &[Word]) -> Option<&Word>
    ensures { option_copied result ≡ only words.now }
{
    match words {
        [word] => Some(word),
        _ => None,
    }
}

/// The word of a text that has one word alone.
fn only_word(alloc: Global, text: &Text) -> Result<Option<Vec<char>>, Memory>
    ensures { IfOk result (λ o. MatchOption o ((word : List ℕ) → AreWords (word ∷ []) text.now → ⊥)
        (λ v. AreWords (v.items ∷ []) text.now)) }
{
    let words = words_of(alloc, text)?;
    match only(words.as_slice()) {
        Some(word) => Ok(Some(word.text().characters(alloc)?)),
        None => Ok(None),
    }
}

fn digits_len(text: &[char]) -> usize
    ensures value { result ≡ prefix_len is_digit text.now }
    ensures within { result ≤ length text.now }
{
    text.iter().take_while(|c| c.is_ascii_digit()).count()
}

/// The digits at the front.
fn digits(text: &[char]) -> &[char]
    ensures { result.now ≡ digits text.now }
{
    &text[..digits_len(text)]
}

/// What stands behind them.
fn behind_digits(text: &[char]) -> &[char]
    ensures { result.now ≡ behind_digits text.now }
{
    &text[digits_len(text)..]
}

fn are_digits(text: &[char]) -> bool
    ensures { result ≡ list_all is_digit text.now }
{
    text.iter().all(|c| c.is_ascii_digit())
}

/// What stands behind the digits at the front: nothing, or a dot and digits.
fn dotted(rest: &[char]) -> Option<&[char]>
    ensures { option_copied result ≡ dotted rest.now }
{
    match rest {
        [] => Some(rest),
        ['.', behind @ ..] => {
            if are_digits(behind) {
                Some(behind)
            } else {
                None
            }
        }
        _ => None,
    }
}

fn are_empty(whole: &[char], behind: &[char]) -> bool
    ensures { MatchBool result (whole.now ++ behind.now ≡ []) (whole.now ++ behind.now ≢ []) }
{
    matches!((whole, behind), ([], []))
}

/// The number that the characters are.
fn decimal_of(text: &[char]) -> Option<Decimal<'_>>
    ensures { MatchOption result ((whole behind : List ℕ) → IsDecimal text.now whole behind → ⊥)
        (λ d. IsDecimal text.now d.whole.now d.behind.now) }
{
    let whole = digits(text);
    let Some(behind) = dotted(behind_digits(text)) else {
        return None;
    };
    if are_empty(whole, behind) {
        None
    } else {
        Some(Decimal { whole, behind })
    }
}

/// Whether the text is a weight.
pub(crate) fn is_weight(alloc: Global, text: &Text) -> Result<bool, Memory>
    ensures { IfOk result (λ b. MatchBool b (IsWeight text.now) (IsWeight text.now → ⊥)) }
{
    let Some(word) = only_word(alloc, text)? else {
        return Ok(false);
    };
    match decimal_of(word.as_slice()) {
        Some(_) => Ok(true),
        None => Ok(false),
    }
}

/// Whether the number before and behind the dot is at most 1.
fn is_at_most_one(whole: &[char], behind: &[char]) -> bool
    ensures { MatchBool result (IsAtMostOne whole.now behind.now)
        (IsAtMostOne whole.now behind.now → ⊥) }
{
    match number_of(whole) {
        0 => true,
        1 => number_of(behind) == 0,
        _ => false,
    }
}

/// Whether the text is a probability.
pub(crate) fn is_probability(alloc: Global, text: &Text) -> Result<bool, Memory>
    ensures { IfOk result (λ b. MatchBool b (IsProbability text.now) (IsProbability text.now → ⊥)) }
{
    let Some(word) = only_word(alloc, text)? else {
        return Ok(false);
    };
    match decimal_of(word.as_slice()) {
        Some(decimal) => Ok(is_at_most_one(decimal.whole, decimal.behind)),
        None => Ok(false),
    }
}
