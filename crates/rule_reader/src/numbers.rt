//! Numbers of repeats, as far as their limit goes.
ghost use Rattle.std.specs.Prelude.{◌≡◌, ◌≤◌, ◌<◌, ◌+◌, ◌*◌, ◌-◌, min, true, length, drop, take, MatchBool};
ghost use Rattle.std.specs.List.{list_all};
ghost use Rattle.std.specs.Ordering.{nat_cmp};
ghost use Rattle.abnf_lexer.specs.Repeats.{is_digit};
ghost use Rattle.rule_reader.specs.Numbers.{number_of};
ghost use Rattle.rule_reader.specs.code.Numbers.{capped, compared};

use std::cmp::Ordering;
use vg_base::limits::REPEAT;

/// The number that digits are, or one more than the greatest of a repeat where it is greater.
#[tactic(auto, using(crate::proofs::NumberLemmas::capped_number))]
pub(crate) fn number_of(digits: &[char]) -> u64
    ensures { result ≡ min (number_of digits.now) 65536 }
{
    capped_number(digits)
}

fn capped_number(digits: &[char]) -> u64
    ensures { result ≡ capped 0 digits.now }
{
    let mut number: u64 = 0;
    for digit in digits {
        number = with_digit(number, *digit);
    }
    number
}

/// The number with one more digit, up to the greatest that is kept.
fn with_digit(number: u64, digit: char) -> u64
    requires { number ≤ 65536 }
    ensures { result ≡ min (number * 10 + (digit - 48)) 65536 }
{
    (number * 10 + u64::from(u32::from(digit).saturating_sub(48))).min(REPEAT + 1)
}

/// Which of two numbers is greater that have as many digits, behind what was said of the digits before them.
fn compared(before: Ordering, one: &[char], other: &[char]) -> Ordering
    requires { length one.now ≡ length other.now }
    ensures { result ≡ compared before one.now other.now }
{
    let mut order = before;
    for at in 0..one.len() {
        order = order.then(one[at].cmp(&other[at]));
    }
    order
}

/// The digits that one has more than the other, and those behind them.
fn parted(one: &[char], len: usize) -> (&[char], &[char])
    ensures front { result.0.now ≡ take (length one.now - len) one.now }
    ensures back { result.1.now ≡ drop (length one.now - len) one.now }
{
    one.split_at(one.len().saturating_sub(len))
}

/// Which of two numbers is greater, however many digits they have.
fn compare(one: &[char], other: &[char]) -> Ordering
    requires one { list_all is_digit one.now ≡ true }
    requires other { list_all is_digit other.now ≡ true }
    ensures { result ≡ nat_cmp (number_of one.now) (number_of other.now) }
{
    let (more, ones) = parted(one, other.len());
    let (others_more, others) = parted(other, one.len());
    let before = number_of(more).cmp(&number_of(others_more));
    compared(before, ones, others)
}

/// Whether the number is below the other, however many digits they have.
pub(crate) fn is_less(one: &[char], other: &[char]) -> bool
    requires one { list_all is_digit one.now ≡ true }
    requires other { list_all is_digit other.now ≡ true }
    ensures { MatchBool result (number_of one.now < number_of other.now)
        (number_of other.now ≤ number_of one.now) }
{
    compare(one, other).is_lt()
}
