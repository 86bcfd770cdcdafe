//! Whole numbers within the limits of scripts, and their operators.
ghost use Rattle.std.specs.Prelude.{◌≡◌, ◌+ℤ◌, ◌-ℤ◌, ◌*ℤ◌, neg_ℤ, pos, IfOk};
ghost use Rattle.std.specs.Fmt.{signed_decimal};
ghost use Rattle.vg_base.specs.Refusals.{Gives};
ghost use Rattle.tag_script.specs.Operators as spec;

use crate::refused::RunRefused;
use crate::tag_kind::TagKind;
use script_value::Value;
use std::alloc::Global;
use vg_base::limits::SCRIPT_NUMBER;
use vg_base::{Memory, Text};

/// A number, which has to be within the limits.
pub(crate) fn number(n: i64) -> Result<Value, RunRefused>
    ensures { Gives result (spec.number n) }
{
    if n.unsigned_abs() <= SCRIPT_NUMBER {
        Ok(Value::Number(n))
    } else {
        Err(RunRefused::Fault(TagKind::Range))
    }
}

/// A number of things.
#[tactic(auto, using(crate::proofs::Bounds::past))]
pub(crate) fn count(n: usize) -> Result<Value, RunRefused>
    ensures { Gives result (spec.number (pos n)) }
{
    match i64::try_from(n) {
        Ok(n) => number(n),
        Err(_) => Err(RunRefused::Fault(TagKind::Range)),
    }
}

#[tactic(auto, using(crate::proofs::Bounds::past))]
pub(crate) fn sum(a: i64, b: i64) -> Result<Value, RunRefused>
    ensures { Gives result (spec.number (a +ℤ b)) }
{
    match a.checked_add(b) {
        Some(n) => number(n),
        None => Err(RunRefused::Fault(TagKind::Range)),
    }
}

#[tactic(auto, using(crate::proofs::Bounds::past))]
pub(crate) fn difference(a: i64, b: i64) -> Result<Value, RunRefused>
    ensures { Gives result (spec.number (a -ℤ b)) }
{
    match a.checked_sub(b) {
        Some(n) => number(n),
        None => Err(RunRefused::Fault(TagKind::Range)),
    }
}

#[tactic(auto, using(crate::proofs::Bounds::past))]
pub(crate) fn product(a: i64, b: i64) -> Result<Value, RunRefused>
    ensures { Gives result (spec.number (a *ℤ b)) }
{
    match a.checked_mul(b) {
        Some(n) => number(n),
        None => Err(RunRefused::Fault(TagKind::Range)),
    }
}

/// The quotient, which has to be whole.
pub(crate) fn quotient(a: i64, b: i64) -> Result<Value, RunRefused>
    ensures { Gives result (spec.quotient a b) }
{
    if b == 0 || a.wrapping_rem(b) != 0 {
        return Err(RunRefused::Fault(TagKind::Fraction));
    }
    match a.checked_div(b) {
        Some(n) => number(n),
        None => Err(RunRefused::Fault(TagKind::Range)),
    }
}

/// The remainder, with the sign of the dividend.
pub(crate) fn remainder(a: i64, b: i64) -> Result<Value, RunRefused>
    ensures { Gives result (spec.remainder a b) }
{
    if b == 0 {
        Err(RunRefused::Fault(TagKind::Fraction))
    } else {
        number(a.wrapping_rem(b))
    }
}

#[tactic(auto, using(crate::proofs::Bounds::past))]
pub(crate) fn negative(a: i64) -> Result<Value, RunRefused>
    ensures { Gives result (spec.number (neg_ℤ a)) }
{
    match a.checked_neg() {
        Some(n) => number(n),
        None => Err(RunRefused::Fault(TagKind::Range)),
    }
}

/// The decimal text of a number, with `-` before a negative one.
pub(crate) fn decimal(alloc: Global, n: i64) -> Result<Text, Memory>
    ensures { IfOk result (λ t. t ≡ signed_decimal n) }
{
    let digits = n.to_string(alloc)?;
    Text::of(alloc, digits.as_str())
}
