//! The operators of scripts (ECMAScript's, over whole numbers).
ghost use Rattle.std.specs.Prelude.{◌≡◌, IfOk, Some};
ghost use Rattle.script_value.specs.declared.value.Value.{out-Value};
ghost use Rattle.script_value.specs.Truth.{same};
ghost use Rattle.vg_base.specs.Refusals.{Gives};
ghost use Rattle.tag_script.specs.declared.tag_kind.TagKind.TheVariants as tag;
ghost use Rattle.tag_script.specs.Outcomes.{or_fault, tested};
ghost use Rattle.tag_script.specs.code.Seen.{seen};
ghost use Rattle.tag_script.specs.Operators as spec;

use crate::fault::kind_fault;
use crate::numbers::{decimal, difference, negative, number, product, quotient, remainder, sum};
use crate::operator::Strict;
use crate::refused::RunRefused;
use crate::seen::Seen;
use crate::tag_kind::TagKind;
use script_value::{Value, is_true, same};
use std::alloc::Global;
use std::cmp::Ordering;
use vg_base::{Memory, Text, UnOp};

/// The value, where it is within the limits of values.
pub(crate) fn tested(value: Value) -> Result<Value, RunRefused>
    ensures { Gives result (tested value) }
{
    match value.first_limit() {
        None => Ok(value),
        Some(limit) => Err(RunRefused::Fault(TagKind::of_limit(limit))),
    }
}

/// The text that `+` joins to another; lists and records have none.
fn text_of(alloc: Global, value: &Value) -> Result<Option<Text>, Memory>
    ensures { IfOk result (λ t. t ≡ spec.text_of (out-Value value.now)) }
{
    match value {
        Value::Null => Ok(Some(Text::of(alloc, "null")?)),
        Value::Truth(true) => Ok(Some(Text::of(alloc, "true")?)),
        Value::Truth(false) => Ok(Some(Text::of(alloc, "false")?)),
        Value::Number(n) => Ok(Some(decimal(alloc, *n)?)),
        Value::Str(text) => Ok(Some(text.copy()?)),
        _ => Ok(None),
    }
}

fn is_string(value: &Value) -> bool
    ensures { result ≡ spec.is_string (out-Value value.now) }
{
    matches!(value, Value::Str(_))
}

/// The text with that of another value behind it.
fn grown(alloc: Global, text: Text, right: &Value) -> Result<Value, RunRefused>
    ensures { Gives result (spec.joined (Some text) (spec.text_of (out-Value right.now))) }
{
    let mut text = text;
    let Some(more) = text_of(alloc, right)? else {
        return kind_fault();
    };
    text.push_str(more.as_str())?;
    tested(Value::Str(text))
}

fn joined(alloc: Global, left: &Value, right: &Value) -> Result<Value, RunRefused>
    ensures { Gives result (spec.joined (spec.text_of (out-Value left.now)) (spec.text_of (out-Value right.now))) }
{
    let Some(text) = text_of(alloc, left)? else {
        return kind_fault();
    };
    grown(alloc, text, right)
}

fn added(alloc: Global, left: &Value, right: &Value) -> Result<Value, RunRefused>
    ensures { Gives result (spec.sum (out-Value left.now) (out-Value right.now)) }
{
    match (left, right) {
        (Value::Number(a), Value::Number(b)) => sum(*a, *b),
        _ => {
            if is_string(left) || is_string(right) {
                joined(alloc, left, right)
            } else {
                kind_fault()
            }
        }
    }
}

/// A string that was made grows in place.
fn added_to(alloc: Global, left: Value, right: &Value) -> Result<Value, RunRefused>
    ensures { Gives result (spec.sum (out-Value left) (out-Value right.now)) }
{
    match left {
        Value::Str(text) => grown(alloc, text, right),
        other => added(alloc, &other, right),
    }
}

/// `+`
pub(crate) fn add(alloc: Global, left: Seen, right: &Value) -> Result<Value, RunRefused>
    ensures { Gives result (spec.sum (out-Value (seen left.entry)) (out-Value right.now)) }
{
    match left {
        Seen::Lent(value) => added(alloc, value, right),
        Seen::Made(value) => added_to(alloc, value, right),
    }
}

fn numbers(left: &Value, right: &Value) -> Result<(i64, i64), RunRefused>
    ensures { Gives result (or_fault tag.Kind (spec.numbers (out-Value left.now) (out-Value right.now))) }
{
    match (left, right) {
        (Value::Number(a), Value::Number(b)) => Ok((*a, *b)),
        _ => kind_fault(),
    }
}

fn order_of(left: &Value, right: &Value) -> Result<Ordering, RunRefused>
    ensures { Gives result (or_fault tag.Kind (spec.order_of (out-Value left.now) (out-Value right.now))) }
{
    match (left, right) {
        (Value::Number(a), Value::Number(b)) => Ok(a.cmp(b)),
        (Value::Str(a), Value::Str(b)) => Ok(a.cmp(b)),
        _ => kind_fault(),
    }
}

fn sameness(left: &Value, right: &Value) -> Result<bool, RunRefused>
    ensures { Gives result (or_fault tag.Kind (same left.now right.now)) }
{
    match same(left, right) {
        Some(answer) => Ok(answer),
        None => kind_fault(),
    }
}

/// An operator between two values.
pub(crate) fn strict(operator: Strict, left: &Value, right: &Value) -> Result<Value, RunRefused>
    ensures { Gives result (spec.strict operator left.now right.now) }
{
    match operator {
        Strict::Sub => {
            let (a, b) = numbers(left, right)?;
            difference(a, b)
        }
        Strict::Mul => {
            let (a, b) = numbers(left, right)?;
            product(a, b)
        }
        Strict::Div => {
            let (a, b) = numbers(left, right)?;
            quotient(a, b)
        }
        Strict::Rem => {
            let (a, b) = numbers(left, right)?;
            remainder(a, b)
        }
        Strict::Lt => Ok(Value::Truth(order_of(left, right)?.is_lt())),
        Strict::Le => Ok(Value::Truth(order_of(left, right)?.is_le())),
        Strict::Gt => Ok(Value::Truth(order_of(left, right)?.is_gt())),
        Strict::Ge => Ok(Value::Truth(order_of(left, right)?.is_ge())),
        Strict::Eq => Ok(Value::Truth(sameness(left, right)?)),
        Strict::Ne => Ok(Value::Truth(!sameness(left, right)?)),
    }
}

/// An operator before a value.
pub(crate) fn unary(operator: UnOp, value: &Value) -> Result<Value, RunRefused>
    ensures { Gives result (spec.unary operator value.now) }
{
    match operator {
        UnOp::Neg => match value {
            Value::Number(n) => negative(*n),
            _ => kind_fault(),
        },
        UnOp::Plus => match value {
            Value::Number(n) => number(*n),
            _ => kind_fault(),
        },
        UnOp::Not => Ok(Value::Truth(!is_true(value))),
    }
}
