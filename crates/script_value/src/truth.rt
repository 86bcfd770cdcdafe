//! What values say as tests, and the operator `==` of scripts.
ghost use Rattle.std.specs.Prelude.{◌≡◌, ◌↔◌, IsTrue, IfSome};
ghost use Rattle.script_value.specs.Truth.{is_true, same};

use crate::value::Value;

/// What the value says as a test: false, 0, the empty string and null are false, all else is true.
pub fn is_true(value: &Value) -> bool
    ensures { result ≡ is_true value.now }
{
    match value {
        Value::Null => false,
        Value::Truth(truth) => *truth,
        Value::Number(number) => *number != 0,
        Value::Str(text) => text.byte_len() > 0,
        Value::List(_) => true,
        Value::Record(_) => true,
    }
}

/// Whether two values are the same by `==`, which has no answer for two lists and for two records.
pub fn same(left: &Value, right: &Value) -> Option<bool>
    ensures answer { result ≡ same left.now right.now }
    ensures equal { IfSome result (λ answer. IsTrue answer ↔ (left.now ≡ right.now)) }
{
    match (left, right) {
        (Value::Null, Value::Null) => Some(true),
        (Value::Truth(this), Value::Truth(that)) => Some(*this == *that),
        (Value::Number(this), Value::Number(that)) => Some(*this == *that),
        (Value::Str(this), Value::Str(that)) => Some(*this == *that),
        (Value::List(_), Value::List(_)) => None,
        (Value::Record(_), Value::Record(_)) => None,
        _ => Some(false),
    }
}
