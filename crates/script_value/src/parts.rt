ghost use Rattle.std.specs.Prelude.{◌≡◌, slice_get};
ghost use Rattle.std.specs.Option.{option_copied};
ghost use Rattle.script_value.specs.Parts.{item, member};

use crate::value::Value;
use vg_base::Text;

impl Value {
    /// The member of a record at this key. No other value has one.
    pub fn member(&self, key: &Text) -> Option<&Value>
        ensures { option_copied result ≡ member key.now self.now }
    {
        match self {
            Value::Record(members) => members.get(key),
            _ => None,
        }
    }

    /// The item of a list at this number, counted from 0. No other value has one.
    pub fn item(&self, number: i64) -> Option<&Value>
        ensures { option_copied result ≡ item number self.now }
    {
        let Ok(index) = usize::try_from(number) else {
            return None;
        };
        match self {
            Value::List(values) => item_at(values.as_slice(), index),
            _ => None,
        }
    }
}

fn item_at(values: &[Value], index: usize) -> Option<&Value>
    ensures { option_copied result ≡ slice_get values.now index }
{
    values.get(index)
}
