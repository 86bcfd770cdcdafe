//! How large values are, in one walk, and in parts: of a list from its items, of a record from its members.
ghost use Rattle.std.specs.Prelude.{◌≡◌, ◌∷◌, ◌++◌, List};
ghost use Rattle.vg_base.specs.Characters.{byte_len};
ghost use Rattle.script_value.specs.declared.measures.Measures.{Measures};
ghost use Rattle.script_value.specs.declared.value.Value.{Value};
ghost use Rattle.script_value.specs.Measures as spec;

use crate::value::Value;
use vg_base::{Text, TextMap};

/// How large a value is, or the items of a list or the members of a record are together.
/// Each number is counted up to the greatest of 64 bits.
#[derive(Clone, Copy, Debug, PartialEq, Eq)]
pub struct Measures {
    /// Bytes of the longest string in UTF-8. Keys don't count.
    pub text: u64,
    /// Values, with all that they hold.
    pub values: u64,
    /// Bytes of all strings and keys in UTF-8.
    pub bytes: u64,
    /// How deep the deepest value nests; a value without parts is one deep.
    pub depth: u64,
}

impl Measures {
    /// Of no parts.
    pub fn none() -> Measures
        ensures { result ≡ spec.no_parts }
    {
        Measures {
            text: 0,
            values: 0,
            bytes: 0,
            depth: 0,
        }
    }

    /// Of these parts and one more.
    pub fn with(self, part: Measures) -> Measures
        ensures { result ≡ spec.both self part }
    {
        Measures {
            text: self.text.max(part.text),
            values: self.values.saturating_add(part.values),
            bytes: self.bytes.saturating_add(part.bytes),
            depth: self.depth.max(part.depth),
        }
    }

    /// Of these parts and one more key.
    pub fn with_key(self, key: &Text) -> Measures
        ensures { result ≡ spec.with_key key.now self }
    {
        Measures {
            text: self.text,
            values: self.values,
            bytes: self.bytes.saturating_add(key.byte_len()),
            depth: self.depth,
        }
    }

    /// Of the list or the record that has these parts.
    pub fn around(self) -> Measures
        ensures { result ≡ spec.around self }
    {
        Measures {
            text: self.text,
            values: self.values.saturating_add(1),
            bytes: self.bytes,
            depth: self.depth.saturating_add(1),
        }
    }
}

impl Value {
    /// How large the value is.
    #[cycle(measures)]
    pub fn measures(&self) -> Measures
        ensures { result ≡ spec.measures self.now }
    {
        match self {
            Value::Str(text) => of_text(text.byte_len()),
            Value::List(values) => of_items(values.as_slice()).around(),
            Value::Record(members) => of_members(members).around(),
            _ => Measures::none().around(),
        }
    }
}

fn of_text(bytes: u64) -> Measures
    ensures { result ≡ spec.of_text bytes }
{
    Measures {
        text: bytes,
        values: 1,
        bytes,
        depth: 1,
    }
}

#[cycle(measures)]
fn of_items(values: &[Value]) -> Measures
    ensures { result ≡ spec.of_items values.now }
{
    let mut all = Measures::none();
    for value in values {
        all = all.with(value.measures());
    }
    all
}

/// Of the members of a record together.
#[cycle(measures)]
pub fn of_members(members: &TextMap<Value>) -> Measures
    ensures { result ≡ spec.of_members members.now }
{
    let mut all = Measures::none();
    for (key, value) in members.iter() {
        all = all.with_key(key).with(value.measures());
    }
    all
}
