ghost use Rattle.std.specs.Prelude.{◌≡◌, IfOk, OnOk, OnErr};
ghost use Rattle.vg_base.specs.Pairs.{put};

use sqlite_items::Items;
use std::alloc::Global;
use vg_base::{Memory, Text, TextMap};

/// A value of the scripts in tags (SISR 1.0). Numbers are whole.
#[derive(Debug, Drop)]
pub enum Value {
    Null,
    Truth(bool),
    Number(i64),
    Str(Text),
    List(Items<Value>),
    Record(TextMap<Value>),
}

impl Value {
    /// An equal value.
    #[cycle(copy)]
    pub fn copy(&self, alloc: Global) -> Result<Value, Memory>
        ensures { IfOk result (λ copy. copy ≡ self.now) }
    {
        match self {
            Value::Null => Ok(Value::Null),
            Value::Truth(truth) => Ok(Value::Truth(*truth)),
            Value::Number(number) => Ok(Value::Number(*number)),
            Value::Str(text) => Ok(Value::Str(text.copy()?)),
            Value::List(values) => Ok(Value::List(copy_list(alloc, values.as_slice())?)),
            Value::Record(members) => Ok(Value::Record(copy_record(alloc, members)?)),
        }
    }
}

#[cycle(copy)]
fn copy_list(alloc: Global, values: &[Value]) -> Result<Items<Value>, Memory>
    ensures { IfOk result (λ copy. copy ≡ values.now) }
{
    let mut copy = Items::new(alloc);
    for value in values {
        copy.push(value.copy(alloc)?)?;
    }
    Ok(copy)
}

#[cycle(copy)]
fn copy_record(alloc: Global, members: &TextMap<Value>) -> Result<TextMap<Value>, Memory>
    ensures { IfOk result (λ copy. copy ≡ members.now) }
{
    let mut copy = TextMap::new(alloc);
    for (key, value) in members.iter() {
        put_member(&mut copy, key.copy()?, value.copy(alloc)?)?;
    }
    Ok(copy)
}

/// Gives the key this value. The one that it had is dropped.
pub fn put_member(members: &mut TextMap<Value>, key: Text, value: Value) -> Result<(), Memory>
    ensures ok { OnOk result (members.new ≡ put key value members.old) }
    ensures err { OnErr result (members.new ≡ members.old) }
{
    members.set(key, value)?;
    Ok(())
}

fn crosses<T: Send + Sync>() {}

/// Values may go to other threads, and be seen by several.
fn values_cross() {
    crosses::<Value>();
}
