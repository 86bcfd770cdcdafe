ghost use Rattle.std.specs.Prelude.{◌≡◌, IfOk};
ghost use Rattle.std.specs.List.{AllByRecursion};
ghost use Rattle.std.specs.Map.{values_of};
ghost use Rattle.serde_json.specs.Data.{object};
ghost use Rattle.serde_json.specs.View.{view, items_view, members_view};
ghost use Rattle.script_value.specs.Json.{json, json_list, json_members};
ghost use Rattle.script_value.specs.Kept.{IsKept, AreKeys};

use crate::value::Value;
use serde_json::{Map, Number};
use std::alloc::Global;
use vg_base::{Memory, TextMap};

/// The JSON of a value (RFC 8259).
#[cycle(to_json)]
pub fn to_json(alloc: Global, value: &Value) -> Result<serde_json::Value, Memory>
    ensures json { IfOk result (λ j. view j ≡ json value.now) }
    ensures kept { IfOk result (λ j. IsKept value.now) }
{
    match value {
        Value::Null => Ok(serde_json::Value::Null),
        Value::Truth(truth) => Ok(serde_json::Value::Bool(*truth)),
        Value::Number(number) => Ok(serde_json::Value::Number(Number::from(*number))),
        Value::Str(text) => Ok(serde_json::Value::String(String::from_str(alloc, text.as_str())?)),
        Value::List(values) => Ok(serde_json::Value::Array(list(alloc, values.as_slice())?)),
        Value::Record(members) => Ok(serde_json::Value::Object(record(alloc, members)?)),
    }
}

#[cycle(to_json)]
fn list(alloc: Global, values: &[Value]) -> Result<Vec<serde_json::Value>, Memory>
    ensures json { IfOk result (λ all. items_view all.items ≡ json_list values.now) }
    ensures kept { IfOk result (λ all. AllByRecursion IsKept values.now) }
{
    let mut all = Vec::new(alloc);
    for value in values {
        all.push(to_json(alloc, value)?)?;
    }
    Ok(all)
}

#[cycle(to_json)]
fn record(alloc: Global, members: &TextMap<Value>) -> Result<Map<String, serde_json::Value>, Memory>
    ensures json { IfOk result (λ all. members_view all.entries ≡ json_members members.now) }
    ensures keys { IfOk result (λ all. AreKeys members.now) }
    ensures kept { IfOk result (λ all. AllByRecursion IsKept (values_of members.now)) }
{
    let mut all = Map::new(alloc);
    for (key, value) in members.iter() {
        let shown = to_json(alloc, value)?;
        serde_json::put(&mut all, alloc, key.as_str(), shown)?;
    }
    Ok(all)
}
