ghost use Rattle.std.specs.Prelude.{◌≡◌, IfOk, option_map};
ghost use Rattle.serde_json.specs.View.{view};
ghost use Rattle.vg_base.specs.Refusals.{Gives};
ghost use Rattle.command_reader.specs.Answer.{answer_to, or_not_command, value_of};
ghost use Rattle.command_reader.specs.Facts.{IsCalled};
ghost use Rattle.command_reader.specs.Table.{called_of, command_of, row_of};

use crate::command::{Called, Command};
use crate::members::area_at;
use crate::refused::{LineFault, LineRefused};
use crate::rows::{
    read_activate, read_deactivate, read_drop, read_match, read_name, read_publish, read_put,
    read_run, read_try,
};
use serde_json::{Category, Value};
use std::alloc::Global;
use vg_base::{Memory, Refused};

/// The command of a line.
pub fn read_command(alloc: Global, line: &[u8]) -> Result<Called, LineRefused>
    ensures answer { Gives result (answer_to line.now) }
    ensures called { IfOk result IsCalled }
{
    match read_value(alloc, line)? {
        Some(value) => called(alloc, &value),
        None => Err(Refused::Fault(LineFault::BadJson)),
    }
}

/// The JSON value of a line, if it is one.
fn read_value(alloc: Global, line: &[u8]) -> Result<Option<Value>, Memory>
    ensures { IfOk result (λ value. option_map view value ≡ value_of line.now) }
{
    match Value::from_slice(alloc, line) {
        Ok(value) => Ok(Some(value)),
        Err(error) => match error.classify() {
            Category::Memory => Err(Memory),
            _ => Ok(None),
        },
    }
}

/// The command that a value is, with its area.
fn called(alloc: Global, value: &Value) -> Result<Called, LineRefused>
    ensures { Gives result (or_not_command (command_of (view value.now))) }
{
    match value.get("do").and_then(Value::as_str) {
        Some(verb) => called_at(alloc, value, verb),
        None => Err(Refused::Fault(LineFault::NotCommand)),
    }
}

/// The command that a value is by the row of its verb, with its area.
fn called_at(alloc: Global, value: &Value, verb: &str) -> Result<Called, LineRefused>
    ensures { Gives result (or_not_command (called_of (view value.now) verb.now)) }
{
    let area = area_at(value)?;
    let command = command_at(alloc, value, verb)?;
    Ok(Called { area, command })
}

/// The command that a value is, by the row of its verb.
fn command_at(alloc: Global, value: &Value, verb: &str) -> Result<Command, LineRefused>
    ensures { Gives result (or_not_command (row_of verb.now (view value.now))) }
{
    match verb {
        "put" => read_put(alloc, value),
        "drop" => read_drop(alloc, value),
        "publish" => read_publish(alloc, value),
        "open" => Ok(Command::Open(read_name(alloc, value)?)),
        "close" => Ok(Command::Close(read_name(alloc, value)?)),
        "activate" => read_activate(alloc, value),
        "deactivate" => read_deactivate(alloc, value),
        "match" => read_match(alloc, value),
        "try" => read_try(alloc, value),
        "run" => read_run(value),
        _ => Err(Refused::Fault(LineFault::NotCommand)),
    }
}
