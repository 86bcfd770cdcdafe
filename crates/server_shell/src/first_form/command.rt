//! Reads a line as one of the commands that are answered today.
ghost use Rattle.std.specs.Prelude.{◌≡◌, ◌==◌, IfOk, Some, None, Err, Ok};
ghost use Rattle.serde_json.specs.View.{view, items_view};
ghost use Rattle.vg_base.specs.declared.refused.Refused.TheVariants as refused;
ghost use Rattle.server_shell.specs.first_form.Commands.{GivesIfThere, command_in, command_of, has_members, no_command, publish_row, put_row, row_of, run_row, text_at, text_of, texts_at, texts_of, try_row, value_of};

use serde_json::{Category, Value};
use sqlite_items::Items;
use std::alloc::Global;
use std::fmt;
use vg_base::{Refused, Text};

/// A command.
#[derive(Debug, Drop)]
pub enum Command {
    Put { uri: Text, text: Text },
    Publish { entries: Items<Text> },
    Try { uri: Text, tokens: Items<Text> },
    Run,
}

/// The line is none of the commands.
#[derive(Clone, Copy, Debug, PartialEq, Eq)]
pub struct NoCommand;

impl fmt::Display for NoCommand {
    fn fmt<W: fmt::Write>(&self, f: &mut fmt::Formatter<W>) -> fmt::Result {
        f.write_str("no command")
    }
}

/// Why a line gives no command.
pub type Unread = Refused<NoCommand>;

/// The command of a line.
pub fn read_command(alloc: Global, line: &[u8]) -> Result<Command, Unread>
    ensures { GivesIfThere result (command_in line.now) }
{
    let value = read_value(alloc, line)?;
    command_of(alloc, &value)
}

fn read_value(alloc: Global, line: &[u8]) -> Result<Value, Unread>
    ensures value { IfOk result (λ v. value_of line.now ≡ Some (view v)) }
    ensures none { result ≡ Err (refused.Fault no_command) → value_of line.now ≡ None }
{
    match Value::from_slice(alloc, line) {
        Ok(value) => Ok(value),
        Err(error) => match error.classify() {
            Category::Memory => Err(Refused::Memory),
            _ => Err(Refused::Fault(NoCommand)),
        },
    }
}

fn command_of(alloc: Global, value: &Value) -> Result<Command, Unread>
    ensures { GivesIfThere result (command_of (view value.now)) }
{
    let Some(verb) = value.get("do").and_then(Value::as_str) else {
        return Err(Refused::Fault(NoCommand));
    };
    if verb == "put" {
        return read_put(alloc, value);
    }
    if verb == "publish" {
        return read_publish(alloc, value);
    }
    if verb == "try" {
        return read_try(alloc, value);
    }
    if verb == "run" {
        return read_run(value);
    }
    Err(Refused::Fault(NoCommand))
}

fn read_put(alloc: Global, value: &Value) -> Result<Command, Unread>
    ensures { GivesIfThere result (put_row (view value.now)) }
{
    if !has_members(value, 3) {
        return Err(Refused::Fault(NoCommand));
    }
    let uri = text_at(alloc, value, "uri")?;
    let text = text_at(alloc, value, "text")?;
    Ok(Command::Put { uri, text })
}

fn read_publish(alloc: Global, value: &Value) -> Result<Command, Unread>
    ensures { GivesIfThere result (publish_row (view value.now)) }
{
    if !has_members(value, 2) {
        return Err(Refused::Fault(NoCommand));
    }
    let entries = texts_at(alloc, value, "entries")?;
    Ok(Command::Publish { entries })
}

fn read_try(alloc: Global, value: &Value) -> Result<Command, Unread>
    ensures { GivesIfThere result (try_row (view value.now)) }
{
    if !has_members(value, 3) {
        return Err(Refused::Fault(NoCommand));
    }
    let uri = text_at(alloc, value, "uri")?;
    let tokens = texts_at(alloc, value, "tokens")?;
    Ok(Command::Try { uri, tokens })
}

fn read_run(value: &Value) -> Result<Command, Unread>
    ensures { GivesIfThere result (run_row (view value.now)) }
{
    if has_members(value, 1) {
        Ok(Command::Run)
    } else {
        Err(Refused::Fault(NoCommand))
    }
}

fn has_members(value: &Value, count: usize) -> bool
    ensures { result ≡ has_members count (view value.now) }
{
    match value.as_object() {
        Some(members) => members.len() == count,
        None => false,
    }
}

fn text_of(alloc: Global, value: &Value) -> Result<Text, Unread>
    ensures { GivesIfThere result (text_of (view value.now)) }
{
    match value.as_str() {
        Some(text) => Ok(Text::of(alloc, text)?),
        None => Err(Refused::Fault(NoCommand)),
    }
}

fn text_at(alloc: Global, value: &Value, name: &str) -> Result<Text, Unread>
    ensures { GivesIfThere result (text_at name.now (view value.now)) }
{
    match value.get(name) {
        Some(member) => text_of(alloc, member),
        None => Err(Refused::Fault(NoCommand)),
    }
}

fn texts_of(alloc: Global, values: &[Value]) -> Result<Items<Text>, Unread>
    ensures { GivesIfThere result (texts_of (items_view values.now)) }
{
    let mut texts = Items::new(alloc);
    for value in values {
        texts.push(text_of(alloc, value)?)?;
    }
    Ok(texts)
}

fn texts_at(alloc: Global, value: &Value, name: &str) -> Result<Items<Text>, Unread>
    ensures { GivesIfThere result (texts_at name.now (view value.now)) }
{
    match value.get(name).and_then(Value::as_array) {
        Some(values) => texts_of(alloc, values.as_slice()),
        None => Err(Refused::Fault(NoCommand)),
    }
}
