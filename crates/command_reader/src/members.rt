//! What the members of a command's object say.
ghost use Rattle.std.specs.Prelude.{◌≡◌, ◌<◌, ◌^◌, map};
ghost use Rattle.std.specs.List.{list_any};
ghost use Rattle.std.specs.Str.{bytes_eq};
ghost use Rattle.serde_json.specs.View.{view, items_view, members_view};
ghost use Rattle.vg_base.specs.Refusals.{Gives};
ghost use Rattle.command_reader.specs.Answer.{or_not_command};
ghost use Rattle.command_reader.specs.Members.{area_at, best_at, entries_at, has_only, line_at, list_of, named_within, number_of, rule_at, session_at, text_at, text_of, texts_of};

use crate::command::MatchLine;
use crate::refused::{LineFault, LineRefused};
use serde_json::{Map, Value};
use std::alloc::Global;
use vg_base::limits::{ENTRIES, LAST_AREA, PARSES, SESSION_NAME_BYTES};
use vg_base::{Area, Items, Refused, Text};

/// Whether a name is one of these.
fn is_one_of(name: &str, names: &[&str]) -> bool
    ensures { result ≡ list_any (bytes_eq name.now) (map (λ n. n.now) names.now) }
{
    names.iter().any(|other| name == *other)
}

/// Whether each member has one of these names.
fn are_named(members: &Map<String, Value>, names: &[&str]) -> bool
    ensures { result
        ≡ named_within (map (λ n. n.now) names.now) (members_view members.now.entries) }
{
    members.keys().all(|name| is_one_of(name.as_str(), names))
}

/// Whether the value is an object, and each of its members has one of these names.
pub fn has_only(value: &Value, names: &[&str]) -> bool
    ensures { result ≡ has_only (map (λ n. n.now) names.now) (view value.now) }
{
    match value.as_object() {
        Some(members) => are_named(members, names),
        None => false,
    }
}

fn text_of(alloc: Global, value: &Value) -> Result<Text, LineRefused>
    ensures { Gives result (or_not_command (text_of (view value.now))) }
{
    match value.as_str() {
        Some(text) => Ok(Text::of(alloc, text)?),
        None => Err(Refused::Fault(LineFault::NotCommand)),
    }
}

fn texts_of(alloc: Global, values: &[Value]) -> Result<Items<Text>, LineRefused>
    ensures { Gives result (or_not_command (texts_of (items_view values.now))) }
{
    let mut texts = Items::new(alloc);
    for value in values {
        texts.push(text_of(alloc, value)?)?;
    }
    Ok(texts)
}

fn list_of(alloc: Global, value: &Value) -> Result<Items<Text>, LineRefused>
    ensures { Gives result (or_not_command (list_of (view value.now))) }
{
    match value.as_array() {
        Some(values) => texts_of(alloc, values.as_slice()),
        None => Err(Refused::Fault(LineFault::NotCommand)),
    }
}

/// A number within bounds.
fn number_of(value: &Value, low: u64, high: u64) -> Result<u32, LineRefused>
    requires { high < 2 ^ 32 }
    ensures { Gives result (or_not_command (number_of low high (view value.now))) }
{
    match value.as_u64() {
        Some(number) if low <= number && number <= high => Ok(number as u32),
        _ => Err(Refused::Fault(LineFault::NotCommand)),
    }
}

/// The text of the member of this name.
pub fn text_at(alloc: Global, value: &Value, name: &str) -> Result<Text, LineRefused>
    ensures { Gives result (or_not_command (text_at name.now (view value.now))) }
{
    match value.get(name) {
        Some(member) => text_of(alloc, member),
        None => Err(Refused::Fault(LineFault::NotCommand)),
    }
}

/// The name of a session, which has at least one byte.
pub fn session_at(alloc: Global, value: &Value) -> Result<Text, LineRefused>
    ensures { Gives result (or_not_command (session_at (view value.now))) }
{
    let name = text_at(alloc, value, "session")?;
    let len = name.byte_len();
    if 1 <= len && len <= SESSION_NAME_BYTES {
        Ok(name)
    } else {
        Err(Refused::Fault(LineFault::NotCommand))
    }
}

/// The entries of a publish.
pub fn entries_at(alloc: Global, value: &Value) -> Result<Items<Text>, LineRefused>
    ensures { Gives result (or_not_command (entries_at (view value.now))) }
{
    let Some(member) = value.get("entries") else {
        return Err(Refused::Fault(LineFault::NotCommand));
    };
    let entries = list_of(alloc, member)?;
    if entries.len() as u64 <= ENTRIES {
        Ok(entries)
    } else {
        Err(Refused::Fault(LineFault::NotCommand))
    }
}

/// The rule that is named, or None where the root is meant.
pub fn rule_at(alloc: Global, value: &Value) -> Result<Option<Text>, LineRefused>
    ensures { Gives result (or_not_command (rule_at (view value.now))) }
{
    match value.get("rule") {
        Some(member) => Ok(Some(text_of(alloc, member)?)),
        None => Ok(None),
    }
}

/// How many parses are asked for, if that is said.
pub fn best_at(value: &Value) -> Result<Option<u32>, LineRefused>
    ensures { Gives result (or_not_command (best_at (view value.now))) }
{
    match value.get("best") {
        Some(member) => Ok(Some(number_of(member, 1, PARSES)?)),
        None => Ok(None),
    }
}

/// The area, which is the first where none is named.
pub fn area_at(value: &Value) -> Result<Area, LineRefused>
    ensures { Gives result (or_not_command (area_at (view value.now))) }
{
    match value.get("area") {
        Some(member) => Ok(Area(number_of(member, 0, LAST_AREA)?)),
        None => Ok(Area(0)),
    }
}

/// The tokens or the keys.
pub fn line_at(alloc: Global, value: &Value) -> Result<MatchLine, LineRefused>
    ensures { Gives result (or_not_command (line_at (view value.now))) }
{
    match (value.get("tokens"), value.get("keys")) {
        (Some(tokens), None) => Ok(MatchLine::Tokens(list_of(alloc, tokens)?)),
        (None, Some(keys)) => Ok(MatchLine::Keys(text_of(alloc, keys)?)),
        _ => Err(Refused::Fault(LineFault::NotCommand)),
    }
}
