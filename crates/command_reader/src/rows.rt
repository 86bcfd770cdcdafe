//! One function for each row of the table of commands.
ghost use Rattle.serde_json.specs.View.{view};
ghost use Rattle.vg_base.specs.Refusals.{Gives};
ghost use Rattle.command_reader.specs.Answer.{or_not_command};
ghost use Rattle.command_reader.specs.Table.{activate_row, asked_at, deactivate_row, drop_row, match_row, name_row, publish_row, put_row, rule_row, run_row, try_row};

use crate::command::{AdminCommand, Command, MatchLine, SessionCommand, TryCommand};
use crate::members::{best_at, entries_at, has_only, line_at, rule_at, session_at, text_at};
use crate::refused::{LineFault, LineRefused};
use serde_json::Value;
use std::alloc::Global;
use vg_base::{Refused, Text};

pub fn read_put(alloc: Global, value: &Value) -> Result<Command, LineRefused>
    ensures { Gives result (or_not_command (put_row (view value.now))) }
{
    if !has_only(value, &["do", "area", "uri", "text"]) {
        return Err(Refused::Fault(LineFault::NotCommand));
    }
    let uri = text_at(alloc, value, "uri")?;
    let text = text_at(alloc, value, "text")?;
    Ok(Command::Admin(AdminCommand::Put { uri, text }))
}

pub fn read_drop(alloc: Global, value: &Value) -> Result<Command, LineRefused>
    ensures { Gives result (or_not_command (drop_row (view value.now))) }
{
    if !has_only(value, &["do", "area", "uri"]) {
        return Err(Refused::Fault(LineFault::NotCommand));
    }
    let uri = text_at(alloc, value, "uri")?;
    Ok(Command::Admin(AdminCommand::Drop { uri }))
}

pub fn read_publish(alloc: Global, value: &Value) -> Result<Command, LineRefused>
    ensures { Gives result (or_not_command (publish_row (view value.now))) }
{
    if !has_only(value, &["do", "area", "entries"]) {
        return Err(Refused::Fault(LineFault::NotCommand));
    }
    let entries = entries_at(alloc, value)?;
    Ok(Command::Admin(AdminCommand::Publish { entries }))
}

/// The name of the session that is opened or closed.
pub fn read_name(alloc: Global, value: &Value) -> Result<Text, LineRefused>
    ensures { Gives result (or_not_command (name_row (view value.now))) }
{
    if !has_only(value, &["do", "area", "session"]) {
        return Err(Refused::Fault(LineFault::NotCommand));
    }
    session_at(alloc, value)
}

/// The session's name, the document and the rule of an activate or a deactivate.
fn read_rule(alloc: Global, value: &Value) -> Result<(Text, Text, Option<Text>), LineRefused>
    ensures { Gives result (or_not_command (rule_row (view value.now))) }
{
    if !has_only(value, &["do", "area", "session", "uri", "rule"]) {
        return Err(Refused::Fault(LineFault::NotCommand));
    }
    let name = session_at(alloc, value)?;
    let uri = text_at(alloc, value, "uri")?;
    let rule = rule_at(alloc, value)?;
    Ok((name, uri, rule))
}

pub fn read_activate(alloc: Global, value: &Value) -> Result<Command, LineRefused>
    ensures { Gives result (or_not_command (activate_row (view value.now))) }
{
    let (name, uri, rule) = read_rule(alloc, value)?;
    let command = SessionCommand::Activate { uri, rule };
    Ok(Command::ForSession { name, command })
}

pub fn read_deactivate(alloc: Global, value: &Value) -> Result<Command, LineRefused>
    ensures { Gives result (or_not_command (deactivate_row (view value.now))) }
{
    let (name, uri, rule) = read_rule(alloc, value)?;
    let command = SessionCommand::Deactivate { uri, rule };
    Ok(Command::ForSession { name, command })
}

/// What is matched, and how many parses are asked for, if that is said.
fn read_asked(alloc: Global, value: &Value) -> Result<(MatchLine, Option<u32>), LineRefused>
    ensures { Gives result (or_not_command (asked_at (view value.now))) }
{
    let line = line_at(alloc, value)?;
    let best = best_at(value)?;
    Ok((line, best))
}

pub fn read_match(alloc: Global, value: &Value) -> Result<Command, LineRefused>
    ensures { Gives result (or_not_command (match_row (view value.now))) }
{
    if !has_only(value, &["do", "area", "session", "tokens", "keys", "best"]) {
        return Err(Refused::Fault(LineFault::NotCommand));
    }
    let name = session_at(alloc, value)?;
    let (line, best) = read_asked(alloc, value)?;
    let command = SessionCommand::Match { line, best };
    Ok(Command::ForSession { name, command })
}

pub fn read_try(alloc: Global, value: &Value) -> Result<Command, LineRefused>
    ensures { Gives result (or_not_command (try_row (view value.now))) }
{
    if !has_only(
        value,
        &["do", "area", "uri", "rule", "tokens", "keys", "best"],
    ) {
        return Err(Refused::Fault(LineFault::NotCommand));
    }
    let uri = text_at(alloc, value, "uri")?;
    let rule = rule_at(alloc, value)?;
    let (line, best) = read_asked(alloc, value)?;
    Ok(Command::Try(TryCommand {
        uri,
        rule,
        line,
        best,
    }))
}

pub fn read_run(value: &Value) -> Result<Command, LineRefused>
    ensures { Gives result (or_not_command (run_row (view value.now))) }
{
    if has_only(value, &["do"]) {
        Ok(Command::Run)
    } else {
        Err(Refused::Fault(LineFault::NotCommand))
    }
}
