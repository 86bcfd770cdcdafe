use crate::{AdminCommand, Called, Command, MatchLine, SessionCommand, read_command};
use std::alloc::{AllocError, Global};
use std::test::Fail;
use vg_base::{Refused, Text};

fn rule_shown(alloc: Global, rule: &Option<Text>) -> Result<String, AllocError> {
    match rule {
        Some(rule) => format!(in alloc; "rule {}", rule.as_str()),
        None => format!(in alloc; "root"),
    }
}

fn best_shown(alloc: Global, best: Option<u32>) -> Result<String, AllocError> {
    match best {
        Some(best) => format!(in alloc; "best {best}"),
        None => format!(in alloc; "first"),
    }
}

fn texts_shown(alloc: Global, texts: &[Text]) -> Result<String, AllocError> {
    let mut line = String::new(alloc);
    for text in texts {
        line.push_str(text.as_str())?;
        line.push('|')?;
    }
    Ok(line)
}

fn line_shown(alloc: Global, line: &MatchLine) -> Result<String, AllocError> {
    match line {
        MatchLine::Tokens(tokens) => {
            let tokens = texts_shown(alloc, tokens.as_slice())?;
            format!(in alloc; "tokens {tokens}")
        }
        MatchLine::Keys(keys) => format!(in alloc; "keys {}", keys.as_str()),
    }
}

fn admin_shown(alloc: Global, asked: &AdminCommand) -> Result<String, AllocError> {
    match asked {
        AdminCommand::Put { uri, text } => format!(in alloc;
            "put {} {}",
            uri.as_str(),
            text.as_str()
        ),
        AdminCommand::Drop { uri } => format!(in alloc; "drop {}", uri.as_str()),
        AdminCommand::Publish { entries } => {
            let entries = texts_shown(alloc, entries.as_slice())?;
            format!(in alloc; "publish {entries}")
        }
    }
}

fn asked_shown(alloc: Global, asked: &SessionCommand) -> Result<String, AllocError> {
    match asked {
        SessionCommand::Activate { uri, rule } => {
            let rule = rule_shown(alloc, rule)?;
            format!(in alloc; "activate {} {rule}", uri.as_str())
        }
        SessionCommand::Deactivate { uri, rule } => {
            let rule = rule_shown(alloc, rule)?;
            format!(in alloc; "deactivate {} {rule}", uri.as_str())
        }
        SessionCommand::Match { line, best } => {
            let line = line_shown(alloc, line)?;
            let best = best_shown(alloc, *best)?;
            format!(in alloc; "match {line} {best}")
        }
    }
}

fn command_shown(alloc: Global, command: &Command) -> Result<String, AllocError> {
    match command {
        Command::Admin(asked) => admin_shown(alloc, asked),
        Command::Open(name) => format!(in alloc; "open {}", name.as_str()),
        Command::Close(name) => format!(in alloc; "close {}", name.as_str()),
        Command::ForSession { name, command } => {
            let asked = asked_shown(alloc, command)?;
            format!(in alloc; "{}: {asked}", name.as_str())
        }
        Command::Try(tried) => {
            let rule = rule_shown(alloc, &tried.rule)?;
            let line = line_shown(alloc, &tried.line)?;
            let best = best_shown(alloc, tried.best)?;
            format!(in alloc; "try {} {rule} {line} {best}", tried.uri.as_str())
        }
        Command::Run => format!(in alloc; "run"),
    }
}

/// The area and the command of a line, or the name of its refusal.
fn shown(alloc: Global, line: &[u8]) -> Result<String, AllocError> {
    match read_command(alloc, line) {
        Ok(Called { area, command }) => {
            let command = command_shown(alloc, &command)?;
            format!(in alloc; "{} {command}", area.0)
        }
        Err(Refused::Fault(fault)) => format!(in alloc; "{fault:?}"),
        Err(Refused::Memory) => format!(in alloc; "Memory"),
    }
}

/// Whether each line of a table reads as what stands behind its arrow.
fn first_wrong<'a>(alloc: Global, table: &'a str) -> Result<Option<&'a str>, AllocError> {
    for row in table.lines() {
        let Some((line, want)) = row.split_once(" => ") else {
            return Ok(Some(row));
        };
        let got = shown(alloc, line.as_bytes())?;
        if got.as_str() != want {
            return Ok(Some(row));
        }
    }
    Ok(None)
}

const COMMANDS: &str = r#"{"do":"put","uri":"u","text":"t"} => 0 put u t
{"do":"drop","uri":"u"} => 0 drop u
{"do":"publish","entries":[]} => 0 publish 
{"do":"publish","entries":["a","b"]} => 0 publish a|b|
{"do":"open","session":"s"} => 0 open s
{"do":"close","session":"s"} => 0 close s
{"do":"activate","session":"s","uri":"u"} => 0 s: activate u root
{"do":"activate","session":"s","uri":"u","rule":"r"} => 0 s: activate u rule r
{"do":"deactivate","session":"s","uri":"u"} => 0 s: deactivate u root
{"do":"deactivate","session":"s","uri":"u","rule":"r"} => 0 s: deactivate u rule r
{"do":"match","session":"s","tokens":["a","b c"]} => 0 s: match tokens a|b c| first
{"do":"match","session":"s","keys":"12#","best":4} => 0 s: match keys 12# best 4
{"do":"try","uri":"u","tokens":[]} => 0 try u root tokens  first
{"do":"try","uri":"u","rule":"r","keys":"","best":1} => 0 try u rule r keys  best 1
{"do":"run"} => 0 run
 {"text" : "t" , "uri" : "é", "do": "put", "area": 7 }  => 7 put é t
{"do":"drop","uri":"u","area":0} => 0 drop u
{"do":"publish","entries":["\u0061\u00e9"],"area":1} => 1 publish aé|
"#;

#[test]
fn rows_are_read(rt: HostRuntime) -> Result<(), Fail> {
    let wrong = first_wrong(rt.alloc(), COMMANDS)?;
    assert_eq!(rt; wrong, None);
    Ok(())
}

const OTHER_MEMBERS: &str = r#"{"do":"put","uri":"u"} => NotCommand
{"do":"put","uri":"u","text":"t","rule":"r"} => NotCommand
{"do":"put","uri":"u","text":["t"]} => NotCommand
{"do":"drop"} => NotCommand
{"do":"drop","uri":"u","text":"t"} => NotCommand
{"do":"drop","uri":null} => NotCommand
{"do":"publish"} => NotCommand
{"do":"publish","entries":[],"uri":"u"} => NotCommand
{"do":"publish","entries":"u"} => NotCommand
{"do":"publish","entries":["u",1]} => NotCommand
{"do":"open"} => NotCommand
{"do":"open","session":"s","uri":"u"} => NotCommand
{"do":"open","session":1} => NotCommand
{"do":"open","session":""} => NotCommand
{"do":"close"} => NotCommand
{"do":"close","session":"s","best":1} => NotCommand
{"do":"close","session":{}} => NotCommand
{"do":"activate","session":"s"} => NotCommand
{"do":"activate","session":"s","uri":"u","keys":"1"} => NotCommand
{"do":"activate","session":"s","uri":"u","rule":null} => NotCommand
{"do":"deactivate","uri":"u"} => NotCommand
{"do":"deactivate","session":"s","uri":"u","best":1} => NotCommand
{"do":"deactivate","session":"s","uri":"u","rule":1} => NotCommand
{"do":"match","session":"s"} => NotCommand
{"do":"match","session":"s","tokens":[],"keys":""} => NotCommand
{"do":"match","session":"s","tokens":[],"uri":"u"} => NotCommand
{"do":"match","session":"s","tokens":"a"} => NotCommand
{"do":"match","session":"s","keys":["1"]} => NotCommand
{"do":"try","uri":"u"} => NotCommand
{"do":"try","uri":"u","tokens":["a"],"keys":"1"} => NotCommand
{"do":"try","uri":"u","tokens":["a"],"session":"s"} => NotCommand
{"do":"try","uri":"u","tokens":[true]} => NotCommand
{"do":"run","session":"s"} => NotCommand
{"do":"run","area":0} => NotCommand
{"do":"walk"} => NotCommand
{"do":"Run"} => NotCommand
{"do":["run"]} => NotCommand
{"uri":"u"} => NotCommand
["run"] => NotCommand
"run" => NotCommand
{} => NotCommand
"#;

#[test]
fn members_are_those_of_the_row(rt: HostRuntime) -> Result<(), Fail> {
    let wrong = first_wrong(rt.alloc(), OTHER_MEMBERS)?;
    assert_eq!(rt; wrong, None);
    Ok(())
}

const NUMBERS: &str = r#"{"do":"drop","uri":"u","area":7} => 7 drop u
{"do":"drop","uri":"u","area":8} => NotCommand
{"do":"drop","uri":"u","area":-1} => NotCommand
{"do":"drop","uri":"u","area":-0} => NotCommand
{"do":"drop","uri":"u","area":1.0} => NotCommand
{"do":"drop","uri":"u","area":1e0} => NotCommand
{"do":"drop","uri":"u","area":"1"} => NotCommand
{"do":"drop","uri":"u","area":null} => NotCommand
{"do":"drop","uri":"u","area":18446744073709551617} => NotCommand
{"do":"drop","uri":"u","area":01} => BadJson
{"do":"drop","uri":"u","area":1e400} => BadJson
{"do":"try","uri":"u","keys":"1","best":1} => 0 try u root keys 1 best 1
{"do":"try","uri":"u","keys":"1","best":0} => NotCommand
{"do":"try","uri":"u","keys":"1","best":5} => NotCommand
{"do":"try","uri":"u","keys":"1","best":-0} => NotCommand
{"do":"try","uri":"u","keys":"1","best":1.0} => NotCommand
{"do":"try","uri":"u","keys":"1","best":1e0} => NotCommand
{"do":"match","session":"s","keys":"1","best":"1"} => NotCommand
{"do":"match","session":"s","keys":"1","best":4294967297} => NotCommand
"#;

#[test]
fn numbers_are_one_digit(rt: HostRuntime) -> Result<(), Fail> {
    let wrong = first_wrong(rt.alloc(), NUMBERS)?;
    assert_eq!(rt; wrong, None);
    Ok(())
}

const EQUAL_MEMBERS: &str = r#"{"do":"drop","uri":"u","uri":"w"} => 0 drop w
{"do":"run","do":"drop","uri":"u"} => 0 drop u
{"do":"drop","uri":1,"uri":"u","area":9,"area":2} => 2 drop u
{"do":"drop","uri":"u","uri":1} => NotCommand
{"do":"run","do":"run"} => 0 run
"#;

#[test]
fn of_equal_members_the_last_counts(rt: HostRuntime) -> Result<(), Fail> {
    let wrong = first_wrong(rt.alloc(), EQUAL_MEMBERS)?;
    assert_eq!(rt; wrong, None);
    Ok(())
}

const NO_JSON: &str = r#"{"do":"run" => BadJson
{"do":"run"} x => BadJson
{"do":"run",} => BadJson
{'do':'run'} => BadJson
{"do":"drop","uri":"\ud800"} => BadJson
{"do":"drop","uri":"\ud83d\ude00"} => 0 drop 😀
 => BadJson
"#;

#[test]
fn other_texts_are_no_json(rt: HostRuntime) -> Result<(), Fail> {
    let wrong = first_wrong(rt.alloc(), NO_JSON)?;
    assert_eq!(rt; wrong, None);
    Ok(())
}

#[test]
fn blanks_may_stand_round_the_value(rt: HostRuntime) -> Result<(), Fail> {
    let got = shown(rt.alloc(), b" \t\r\n{\"do\":\n\t\"run\"}\r\n")?;
    assert_eq!(rt; got.as_str(), "0 run");
    Ok(())
}

#[test]
fn bytes_that_are_no_text_are_no_json(rt: HostRuntime) -> Result<(), Fail> {
    let got = shown(rt.alloc(), b"{\"do\":\"drop\",\"uri\":\"\xff\"}")?;
    assert_eq!(rt; got.as_str(), "BadJson");
    Ok(())
}

#[test]
fn a_byte_order_mark_is_no_json(rt: HostRuntime) -> Result<(), Fail> {
    let got = shown(rt.alloc(), b"\xef\xbb\xbf{\"do\":\"run\"}")?;
    assert_eq!(rt; got.as_str(), "BadJson");
    Ok(())
}

/// So many brackets, one in another.
fn nested(alloc: Global, depth: usize) -> Result<String, AllocError> {
    let mut text = "[".repeat(alloc, depth)?;
    let closing = "]".repeat(alloc, depth)?;
    text.push_str(closing.as_str())?;
    Ok(text)
}

#[test]
fn nesting_ends_at_127(rt: HostRuntime) -> Result<(), Fail> {
    let deepest = nested(rt.alloc(), 127)?;
    let got = shown(rt.alloc(), deepest.as_str().as_bytes())?;
    assert_eq!(rt; got.as_str(), "NotCommand");
    Ok(())
}

#[test]
fn nesting_of_128_is_no_json(rt: HostRuntime) -> Result<(), Fail> {
    let deeper = nested(rt.alloc(), 128)?;
    let got = shown(rt.alloc(), deeper.as_str().as_bytes())?;
    assert_eq!(rt; got.as_str(), "BadJson");
    Ok(())
}

/// Whether a session may not have this text, so many times, as its name.
fn is_no_name(alloc: Global, part: &str, times: usize) -> Result<bool, AllocError> {
    let name = part.repeat(alloc, times)?;
    let line = format!(in alloc; "{{\"do\":\"open\",\"session\":\"{name}\"}}")?;
    let got = shown(alloc, line.as_str().as_bytes())?;
    Ok(got.as_str() == "NotCommand")
}

#[test]
fn names_of_sessions_have_up_to_64_bytes(rt: HostRuntime) -> Result<(), Fail> {
    assert!(rt; !is_no_name(rt.alloc(), "s", 64)?);
    assert!(rt; is_no_name(rt.alloc(), "s", 65)?);
    assert!(rt; !is_no_name(rt.alloc(), "é", 32)?);
    assert!(rt; is_no_name(rt.alloc(), "é", 33)?);
    Ok(())
}

/// Whether a publish with so many entries and one more is refused.
fn is_too_many(alloc: Global, count: usize) -> Result<bool, AllocError> {
    let more = "\"u\",".repeat(alloc, count)?;
    let line = format!(in alloc; "{{\"do\":\"publish\",\"entries\":[{more}\"u\"]}}")?;
    let got = shown(alloc, line.as_str().as_bytes())?;
    Ok(got.as_str() == "NotCommand")
}

#[test]
fn entries_are_at_most_64(rt: HostRuntime) -> Result<(), Fail> {
    assert!(rt; !is_too_many(rt.alloc(), 63)?);
    assert!(rt; is_too_many(rt.alloc(), 64)?);
    Ok(())
}
