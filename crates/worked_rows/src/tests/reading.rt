//! Texts of scripts, and what is read of them.
mod printer;
mod refusals;
mod scripts;

use super::Ground;
use printer::printed;
use script_reader::{ScriptRefused, ScriptSyntax, read_script};
use vg_base::{Script, Text};

fn answer(rt: &impl Ground, text: &str) -> Result<Script, ScriptRefused> {
    let text = Text::of(rt.alloc(), text).expect(rt, "memory");
    read_script(rt.alloc(), &text)
}

/// Whether the text is the script that is printed so.
fn reads(rt: &impl Ground, text: &str, want: &str) -> bool {
    match answer(rt, text) {
        Ok(script) => printed(rt, &script).as_str() == want,
        _ => false,
    }
}

fn is_read(rt: &impl Ground, text: &str) -> bool {
    answer(rt, text).is_ok()
}

/// Whether this is the place of what fits no script.
fn refuses(rt: &impl Ground, text: &str, place: u64) -> bool {
    match answer(rt, text) {
        Err(ScriptRefused::Fault(ScriptSyntax { at })) => at == place,
        _ => false,
    }
}

/// A refusal as it is shown.
fn shown(rt: &impl Ground, text: &str) -> String {
    match answer(rt, text) {
        Err(refused) => format!(in rt.alloc(); "{refused}").expect(rt, "memory"),
        Ok(_) => String::new(rt.alloc()),
    }
}

/// A part so many times in a row.
fn add(rt: &impl Ground, text: &mut String, part: &str, count: u32) {
    for _turn in 0..count {
        text.push_str(part).expect(rt, "memory");
    }
}

/// A text that opens and closes so many levels.
fn nested(
    rt: &impl Ground,
    front: &str,
    part: &str,
    middle: &str,
    end: &str,
    count: u32,
) -> String {
    let mut text = String::new(rt.alloc());
    add(rt, &mut text, front, 1);
    add(rt, &mut text, part, count);
    add(rt, &mut text, middle, 1);
    add(rt, &mut text, end, count);
    text
}

/// Whether so many levels are a script, and the next has this place.
fn nests(
    rt: &impl Ground,
    front: &str,
    part: &str,
    middle: &str,
    end: &str,
    most: u8,
    place: u64,
) -> bool {
    let most = u32::from(most);
    let script = nested(rt, front, part, middle, end, most);
    let deeper = nested(rt, front, part, middle, end, most + 1);
    is_read(rt, script.as_str()) && refuses(rt, deeper.as_str(), place)
}
