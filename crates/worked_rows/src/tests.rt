//! Scripts as texts: what is read of them (`reading`), and what they do. A row is a script, or an expression, and behind ` => ` what `out` holds at the end as JSON, or the fault.
mod arithmetic_on_kinds;
mod assignments;
mod documents;
mod linking;
mod literals;
mod operators;
mod operators_on_kinds;
mod parts;
mod reading;
mod references;
mod rules_on_a_shelf;
mod statements;
mod weights;

use script_reader::read_script;
use script_value::{Value, to_json};
use std::alloc::{Alloc, Global};
use std::process::Abort;
use tag_script::{Env, RunRefused, run};
use vg_base::{Text, TextMap};

/// What ends a test where memory is wanted and isn't there.
trait Ground: Abort + Alloc<A = Global> {}

impl<T: Abort + Alloc<A = Global>> Ground for T {}

/// The environment in which a rule instance starts.
fn opening(alloc: Global) -> Env {
    Env {
        vars: TextMap::new(alloc),
        out: Value::Record(TextMap::new(alloc)),
        rules: TextMap::new(alloc),
        latest: None,
        texts: TextMap::new(alloc),
        latest_text: None,
        current_text: Text::new(alloc),
    }
}

fn characters(rt: &impl Ground, of: &str) -> Text {
    Text::of(rt.alloc(), of).expect(rt, "memory")
}

/// Whether the JSON of the value is this text.
fn is_shown(rt: &impl Ground, value: &Value, want: &str) -> bool {
    let shown = to_json(rt.alloc(), value).expect(rt, "memory");
    let line = shown.to_string(rt.alloc()).expect(rt, "memory");
    line.as_str() == want
}

/// Whether a run of the script from this environment ends so.
fn leads_from(rt: &impl Ground, env: Env, script: &Text, want: &str) -> bool {
    let script = read_script(rt.alloc(), script).expect(rt, "a script");
    match run(rt.alloc(), &script, env) {
        Ok(after) => is_shown(rt, &after.out, want),
        Err(RunRefused::Fault(fault)) => fault.name() == want,
        Err(RunRefused::Memory) => false,
    }
}

/// Each row is a script.
fn scripts(rt: &impl Ground, rows: &str) {
    for row in rows.lines() {
        let parts = row.split_once(" => ");
        assert!(rt; parts.is_some(), "{row}");
        if let Some((script, want)) = parts {
            let script = characters(rt, script);
            assert!(rt; leads_from(rt, opening(rt.alloc()), &script, want), "{row}");
        }
    }
}

/// The script `out = value`.
fn set_out(rt: &impl Ground, value: &str) -> Text {
    let mut script = characters(rt, "out = ");
    script.push_str(value).expect(rt, "memory");
    script
}

/// Each row is the expression that `out` is set to.
fn values(rt: &impl Ground, rows: &str) {
    for row in rows.lines() {
        let parts = row.split_once(" => ");
        assert!(rt; parts.is_some(), "{row}");
        if let Some((value, want)) = parts {
            let script = set_out(rt, value);
            assert!(rt; leads_from(rt, opening(rt.alloc()), &script, want), "{row}");
        }
    }
}
