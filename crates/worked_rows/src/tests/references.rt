use super::{Ground, characters, leads_from, set_out, values};
use script_value::Value;
use tag_script::Env;
use vg_base::TextMap;

/// An environment behind a reference to the rule `w`.
fn visited(rt: &impl Ground) -> Env {
    let mut rules = TextMap::new(rt.alloc());
    rules
        .set(characters(rt, "w"), Value::Number(5))
        .expect(rt, "memory");
    let mut texts = TextMap::new(rt.alloc());
    texts
        .set(characters(rt, "w"), characters(rt, "five"))
        .expect(rt, "memory");
    Env {
        vars: TextMap::new(rt.alloc()),
        out: Value::Null,
        rules,
        latest: Some(Value::Truth(true)),
        texts,
        latest_text: Some(characters(rt, "or so")),
        current_text: characters(rt, "five or so"),
    }
}

/// Each row is the expression that `out` is set to there.
fn values_there(rt: &impl Ground, rows: &str) {
    for row in rows.lines() {
        let parts = row.split_once(" => ");
        assert!(rt; parts.is_some(), "{row}");
        if let Some((value, want)) = parts {
            let script = set_out(rt, value);
            assert!(rt; leads_from(rt, visited(rt), &script, want), "{row}");
        }
    }
}

const REFERENCES_ARE_SEEN: &str = r#"rules.w => 5
rules.v => null
rules.latest() => true
meta.w.text => "five"
meta.v.text => null
meta.latest().text => "or so"
meta.current().text => "five or so"
rules.w + "-" + meta.latest().text => "5-or so"
{total: rules.w * 9} => {"total":45}"#;

const WHAT_WAS_NOT_VISITED_IS_NULL: &str = r#"rules.w => null
rules.latest() => null
meta.w.text => null
meta.latest().text => null
meta.current().text => """#;

#[test]
fn references_are_seen(host: HostRuntime) {
    let rt = &host;
    values_there(rt, REFERENCES_ARE_SEEN);
    values(rt, WHAT_WAS_NOT_VISITED_IS_NULL);
}
