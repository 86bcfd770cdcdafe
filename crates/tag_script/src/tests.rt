use crate::{Env, run};
use script_value::Value;
use sqlite_items::Items;
use std::alloc::Global;
use std::process::Abort;
use vg_base::{AssignOp, Expr, Root, Script, Stmt, Text, TextMap};

fn opening(alloc: Global) -> Env {
    Env {
        vars: TextMap::new(alloc),
        out: Value::Null,
        rules: TextMap::new(alloc),
        latest: None,
        texts: TextMap::new(alloc),
        latest_text: None,
        current_text: Text::new(alloc),
    }
}

/// `out = 7`
fn seven(rt: &impl Abort, alloc: Global) -> Script {
    let mut body = Items::new(alloc);
    let set = Stmt::Assign {
        root: Root::Out,
        path: Items::new(alloc),
        op: AssignOp::Set,
        value: Expr::Number(7),
    };
    body.push(set).expect(rt, "memory");
    Script { body }
}

fn is_seven(after: Env) -> bool {
    matches!(after.out, Value::Number(7))
}

#[test]
fn a_script_is_run(host: HostRuntime) {
    let alloc = host.alloc();
    let after = run(alloc, &seven(&host, alloc), opening(alloc));
    let after = after.expect(&host, "an environment");
    assert!(host; is_seven(after));
}
