//! Prints a script with a bracket around each part, so that its tree can be compared.
use super::Ground;
use vg_base::{AssignOp, BinOp, Expr, Key, Root, Script, Stmt, Text, UnOp};

fn operator(op: BinOp) -> &'static str {
    match op {
        BinOp::Or => "||",
        BinOp::And => "&&",
        BinOp::Eq => "==",
        BinOp::Ne => "!=",
        BinOp::Lt => "<",
        BinOp::Le => "<=",
        BinOp::Gt => ">",
        BinOp::Ge => ">=",
        BinOp::Add => "+",
        BinOp::Sub => "-",
        BinOp::Mul => "*",
        BinOp::Div => "/",
        BinOp::Rem => "%",
    }
}

fn sign(op: UnOp) -> &'static str {
    match op {
        UnOp::Neg => "-",
        UnOp::Plus => "+",
        UnOp::Not => "!",
    }
}

fn assignment(op: AssignOp) -> &'static str {
    match op {
        AssignOp::Set => "=",
        AssignOp::Add => "+=",
        AssignOp::Sub => "-=",
    }
}

/// Adds to the line. Want of memory ends the test.
fn put(rt: &impl Ground, line: &mut String, more: &str) {
    line.push_str(more).expect(rt, "memory");
}

/// The number in decimal digits.
fn digits(rt: &impl Ground, number: i64) -> String {
    format!(in rt.alloc(); "{number}").expect(rt, "memory")
}

fn quoted(rt: &impl Ground, line: &mut String, text: &Text) {
    put(rt, line, "'");
    put(rt, line, text.as_str());
    put(rt, line, "'");
}

#[cycle(printer)]
fn key(rt: &impl Ground, line: &mut String, key: &Key) {
    match key {
        Key::Word(word) => {
            put(rt, line, ".");
            put(rt, line, word.as_str());
        }
        Key::Index(index) => {
            put(rt, line, "[");
            expression(rt, line, index);
            put(rt, line, "]");
        }
    }
}

#[cycle(printer)]
fn parts(rt: &impl Ground, line: &mut String, values: &[Expr]) {
    for value in values {
        expression(rt, line, value);
        put(rt, line, ",");
    }
}

#[cycle(printer)]
fn members(rt: &impl Ground, line: &mut String, members: &[(Text, Expr)]) {
    for member in members {
        quoted(rt, line, &member.0);
        put(rt, line, ":");
        expression(rt, line, &member.1);
        put(rt, line, ",");
    }
}

#[cycle(printer)]
fn expression(rt: &impl Ground, line: &mut String, value: &Expr) {
    match value {
        Expr::Null => put(rt, line, "null"),
        Expr::Truth(true) => put(rt, line, "true"),
        Expr::Truth(false) => put(rt, line, "false"),
        Expr::Number(number) => put(rt, line, digits(rt, *number).as_str()),
        Expr::Str(text) => quoted(rt, line, text),
        Expr::Out => put(rt, line, "out"),
        Expr::Name(name) => put(rt, line, name.as_str()),
        Expr::List(values) => {
            put(rt, line, "[");
            parts(rt, line, values.as_slice());
            put(rt, line, "]");
        }
        Expr::Record(all) => {
            put(rt, line, "{");
            members(rt, line, all.as_slice());
            put(rt, line, "}");
        }
        Expr::Choose { test, yes, no } => {
            put(rt, line, "(");
            expression(rt, line, test.get());
            put(rt, line, "?");
            expression(rt, line, yes.get());
            put(rt, line, ":");
            expression(rt, line, no.get());
            put(rt, line, ")");
        }
        Expr::Chain { first, more } => {
            for _link in more.as_slice() {
                put(rt, line, "(");
            }
            expression(rt, line, first.get());
            for link in more.as_slice() {
                put(rt, line, operator(link.0));
                expression(rt, line, &link.1);
                put(rt, line, ")");
            }
        }
        Expr::Unary { op, inner } => {
            put(rt, line, "(");
            put(rt, line, sign(*op));
            expression(rt, line, inner.get());
            put(rt, line, ")");
        }
        Expr::Part { inner, path } => {
            expression(rt, line, inner.get());
            for step in path.as_slice() {
                key(rt, line, step);
            }
        }
        Expr::Rule(name) => {
            put(rt, line, "rule ");
            put(rt, line, name.as_str());
        }
        Expr::LatestRule => put(rt, line, "latest rule"),
        Expr::RuleText(name) => {
            put(rt, line, "text of ");
            put(rt, line, name.as_str());
        }
        Expr::LatestText => put(rt, line, "latest text"),
        Expr::CurrentText => put(rt, line, "current text"),
    }
}

fn root(rt: &impl Ground, line: &mut String, root: &Root) {
    match root {
        Root::Out => put(rt, line, "out"),
        Root::Name(name) => put(rt, line, name.as_str()),
    }
}

fn path(rt: &impl Ground, line: &mut String, path: &[Key]) {
    for step in path {
        key(rt, line, step);
    }
}

#[cycle(statements)]
fn statements(rt: &impl Ground, line: &mut String, all: &[Stmt]) {
    for one in all {
        statement(rt, line, one);
    }
}

#[cycle(statements)]
fn statement(rt: &impl Ground, line: &mut String, one: &Stmt) {
    match one {
        Stmt::Empty => {}
        Stmt::Block(body) => {
            put(rt, line, "{");
            statements(rt, line, body.as_slice());
            put(rt, line, "}");
        }
        Stmt::Var { name, value } => {
            put(rt, line, "var ");
            put(rt, line, name.as_str());
            if let Some(value) = value {
                put(rt, line, "=");
                expression(rt, line, value);
            }
        }
        Stmt::If { test, yes, other } => {
            put(rt, line, "if ");
            expression(rt, line, test);
            put(rt, line, "<");
            statement(rt, line, yes.get());
            if let Some(other) = other {
                put(rt, line, "|");
                statement(rt, line, other.get());
            }
            put(rt, line, ">");
        }
        Stmt::Assign {
            root: to,
            path: steps,
            op,
            value,
        } => {
            root(rt, line, to);
            path(rt, line, steps.as_slice());
            put(rt, line, assignment(*op));
            expression(rt, line, value);
        }
        Stmt::Plain(value) => expression(rt, line, value),
    }
    put(rt, line, ";");
}

/// The script as one line.
pub fn printed(rt: &impl Ground, script: &Script) -> String {
    let mut line = String::new(rt.alloc());
    statements(rt, &mut line, script.body.as_slice());
    line
}
