//! What an operand stands for.
ghost use Rattle.std.specs.Prelude.{◌≡◌, [], ◌∷◌, ◌++◌, IfOk, reverse};
ghost use Rattle.script_reader.specs.code.Expressions as spec;
ghost use Rattle.script_reader.specs.Roles.{role_of};

use crate::lexing::roles::{Role, role_of};
use crate::machine::stack::{Source, View};
use sqlite_items::{Boxed, Items};
use std::alloc::Global;
use vg_base::{Expr, Key, Memory, Root, Text};

fn part(alloc: Global, inner: Expr, key: Key) -> Result<Expr, Memory>
    ensures { IfOk result (λ e. e ≡ spec.part inner key) }
{
    match inner {
        Expr::Part { inner, mut path } => {
            path.push(key)?;
            Ok(Expr::Part { inner, path })
        }
        inner => {
            let mut path = Items::new(alloc);
            path.push(key)?;
            Ok(Expr::Part {
                inner: Boxed::new(alloc, inner)?,
                path,
            })
        }
    }
}

fn root_value(root: Root) -> Expr
    ensures { result ≡ spec.root_value root }
{
    match root {
        Root::Out => Expr::Out,
        Root::Name(name) => Expr::Name(name),
    }
}

fn reversed(alloc: Global, mut path: Items<Key>) -> Result<Items<Key>, Memory>
    ensures { IfOk result (λ back. back ≡ reverse path) }
{
    let mut back = Items::new(alloc);
    while let Some(key) = path.pop() {
        back.push(key)?;
    }
    Ok(back)
}

/// The value of a target that is only read.
fn target_value(alloc: Global, root: Root, path: Items<Key>) -> Result<Expr, Memory>
    ensures { IfOk result (λ e. e ≡ spec.target_value (spec.root_value root) path) }
{
    let mut value = root_value(root);
    let mut back = reversed(alloc, path)?;
    while let Some(key) = back.pop() {
        value = part(alloc, value, key)?;
    }
    Ok(value)
}

pub fn value_of(alloc: Global, view: View) -> Result<Expr, Memory>
    ensures { IfOk result (λ e. e ≡ spec.value_of view) }
{
    match view {
        View::Value(value) => Ok(value),
        View::Target { root, path } => target_value(alloc, root, path),
        View::Latest => Ok(Expr::Rule(Text::of(alloc, "latest")?)),
    }
}

/// An operand with one more step.
pub fn extended(alloc: Global, view: View, key: Key) -> Result<View, Memory>
    ensures { IfOk result (λ v. v ≡ spec.extended view key) }
{
    match view {
        View::Target { root, mut path } => {
            path.push(key)?;
            Ok(View::Target { root, path })
        }
        view => {
            let value = value_of(alloc, view)?;
            Ok(View::Value(part(alloc, value, key)?))
        }
    }
}

/// `rules.word`.
pub fn rule_view(word: Text) -> View
    ensures { result ≡ spec.rule_view word (role_of word) }
{
    match role_of(&word) {
        Role::Latest => View::Latest,
        _ => View::Value(Expr::Rule(word)),
    }
}

/// The text of a source.
pub fn text_of(source: Source) -> Expr
    ensures { result ≡ spec.text_of source }
{
    match source {
        Source::Rule(name) => Expr::RuleText(name),
        Source::Latest => Expr::LatestText,
        Source::Current => Expr::CurrentText,
    }
}
