//! What an expression gives.
ghost use Rattle.std.specs.Prelude.{◌≡◌, [], map, IfOk, IsTrue, Ok};
ghost use Rattle.std.specs.Option.{option_copied};
ghost use Rattle.script_value.specs.declared.value.Value.TheVariants as v;
ghost use Rattle.vg_base.specs.Refusals.{Gives};
ghost use Rattle.tag_script.specs.Evaluation.{meaning, key_meant, each, members, chained, stepped, variable, text_or_null};
ghost use Rattle.tag_script.specs.Operators.{after_left};
ghost use Rattle.tag_script.specs.code.Operators as operators;
ghost use Rattle.tag_script.specs.Outcomes.{and_then, tested};
ghost use Rattle.tag_script.specs.code.Literals as literal;
ghost use Rattle.tag_script.specs.code.Seen.{Shows, seen, IsTested};

use crate::env::Env;
use crate::literals::{ListParts, RecordParts, is_last, last_places};
use crate::numbers::number;
use crate::operator::Operator;
use crate::operators::{add, strict, tested, unary};
use crate::parts::{or_null, part_of};
use crate::refused::RunRefused;
use crate::seen::Seen;
use crate::step::Step;
use crate::tag_kind::TagKind;
use script_value::{Value, is_true};
use std::alloc::Global;
use vg_base::{BinOp, Expr, Key, Memory, Text, TextMap};

/// The value of an expression in an environment.
#[cycle(evaluate)]
pub(crate) fn evaluate<'e>(alloc: Global, expr: &Expr, env: &'e Env) -> Result<Seen<'e>, RunRefused>
    ensures { Shows result (meaning expr.now env.now) }
{
    match expr {
        Expr::Null => Ok(Seen::Made(Value::Null)),
        Expr::Truth(truth) => Ok(Seen::Made(Value::Truth(*truth))),
        Expr::Number(n) => Ok(Seen::Made(number(*n)?)),
        Expr::Str(text) => Ok(Seen::Made(tested(Value::Str(text.copy()?))?)),
        Expr::Out => Ok(Seen::Lent(&env.out)),
        Expr::Name(name) => variable(env, name),
        Expr::List(items) => Ok(Seen::Made(evaluate_list(alloc, items.as_slice(), env)?)),
        Expr::Record(pairs) => { Ok(Seen::Made(evaluate_record(alloc, pairs.as_slice(), env)?)) }
        Expr::Choose { test, yes, no } => {
            let holds = is_true(evaluate(alloc, test.get(), env)?.value());
            if holds {
                evaluate(alloc, yes.get(), env)?.tested()
            } else {
                evaluate(alloc, no.get(), env)?.tested()
            }
        }
        Expr::Chain { first, more } => {
            let value = evaluate(alloc, first.get(), env)?;
            evaluate_chain(alloc, value, more.as_slice(), env)
        }
        Expr::Unary { op, inner } => {
            let value = evaluate(alloc, inner.get(), env)?;
            Ok(Seen::Made(unary(*op, value.value())?))
        }
        Expr::Part { inner, path } => {
            let whole = evaluate(alloc, inner.get(), env)?;
            evaluate_path(alloc, whole, path.as_slice(), env)
        }
        Expr::Rule(name) => Ok(or_null(env.rules.get(name))),
        Expr::LatestRule => Ok(or_null(env.latest.as_ref())),
        Expr::RuleText(name) => Ok(Seen::Made(text_or_null(env.texts.get(name))?)),
        Expr::LatestText => Ok(Seen::Made(text_or_null(env.latest_text.as_ref())?)),
        Expr::CurrentText => Ok(Seen::Made(Value::Str(env.current_text.copy()?))),
    }
}

/// The value of a variable.
fn variable<'e>(env: &'e Env, name: &Text) -> Result<Seen<'e>, RunRefused>
    ensures { Shows result (variable name.now env.now) }
{
    match env.vars.get(name) {
        Some(value) => Ok(Seen::Lent(value)),
        None => Err(RunRefused::Fault(TagKind::Unknown)),
    }
}

/// A copy of the text, or null.
fn text_or_null(found: Option<&Text>) -> Result<Value, Memory>
    ensures { IfOk result (λ value. value ≡ text_or_null (option_copied found.entry)) }
{
    match found {
        Some(text) => Ok(Value::Str(text.copy()?)),
        None => Ok(Value::Null),
    }
}

/// What operators, one after another, make of a value.
#[cycle(evaluate)]
fn evaluate_chain<'e>(
    alloc: Global,
    first: Seen<'e>,
    links: &[(BinOp, Expr)],
    env: &'e Env,
) -> Result<Seen<'e>, RunRefused>
    ensures { Shows result (chained (map (λ link. (link.0, meaning link.1)) links.now) env.now (seen first.entry)) }
{
    let mut value = first;
    let mut fits = false;
    for link in links {
        let operator = Operator::of(link.0);
        let left = Left { value, fits };
        value = evaluate_right(alloc, operator, left, &link.1, env)?;
        fits = operator.is_lazy();
    }
    Ok(value)
}

/// The part of a value behind steps.
#[cycle(evaluate)]
fn evaluate_path<'e>(
    alloc: Global,
    whole: Seen<'e>,
    path: &[Key],
    env: &'e Env,
) -> Result<Seen<'e>, RunRefused>
    ensures { Shows result (stepped (map key_meant path.now) env.now (seen whole.entry)) }
{
    let mut value = whole;
    for key in path {
        let step = evaluate_key(alloc, key, env)?;
        value = part_of(alloc, value, &step)?;
    }
    Ok(value)
}

/// The left operand of an operator, and whether it is known to be within the limits of values.
struct Left<'e> {
    value: Seen<'e>,
    fits: bool,
}

/// An operator whose left operand is known.
#[cycle(evaluate)]
fn evaluate_right<'e>(
    alloc: Global,
    operator: Operator,
    left: Left<'e>,
    right: &Expr,
    env: &'e Env,
) -> Result<Seen<'e>, RunRefused>
    requires { IsTrue left.fits → IsTested (seen left.value) }
    ensures value { Shows result (after_left operator (seen left.entry.value) (meaning right.now env.now)) }
    ensures fits { IfOk result (λ x. IsTrue (operators.is_lazy operator) → IsTested (seen x)) }
{
    let Left { value, fits } = left;
    match operator {
        Operator::Or => {
            if is_true(value.value()) {
                value.tested_again(fits)
            } else {
                evaluate(alloc, right, env)?.tested()
            }
        }
        Operator::And => {
            if is_true(value.value()) {
                evaluate(alloc, right, env)?.tested()
            } else {
                value.tested_again(fits)
            }
        }
        Operator::Add => {
            let second = evaluate(alloc, right, env)?;
            Ok(Seen::Made(add(alloc, value, second.value())?))
        }
        Operator::Strict(operator) => {
            let second = evaluate(alloc, right, env)?;
            Ok(Seen::Made(strict(operator, value.value(), second.value())?))
        }
    }
}

/// The step that a key stands for.
#[cycle(evaluate)]
pub(crate) fn evaluate_key(alloc: Global, key: &Key, env: &Env) -> Result<Step, RunRefused>
    ensures { Gives result (key_meant key.now env.now) }
{
    match key {
        Key::Word(word) => Ok(Step::Word(word.copy()?)),
        Key::Index(index) => Ok(Step::Index(evaluate(alloc, index, env)?.into_value(alloc)?)),
    }
}

/// The items of a list, from left to right.
#[cycle(evaluate)]
fn evaluate_each(alloc: Global, exprs: &[Expr], env: &Env) -> Result<ListParts, RunRefused>
    ensures { Gives result (literal.each_kept (map meaning exprs.now) env.now literal.no_items) }
{
    let mut parts = ListParts::new(alloc);
    for expr in exprs {
        let item = evaluate(alloc, expr, env)?;
        parts = parts.with(alloc, item)?;
    }
    Ok(parts)
}

/// The list of these items.
#[cycle(evaluate)]
fn evaluate_list(alloc: Global, exprs: &[Expr], env: &Env) -> Result<Value, RunRefused>
    ensures { Gives result (and_then (each (map meaning exprs.now) env.now []) (λ items. tested (v.List items))) }
{
    evaluate_each(alloc, exprs, env)?.list()
}

/// The members of a record, from left to right. Of equal keys the last counts, so the values before it aren't kept.
#[cycle(evaluate)]
fn evaluate_members(
    alloc: Global,
    places: &TextMap<usize>,
    pairs: &[(Text, Expr)],
    env: &Env,
) -> Result<RecordParts, RunRefused>
    ensures { Gives result (literal.members_kept places.now (map (λ pair. (pair.0, meaning pair.1)) pairs.now) 0 env.now literal.no_members) }
{
    let mut parts = RecordParts::new(alloc);
    for (at, pair) in pairs.iter().enumerate() {
        let member = evaluate(alloc, &pair.1, env)?;
        parts = parts.with(alloc, is_last(places, &pair.0, at), &pair.0, member)?;
    }
    Ok(parts)
}

/// The record of these members.
#[cycle(evaluate)]
fn evaluate_record(alloc: Global, pairs: &[(Text, Expr)], env: &Env) -> Result<Value, RunRefused>
    ensures { Gives result (and_then (members (map (λ pair. (pair.0, meaning pair.1)) pairs.now) env.now []) (λ all. tested (v.Record all))) }
{
    let places = last_places(alloc, pairs)?;
    evaluate_members(alloc, &places, pairs, env)?.record()
}
