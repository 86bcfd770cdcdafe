//! What a statement makes of an environment.
ghost use Rattle.std.specs.Prelude.{◌≡◌, [], ◌≤◌, max, map, IfOk};
ghost use Rattle.vg_base.specs.Refusals.{Gives};
ghost use Rattle.tag_script.specs.Execution as spec;
ghost use Rattle.tag_script.specs.Outcomes.{and_then, or_fault};
ghost use Rattle.tag_script.specs.Weight.{weight_of, most_weight};
ghost use Rattle.tag_script.specs.code.Seen.{Shows};
ghost use Rattle.tag_script.specs.declared.tag_kind.TagKind.TheVariants as tag;

use crate::env::Env;
use crate::evaluate::{evaluate, evaluate_key};
use crate::operator::Strict;
use crate::operators::{add, strict};
use crate::parts::part_of;
use crate::refused::RunRefused;
use crate::seen::Seen;
use crate::step::Step;
use crate::tag_kind::TagKind;
use crate::weighed::{
    MOST_WEIGHT, Scope, Weighed, change_out, change_variable, weight_of, weight_of_step,
};
use script_value::{Value, is_true};
use sqlite_items::Items;
use std::alloc::Global;
use vg_base::{AssignOp, Expr, Key, Root, Script, Stmt, Text};

/// The environment after a script, or the first fault. The environment is used up where there is none.
/// Memory is wanted, too, where values would weigh more together than they may.
pub fn run(alloc: Global, script: &Script, env: Env) -> Result<Env, RunRefused>
    ensures after { Gives result (spec.run script.now env) }
    ensures weight { IfOk result (λ after. weight_of after ≤ max most_weight (weight_of env)) }
{
    let weight = weight_of(&env);
    if weight == u64::MAX {
        return Err(RunRefused::Memory);
    }
    let most = weight.max(MOST_WEIGHT);
    let scope = Scope { alloc, most };
    let after = execute_all(scope, script.body.as_slice(), Weighed::of(env, weight))?;
    if after.weight() > most {
        return Err(RunRefused::Memory);
    }
    Ok(after.into_env())
}

#[cycle(execute)]
fn execute_all(scope: Scope, statements: &[Stmt], env: Weighed) -> Result<Weighed, RunRefused>
    ensures { Gives result (spec.in_turn (map spec.effect statements.now) env) }
{
    let mut env = env;
    for statement in statements {
        env = execute(scope, statement, env)?;
    }
    Ok(env)
}

#[cycle(execute)]
fn execute(scope: Scope, statement: &Stmt, env: Weighed) -> Result<Weighed, RunRefused>
    ensures { Gives result (spec.effect statement.now env) }
{
    match statement {
        Stmt::Empty => Ok(env),
        Stmt::Block(body) => execute_all(scope, body.as_slice(), env),
        Stmt::Var { name, value } => declare(scope, name, value, env),
        Stmt::If { test, yes, other } => {
            let holds = is_true(evaluate(scope.alloc, test, env.env())?.value());
            if holds {
                return execute(scope, yes.get(), env);
            }
            match other {
                Some(other) => execute(scope, other.get(), env),
                None => Ok(env),
            }
        }
        Stmt::Assign {
            root,
            path,
            op,
            value,
        } => assign(
            scope,
            Target {
                root,
                path: path.as_slice(),
            },
            *op,
            value,
            env,
        ),
        Stmt::Plain(value) => {
            evaluate(scope.alloc, value, env.env())?;
            Ok(env)
        }
    }
}

fn declare(
    scope: Scope,
    name: &Text,
    value: &Option<Expr>,
    env: Weighed,
) -> Result<Weighed, RunRefused>
    ensures { Gives result (spec.declare name.now value.now env) }
{
    match value {
        Some(value) => {
            let given = evaluate(scope.alloc, value, env.env())?.into_value(scope.alloc)?;
            change_variable(scope, name, &[], given, env)
        }
        None => {
            if env.env().vars.contains(name) {
                Ok(env)
            } else {
                change_variable(scope, name, &[], Value::Null, env)
            }
        }
    }
}

// ---- assignments

/// The steps of a target, their indices evaluated from left to right. They are held until the last is known, and so may weigh no more
/// together than an environment may.
fn steps(alloc: Global, keys: &[Key], env: &Env) -> Result<Items<Step>, RunRefused>
    ensures { Gives result (spec.steps keys.now env.now []) }
{
    let mut path = Items::new(alloc);
    let mut held = 0u64;
    for key in keys {
        let step = evaluate_key(alloc, key, env)?;
        held = held.saturating_add(weight_of_step(&step));
        if held > MOST_WEIGHT {
            return Err(RunRefused::Memory);
        }
        path.push(step)?;
    }
    Ok(path)
}

/// The root of a target, as it is read.
fn root_value<'e>(root: &Root, env: &'e Env) -> Result<Seen<'e>, RunRefused>
    ensures { Shows result (or_fault tag.Unknown (spec.at_root root.now env.now)) }
{
    match root {
        Root::Out => Ok(Seen::Lent(&env.out)),
        Root::Name(name) => match env.vars.get(name) {
            Some(value) => Ok(Seen::Lent(value)),
            None => Err(RunRefused::Fault(TagKind::Unknown)),
        },
    }
}

/// The target as it is read.
fn target_value<'e>(
    alloc: Global,
    root: &Root,
    path: &[Step],
    env: &'e Env,
) -> Result<Seen<'e>, RunRefused>
    ensures { Shows result (and_then (or_fault tag.Unknown (spec.at_root root.now env.now)) (spec.read path.now)) }
{
    let mut seen = root_value(root, env)?;
    for step in path {
        seen = part_of(alloc, seen, step)?;
    }
    Ok(seen)
}

/// What is assigned: the right side, or the operator's result of the target and the right side.
fn assigned(
    alloc: Global,
    op: AssignOp,
    root: &Root,
    path: &[Step],
    value: &Expr,
    env: &Env,
) -> Result<Value, RunRefused>
    ensures { Gives result (spec.assigned op root.now path.now value.now env.now) }
{
    match op {
        AssignOp::Set => Ok(evaluate(alloc, value, env)?.into_value(alloc)?),
        AssignOp::Add => {
            let old = target_value(alloc, root, path, env)?;
            let right = evaluate(alloc, value, env)?;
            add(alloc, old, right.value())
        }
        AssignOp::Sub => {
            let from = target_value(alloc, root, path, env)?;
            let right = evaluate(alloc, value, env)?;
            strict(Strict::Sub, from.value(), right.value())
        }
    }
}

/// The root of a target, and the keys behind it.
#[derive(Clone, Copy)]
struct Target<'s> {
    root: &'s Root,
    path: &'s [Key],
}

fn assign(
    scope: Scope,
    target: Target,
    op: AssignOp,
    value: &Expr,
    env: Weighed,
) -> Result<Weighed, RunRefused>
    ensures { Gives result (spec.assign_to target.entry.root.now target.entry.path.now op value.now env) }
{
    let Target { root, path: keys } = target;
    let path = steps(scope.alloc, keys, env.env())?;
    let new = assigned(scope.alloc, op, root, path.as_slice(), value, env.env())?;
    match root {
        Root::Out => change_out(scope, path.as_slice(), new, env),
        Root::Name(name) => change_variable(scope, name, path.as_slice(), new, env),
    }
}
