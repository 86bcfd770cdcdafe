//! Environments with what they weigh, so that no walk over one is needed to know it, and their changes.
ghost use Rattle.std.specs.Prelude.{◌≡◌, ◌+◌, ◌-◌, ◌*◌, ◌^◌, ◌<◌, ◌≤◌, Ok, IfOk};
ghost use Rattle.script_value.specs.Measures.{capped};
ghost use Rattle.vg_base.specs.Characters.{byte_len};
ghost use Rattle.vg_base.specs.Refusals.{Gives};
ghost use Rattle.tag_script.specs.Execution as spec;
ghost use Rattle.tag_script.specs.Outcomes.{and_then, tested};
ghost use Rattle.tag_script.specs.Weight.{weight, weight_of, most_weight};
ghost use Rattle.tag_script.specs.code.Weights.{weight_so_large, variable_weight};

use crate::changes::{changed, take_member};
use crate::env::Env;
use crate::refused::RunRefused;
use crate::step::Step;
use crate::tag_kind::TagKind;
use script_value::{Measures, Value, of_members, put_member};
use std::alloc::Global;
use std::marker::Model;
use std::mem;
use vg_base::{Memory, Text};

/// What the values that a script can change may weigh together, if they didn't weigh more before it: 64 MiB.
pub const MOST_WEIGHT: u64 = 67_108_864;

/// How values are made: with this memory, and no more weight.
#[derive(Clone, Copy)]
pub(crate) struct Scope {
    pub(crate) alloc: Global,
    pub(crate) most: u64,
}

/// An environment, which contracts see, and a number that it doesn't weigh more than.
#[derive(Drop)]
pub(crate) struct Weighed {
    env: Env,
    most: u64,
}

impl Model for Weighed {
    ghost use Rattle.std.specs.Prelude.{◌≤◌};
    ghost use Rattle.std.specs.Coded.{codes};
    ghost use Rattle.script_value.specs.contracts.value.Value as value;
    ghost use Rattle.tag_script.specs.declared.env.Env.{Env};
    ghost use Rattle.tag_script.specs.Weight.{weight_of};

    ghost Value = { Env };

    ghost coded = { Prim.hlevel (codes, value.the_row.coded) };

    ghost view = { λ w. w.env };

    ghost invariant = { λ w. weight_of w.env ≤ w.most };
}

impl Weighed {
    pub(crate) fn of(env: Env, weight: u64) -> Weighed
        requires { weight_of env ≤ weight }
        ensures { result ≡ env }
    {
        Weighed { env, most: weight }
    }

    pub(crate) fn env(&self) -> &Env
        ensures { result.now ≡ self.now }
    {
        &self.env
    }

    /// A number that the environment doesn't weigh more than.
    pub(crate) fn weight(&self) -> u64
        ensures { weight_of self.now ≤ result }
    {
        self.most
    }

    pub(crate) fn into_env(self) -> Env
        ensures { result ≡ self }
    {
        self.env
    }
}

/// What a value so large weighs.
fn weight_so_large(large: Measures) -> u64
    ensures { result ≡ weight_so_large large }
{
    large.values.saturating_mul(128).saturating_add(large.bytes)
}

/// What a value weighs.
fn weight(value: &Value) -> u64
    ensures { result ≡ capped (weight value.now) }
{
    weight_so_large(value.measures())
}

/// What a variable weighs with its name, where it is there.
fn variable_weight(name: &Text, value: &Option<Value>) -> u64
    ensures { result ≡ capped (variable_weight name.now value.now) }
{
    match value {
        Some(value) => weight(value).saturating_add(name.byte_len()),
        None => 0,
    }
}

/// What a step weighs.
pub(crate) fn weight_of_step(step: &Step) -> u64 {
    match step {
        Step::Word(word) => word.byte_len(),
        Step::Index(index) => weight(index),
    }
}

/// What an environment weighs.
pub(crate) fn weight_of(env: &Env) -> u64
    ensures { result ≡ capped (weight_of env.now) }
{
    let variables = weight_so_large(of_members(&env.vars).around());
    weight(&env.out).saturating_add(variables)
}

/// What a value weighs that is within the limits of values.
fn tested_weight(value: &Value) -> Result<u64, RunRefused>
    ensures { Gives result (and_then (tested value.now) (λ kept. Ok (capped (weight kept)))) }
{
    let large = value.measures();
    match large.first_limit() {
        None => Ok(weight_so_large(large)),
        Some(limit) => Err(RunRefused::Fault(TagKind::of_limit(limit))),
    }
}

/// What is weighed after a part is taken out and another put in. Where that is too much, memory is wanted.
fn exchanged(all: u64, before: u64, after: u64, most: u64) -> Result<u64, Memory>
    ensures { IfOk result (λ now. (now ≤ most) × (now < 2 ^ 64 - 1) × (now ≡ all - before + after)) }
{
    let now = all.saturating_sub(before).saturating_add(after);
    if now > most || now == u64::MAX {
        Err(Memory)
    } else {
        Ok(now)
    }
}

/// `out` with `new` behind the steps.
pub(crate) fn change_out(
    scope: Scope,
    path: &[Step],
    new: Value,
    weighed: Weighed,
) -> Result<Weighed, RunRefused>
    ensures after { Gives result (spec.change_out path.now new weighed) }
    ensures room { IfOk result (λ after. weight_of after ≤ scope.most) }
{
    let Weighed { mut env, most } = weighed;
    let old = mem::replace(&mut env.out, Value::Null);
    let before = weight(&old);
    let whole = changed(scope.alloc, path, new, Some(old))?;
    let after = tested_weight(&whole)?;
    let most = exchanged(most, before, after, scope.most)?;
    env.out = whole;
    Ok(Weighed { env, most })
}

/// The variable of this name with `new` behind the steps.
pub(crate) fn change_variable(
    scope: Scope,
    name: &Text,
    path: &[Step],
    new: Value,
    weighed: Weighed,
) -> Result<Weighed, RunRefused>
    ensures after { Gives result (spec.change_variable name.now path.now new weighed) }
    ensures room { IfOk result (λ after. weight_of after ≤ scope.most) }
{
    let Weighed { mut env, most } = weighed;
    let old = take_member(&mut env.vars, name);
    let before = variable_weight(name, &old);
    let whole = changed(scope.alloc, path, new, old)?;
    let after = tested_weight(&whole)?.saturating_add(name.byte_len());
    let most = exchanged(most, before, after, scope.most)?;
    put_member(&mut env.vars, name.copy()?, whole)?;
    Ok(Weighed { env, most })
}
