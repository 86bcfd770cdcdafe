//! What an assignment makes of a value. The value is changed in place: what the steps don't reach isn't copied.
ghost use Rattle.std.specs.Prelude.{◌≡◌, ◌++◌, ◌∷◌, ◌<◌, Ok, IfOk, length, reverse, slice_get, Some};
ghost use Rattle.script_value.specs.declared.value.Value.{Value, out-Value};
ghost use Rattle.script_value.specs.declared.value.Value.TheVariants as v;
ghost use Rattle.vg_base.specs.Pairs.{find, put, IsRising};
ghost use Rattle.tag_script.specs.declared.tag_kind.TagKind.TheVariants as tag;
ghost use Rattle.tag_script.specs.Changes as spec;
ghost use Rattle.vg_base.specs.Refusals.{Gives};
ghost use Rattle.tag_script.specs.Outcomes.{and_then, or_fault};

use crate::fault::kind_fault;
use crate::parts::key_of;
use crate::refused::RunRefused;
use crate::step::Step;
use crate::tag_kind::TagKind;
use script_value::{Value, put_member};
use sqlite_items::Items;
use std::alloc::Global;
use vg_base::{Memory, Text, TextMap};

/// The key that a step names in a record.
fn key_of_step(alloc: Global, step: &Step) -> Result<Option<Text>, Memory>
    ensures { IfOk result (λ key. key ≡ spec.key_of_step step.now) }
{
    match step {
        Step::Word(word) => Ok(Some(word.copy()?)),
        Step::Index(index) => key_of(alloc, index),
    }
}

/// The number that a step names in a list.
fn number_of_step(step: &Step) -> Option<i64>
    ensures { result ≡ spec.number_of_step step.now }
{
    match step {
        Step::Index(Value::Number(n)) => Some(*n),
        _ => None,
    }
}

// ---- the last step

fn with_item(items: Items<Value>, n: i64, new: Value) -> Result<Value, RunRefused>
    ensures { Gives result (spec.with_item items n new) }
{
    let mut items = items;
    let Ok(at) = usize::try_from(n) else {
        return Err(RunRefused::Fault(TagKind::Range));
    };
    if at < items.len() {
        items.set(at, new);
        Ok(Value::List(items))
    } else if at == items.len() {
        items.push(new)?;
        Ok(Value::List(items))
    } else {
        Err(RunRefused::Fault(TagKind::Range))
    }
}

fn with_member(members: TextMap<Value>, key: Text, new: Value) -> Result<Value, RunRefused>
    ensures { Gives result (Ok (v.Record (put key new members))) }
{
    let mut members = members;
    put_member(&mut members, key, new)?;
    Ok(Value::Record(members))
}

/// The value with a new part at the step.
fn with_part(alloc: Global, step: &Step, new: Value, old: Value) -> Result<Value, RunRefused>
    ensures { Gives result (spec.with_part step.now new (out-Value old)) }
{
    match old {
        Value::Record(members) => {
            let Some(key) = key_of_step(alloc, step)? else {
                return kind_fault();
            };
            with_member(members, key, new)
        }
        Value::List(items) => {
            let Some(n) = number_of_step(step) else {
                return kind_fault();
            };
            with_item(items, n, new)
        }
        _ => kind_fault(),
    }
}

// ---- the steps before it

/// The value with `new` behind these steps.
#[cycle(walk)]
fn walked(
    alloc: Global,
    step: &Step,
    more: &[Step],
    new: Value,
    old: Value,
) -> Result<Value, RunRefused>
    ensures { Gives result (spec.walked step.now more.now new old) }
{
    let Some((next, rest)) = more.split_first() else {
        return with_part(alloc, step, new, old);
    };
    match old {
        Value::Record(members) => {
            let Some(key) = key_of_step(alloc, step)? else {
                return kind_fault();
            };
            walked_member(alloc, members, key, next, rest, new)
        }
        Value::List(items) => {
            let Some(n) = number_of_step(step) else {
                return kind_fault();
            };
            walked_item(alloc, items, n, next, rest, new)
        }
        _ => kind_fault(),
    }
}

#[cycle(walk)]
fn walked_member(
    alloc: Global,
    members: TextMap<Value>,
    key: Text,
    next: &Step,
    rest: &[Step],
    new: Value,
) -> Result<Value, RunRefused>
    ensures { Gives result (spec.walked_member members key next.now rest.now new) }
{
    let mut members = members;
    let Some(inner) = take_member(&mut members, &key) else {
        return kind_fault();
    };
    let changed = walked(alloc, next, rest, new, inner)?;
    put_member(&mut members, key, changed)?;
    Ok(Value::Record(members))
}

#[cycle(walk)]
fn walked_item(
    alloc: Global,
    items: Items<Value>,
    n: i64,
    next: &Step,
    rest: &[Step],
    new: Value,
) -> Result<Value, RunRefused>
    ensures { Gives result (spec.walked_item items n next.now rest.now new) }
{
    let Ok(at) = usize::try_from(n) else {
        return kind_fault();
    };
    if at >= items.len() {
        return kind_fault();
    }
    let Taken {
        mut front,
        item,
        behind,
    } = take_item(alloc, items, at)?;
    let changed = walked(alloc, next, rest, new, item)?;
    front.push(changed)?;
    Ok(Value::List(put_behind(front, behind)?))
}

/// Takes the value at a key out, to be changed and put back.
pub(crate) fn take_member(members: &mut TextMap<Value>, key: &Text) -> Option<Value>
    ensures value { result ≡ find key.now members.old }
    ensures again { (x : Value) → put key.now x members.new ≡ put key.now x members.old }
    ensures rising { IsRising members.old }
{
    if members.is_empty() {
        return None;
    }
    members.remove(key)
}

/// A list whose item at a place is taken out.
#[derive(Drop)]
struct Taken {
    front: Items<Value>,
    item: Value,
    /// The items behind, the last one first.
    behind: Items<Value>,
}

fn take_item(alloc: Global, items: Items<Value>, at: usize) -> Result<Taken, Memory>
    requires { at < length items }
    ensures { IfOk result (λ t. (length t.front ≡ at) × (items ≡ t.front ++ (t.item ∷ reverse t.behind))) }
{
    let mut front = items;
    let mut behind = Items::new(alloc);
    while front.len() > at + 1 {
        if let Some(item) = front.pop() {
            behind.push(item)?;
        }
    }
    let item = front.remove(at);
    Ok(Taken {
        front,
        item,
        behind,
    })
}

fn put_behind(items: Items<Value>, behind: Items<Value>) -> Result<Items<Value>, Memory>
    ensures { IfOk result (λ all. all ≡ items ++ reverse behind) }
{
    let mut items = items;
    let mut behind = behind;
    while let Some(item) = behind.pop() {
        items.push(item)?;
    }
    Ok(items)
}

/// The root of a target with `new` behind its steps. A root that isn't there can only be set as a whole.
pub(crate) fn changed(
    alloc: Global,
    path: &[Step],
    new: Value,
    old: Option<Value>,
) -> Result<Value, RunRefused>
    ensures { Gives result (spec.changed path.now new old) }
{
    let Some((step, more)) = path.split_first() else {
        return Ok(new);
    };
    match old {
        Some(old) => walked(alloc, step, more, new, old),
        None => kind_fault(),
    }
}
