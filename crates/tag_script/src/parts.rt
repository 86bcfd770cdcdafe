//! Parts of values that are read.
ghost use Rattle.std.specs.Prelude.{◌≡◌, IfOk, length};
ghost use Rattle.std.specs.Option.{option_copied};
ghost use Rattle.script_value.specs.declared.value.Value.{out-Value};
ghost use Rattle.tag_script.specs.Parts as spec;
ghost use Rattle.tag_script.specs.code.Seen.{Shows, seen};

use crate::fault::kind_fault;
use crate::numbers::{count, decimal};
use crate::refused::RunRefused;
use crate::seen::Seen;
use crate::step::Step;
use script_value::Value;
use std::alloc::Global;
use vg_base::{Memory, Text};

/// What is there, or null.
pub(crate) fn or_null<'e>(found: Option<&'e Value>) -> Seen<'e>
    ensures { seen result ≡ spec.or_null (option_copied found.entry) }
{
    match found {
        Some(value) => Seen::Lent(value),
        None => Seen::Made(Value::Null),
    }
}

fn is_length(word: &Text) -> bool
    ensures { result ≡ spec.is_length word.now }
{
    word.as_str() == "length"
}

#[tactic(auto, using(std::proofs::lemmas::Str::chars_from_encodes))]
fn character_count(text: &Text) -> usize
    ensures { result ≡ length text.now }
{
    text.as_str().chars().count()
}

/// `value.word`
fn member<'e>(value: &'e Value, word: &Text) -> Result<Seen<'e>, RunRefused>
    ensures { Shows result (spec.member word.now (out-Value value.now)) }
{
    match value {
        Value::Record(members) => Ok(or_null(members.get(word))),
        Value::List(items) => {
            if is_length(word) {
                Ok(Seen::Made(count(items.len())?))
            } else {
                kind_fault()
            }
        }
        Value::Str(text) => {
            if is_length(word) {
                Ok(Seen::Made(count(character_count(text))?))
            } else {
                kind_fault()
            }
        }
        _ => kind_fault(),
    }
}

/// The key that an index names in a record.
pub(crate) fn key_of(alloc: Global, index: &Value) -> Result<Option<Text>, Memory>
    ensures { IfOk result (λ key. key ≡ spec.key_of (out-Value index.now)) }
{
    match index {
        Value::Str(text) => Ok(Some(text.copy()?)),
        Value::Number(n) => Ok(Some(decimal(alloc, *n)?)),
        _ => Ok(None),
    }
}

/// `value[index]`
fn indexed<'e>(alloc: Global, value: &'e Value, index: &Value) -> Result<Seen<'e>, RunRefused>
    ensures { Shows result (spec.indexed (out-Value value.now) (out-Value index.now)) }
{
    match value {
        Value::List(_) => match index {
            Value::Number(n) => Ok(or_null(value.item(*n))),
            _ => kind_fault(),
        },
        Value::Record(members) => {
            let Some(key) = key_of(alloc, index)? else {
                return kind_fault();
            };
            Ok(or_null(members.get(&key)))
        }
        _ => kind_fault(),
    }
}

/// The part of a value that a step names.
pub(crate) fn part<'e>(alloc: Global, value: &'e Value, step: &Step) -> Result<Seen<'e>, RunRefused>
    ensures { Shows result (spec.part value.now step.now) }
{
    match step {
        Step::Word(word) => member(value, word),
        Step::Index(index) => indexed(alloc, value, index),
    }
}

/// The part of a value that was seen: a part of one that is lent is lent.
pub(crate) fn part_of<'e>(
    alloc: Global,
    whole: Seen<'e>,
    step: &Step,
) -> Result<Seen<'e>, RunRefused>
    ensures { Shows result (spec.part (seen whole.entry) step.now) }
{
    match whole {
        Seen::Lent(value) => part(alloc, value, step),
        Seen::Made(value) => Ok(Seen::Made(part(alloc, &value, step)?.into_value(alloc)?)),
    }
}
