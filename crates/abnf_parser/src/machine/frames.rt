//! What was read of the alternatives in a bracket.
ghost use Rattle.std.specs.Prelude.{◌≡◌, Some, IfOk};
ghost use Rattle.abnf_parser.specs.Expansions as meant;
ghost use Rattle.abnf_parser.specs.code.Bodies as spec;

use crate::machine::stack::{Around, Body, Frame, Outer, Point, Stack, Turn};
use crate::written::Written;
use abnf_lexer::Spanned;
use std::alloc::Global;
use vg_base::{Boxed, Items, Memory};

fn sequence(mut parts: Items<Written>) -> Written
    ensures { result ≡ meant.sequence parts }
{
    if parts.len() == 1 {
        if let Some(only) = parts.pop() {
            return only;
        }
    }
    Written::Sequence(parts)
}

fn choice(mut parts: Items<Written>) -> Written
    ensures { result ≡ meant.choice parts }
{
    if parts.len() == 1 {
        if let Some(only) = parts.pop() {
            return only;
        }
    }
    Written::Alternatives(parts)
}

fn weighted(alloc: Global, weight: Option<Spanned>, inner: Written) -> Result<Written, Memory>
    ensures { IfOk result (λ w. w ≡ meant.weighted weight inner) }
{
    match weight {
        None => Ok(inner),
        Some(weight) => Ok(Written::Weighted {
            weight,
            inner: Boxed::new(alloc, inner)?,
        }),
    }
}

/// What is repeated so many times.
pub(crate) fn repeated(alloc: Global, times: Spanned, inner: Written) -> Result<Written, Memory>
    ensures { IfOk result (λ w. w ≡ meant.repeated (Some times) inner) }
{
    Ok(Written::Repeated {
        times,
        inner: Boxed::new(alloc, inner)?,
    })
}

pub(crate) fn fresh(alloc: Global) -> Frame
    ensures { result ≡ spec.fresh }
{
    Frame {
        done: Items::new(alloc),
        weight: None,
        items: Items::new(alloc),
    }
}

/// The frame at the start of an alternative of this weight.
pub(crate) fn weighed(alloc: Global, frame: Frame, weight: Option<Spanned>) -> Frame
    ensures { result ≡ spec.weighed frame weight }
{
    let Frame { done, .. } = frame;
    Frame {
        done,
        weight,
        items: Items::new(alloc),
    }
}

/// The frame with one more item.
pub(crate) fn with_item(frame: Frame, item: Written) -> Result<Frame, Memory>
    ensures { IfOk result (λ f. f ≡ spec.with_item frame item) }
{
    let Frame {
        done,
        weight,
        mut items,
    } = frame;
    items.push(item)?;
    Ok(Frame {
        done,
        weight,
        items,
    })
}

/// The alternatives, this one too.
fn all_of(alloc: Global, frame: Frame) -> Result<Items<Written>, Memory>
    ensures { IfOk result (λ all. all ≡ spec.all_of frame) }
{
    let Frame {
        mut done,
        weight,
        items,
    } = frame;
    let last = weighted(alloc, weight, sequence(items))?;
    done.push(last)?;
    Ok(done)
}

/// The frame behind a bar.
pub(crate) fn barred(alloc: Global, frame: Frame) -> Result<Frame, Memory>
    ensures { IfOk result (λ f. f ≡ spec.barred frame) }
{
    Ok(Frame {
        done: all_of(alloc, frame)?,
        weight: None,
        items: Items::new(alloc),
    })
}

/// What all the alternatives are.
pub(crate) fn whole(alloc: Global, frame: Frame) -> Result<Written, Memory>
    ensures { IfOk result (λ w. w ≡ meant.choice (spec.all_of frame)) }
{
    Ok(choice(all_of(alloc, frame)?))
}

/// What a bracket is, as an atom of what stands around it.
pub(crate) fn enclosed(alloc: Global, around: Around, inner: Written) -> Result<Written, Memory>
    ensures { IfOk result (λ w. w ≡ spec.enclosed around inner) }
{
    match around {
        Around::Round => Ok(inner),
        Around::Square => Ok(Written::Optional(Boxed::new(alloc, inner)?)),
    }
}

pub(crate) fn on(outer: Stack<Outer>, frame: Frame, point: Point) -> Turn
    ensures { result ≡ spec.on outer frame point }
{
    Turn::On(Body {
        outer,
        frame,
        point,
    })
}

/// One more bracket is open.
pub(crate) fn opened(
    around: Around,
    mut outer: Stack<Outer>,
    frame: Frame,
) -> Result<Stack<Outer>, Memory>
    ensures { IfOk result (λ o. o ≡ spec.opened around outer frame) }
{
    outer.push(Outer { around, frame })?;
    Ok(outer)
}
