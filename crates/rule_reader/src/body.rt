//! What a body means: one walk over the tree that it is written as.
ghost use Rattle.std.specs.Prelude.{IfOk};
ghost use Rattle.rule_reader.specs.code.Walks.{EachShown, PartsShown, Walked, PartsWalked};
ghost use Rattle.rule_reader.specs.Leaves.{leaves};

use crate::context::Context;
use crate::leaves::name::read_name;
use crate::leaves::reference::read_reference;
use crate::leaves::tag::read_tag;
use crate::leaves::times::{read_times, repeated};
use crate::leaves::token::read_token;
use crate::leaves::weight::read_weight;
use abnf_parser::Written;
use grammar_tree::Expansion;
use std::alloc::Global;
use vg_base::{Boxed, DocFault, Items, Memory, Text};

#[cycle(walk)]
fn read_parts(
    alloc: Global,
    text: &Text,
    context: Context,
    parts: &[Written],
    found: &mut Option<DocFault>,
) -> Result<Items<Expansion>, Memory>
    requires { PartsShown text.now parts.now }
    ensures { IfOk result (PartsWalked text.now context parts.now found.old found.new) }
{
    let mut read = Items::new(alloc);
    for part in parts {
        read.push(read_body(alloc, text, context, part, found)?)?;
    }
    Ok(read)
}

/// What a body means, or a part of it.
#[cycle(walk)]
pub(crate) fn read_body(
    alloc: Global,
    text: &Text,
    context: Context,
    body: &Written,
    found: &mut Option<DocFault>,
) -> Result<Expansion, Memory>
    requires { EachShown text.now (leaves body.now) }
    ensures { IfOk result (Walked text.now context body.now found.old found.new) }
{
    match body {
        Written::Token(span) => read_token(alloc, text, context, *span, found),
        Written::Name(span) => read_name(alloc, text, context, *span, found),
        Written::UriRef(span) => read_reference(alloc, text, context, *span, found),
        Written::Tag(span) => read_tag(alloc, text, context, *span, found),
        Written::Nothing => Ok(Expansion::Null),
        Written::Sequence(parts) => {
            let read = read_parts(alloc, text, context, parts.as_slice(), found)?;
            Ok(Expansion::Seq(read))
        }
        Written::Alternatives(parts) => {
            let read = read_parts(alloc, text, context, parts.as_slice(), found)?;
            Ok(Expansion::Alt(read))
        }
        Written::Weighted { weight, inner } => {
            read_weight(alloc, text, *weight, found)?;
            let meant = read_body(alloc, text, context, inner.get(), found)?;
            Ok(meant)
        }
        Written::Optional(inner) => {
            let meant = read_body(alloc, text, context, inner.get(), found)?;
            Ok(Expansion::Rep {
                least: 0,
                most: Some(1),
                inner: Boxed::new(alloc, meant)?,
            })
        }
        Written::Repeated { times, inner } => {
            let turns = read_times(alloc, text, *times, found)?;
            let meant = read_body(alloc, text, context, inner.get(), found)?;
            let whole = repeated(alloc, turns, meant)?;
            Ok(whole)
        }
    }
}
