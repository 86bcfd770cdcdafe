//! References by URI (SRGS 1.0 section 2.2.2).
ghost use Rattle.std.specs.Prelude.{◌≡◌, true, IfOk, MatchOption};
ghost use Rattle.abnf_parser.specs.declared.written.Written.TheVariants as w;
ghost use Rattle.grammar_tree.specs.declared.expansion.Goal.{Goal};
ghost use Rattle.uri_links.specs.Allowed.{is_reference};
ghost use Rattle.uri_links.specs.Parts.{parts};
ghost use Rattle.uri_links.specs.Split.{before, hash};
ghost use Rattle.rule_reader.specs.References.{GoalIs, IsGoal};
ghost use Rattle.rule_reader.specs.code.Walks.{IsShown, Walked};

use crate::context::Context;
use crate::escapes::name_of;
use crate::found::tell;
use crate::places::inside_at;
use abnf_lexer::Spanned;
use grammar_tree::{Expansion, Goal, Reference};
use std::alloc::Global;
use uri_links::{Uri, split_fragment};
use vg_base::{DocFault, DocKind, Memory, Refused, Text};

/// What a reference refers to.
fn target_of(alloc: Global, uri: &Uri) -> Result<Option<Goal>, Memory>
    requires { is_reference uri.now ≡ true }
    ensures { IfOk result (λ o. MatchOption o ((g : Goal) → GoalIs (parts uri.now).fragment (before hash uri.now) g → ⊥)
        (λ g. GoalIs (parts uri.now).fragment (before hash uri.now) g)) }
{
    let (front, fragment) = split_fragment(alloc, uri)?;
    let to = front.text().copy()?;
    match fragment {
        None => Ok(Some(Goal::Root { uri: to })),
        Some(fragment) => match name_of(alloc, &fragment)? {
            Some(rule) => Ok(Some(Goal::Named { uri: to, rule })),
            None => Ok(None),
        },
    }
}

/// What the text refers to, where it is a reference.
fn goal_of(alloc: Global, inside: &Text) -> Result<Option<Goal>, Memory>
    ensures { IfOk result (λ o. MatchOption o ((g : Goal) → IsGoal inside.now g → ⊥) (λ g. IsGoal inside.now g)) }
{
    match Uri::read(alloc, inside) {
        Ok(uri) => {
            let target = target_of(alloc, &uri)?;
            Ok(target)
        }
        Err(Refused::Fault(_)) => Ok(None),
        Err(Refused::Memory) => Err(Memory),
    }
}

pub(crate) fn read_reference(
    alloc: Global,
    text: &Text,
    context: Context,
    span: Spanned,
    found: &mut Option<DocFault>,
) -> Result<Expansion, Memory>
    requires { IsShown text.now span }
    ensures { IfOk result (Walked text.now context (w.UriRef span) found.old found.new) }
{
    let inside = inside_at(alloc, text, span)?;
    match goal_of(alloc, &inside)? {
        Some(goal) => Ok(Expansion::Ref(Reference {
            place: span.place,
            goal,
        })),
        None => {
            tell(found, true, span, DocKind::BadUri);
            Ok(Expansion::Null)
        }
    }
}
