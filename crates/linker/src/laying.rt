//! Expansions as numbered nodes, in reading order.
ghost use Rattle.std.specs.Prelude.{◌≡◌, ◌≤◌, ◌∷◌, ◌++◌, [], IfOk, OnOk, length, reverse};
ghost use Rattle.grammar_tree.specs.declared.linked.Node.TheVariants as node;
ghost use Rattle.linker.specs.code.Layings.{Lays, StartAt, Follows};

use crate::faults::Faults;
use crate::scope::{Scope, target};
use crate::set_fault::FaultKind;
use crate::target::Target;
use grammar_tree::{Expansion, Node, Reference};
use sqlite_items::Items;
use std::alloc::Global;
use vg_base::{Memory, NodeIx, RuleIx};

/// The nodes so far, and the faults that were told.
#[derive(Debug, Drop)]
pub struct Laying {
    pub nodes: Vec<Node>,
    pub faults: Faults,
}

/// The number of the next node. Where 32 bits can't number it, memory is wanted.
pub(crate) fn next(laying: &Laying) -> Result<NodeIx, Memory>
    ensures { IfOk result (λ next. next.0 ≡ length laying.now.nodes.items) }
{
    match u32::try_from(laying.nodes.len()) {
        Ok(next) => Ok(NodeIx(next)),
        Err(_) => Err(Memory),
    }
}

/// The items, the last one first.
pub(crate) fn reversed<T: Drop>(alloc: Global, items: Items<T>) -> Result<Vec<T>, Memory>
    ensures { IfOk result (λ all. all.items ≡ reverse items) }
{
    let mut items = items;
    let mut all = Vec::new(alloc);
    while let Some(last) = items.pop() {
        all.push(last)?;
    }
    Ok(all)
}

/// Lays an expansion: its node, and behind it those of its parts. Its words and tags move into them.
#[cycle(lay)]
pub(crate) fn lay(
    alloc: Global,
    scope: &Scope<'_>,
    e: Expansion,
    laying: &mut Laying,
) -> Result<(), Memory>
    ensures laid { OnOk result (Lays scope.now (e ∷ []) laying.old laying.new) }
    ensures longer { OnOk result (length laying.old.nodes.items ≤ length laying.new.nodes.items) }
{
    let node = match e {
        Expansion::Seq(parts) => {
            let at = hold(laying)?;
            let starts = lay_all(alloc, scope, reversed(alloc, parts)?, laying)?;
            laying.nodes[at] = Node::Seq(starts);
            return Ok(());
        }
        Expansion::Alt(parts) => {
            let at = hold(laying)?;
            let starts = lay_all(alloc, scope, reversed(alloc, parts)?, laying)?;
            laying.nodes[at] = Node::Alt(starts);
            return Ok(());
        }
        Expansion::Rep { least, most, inner } => {
            let at = hold(laying)?;
            let start = next(laying)?;
            lay(alloc, scope, inner.into_inner(), laying)?;
            laying.nodes[at] = Node::Rep {
                least,
                most,
                inner: start,
            };
            return Ok(());
        }
        Expansion::Ref(reference) => Node::Ref(follow(alloc, scope, &reference, laying)?),
        Expansion::Token(words) => Node::Token(words),
        Expansion::Tag(tag) => Node::Tag(tag),
        Expansion::Null => Node::Null,
        Expansion::Void => Node::Void,
        Expansion::Garbage => Node::Garbage,
    };
    laying.nodes.push(node)?;
    Ok(())
}

/// Keeps a place for a node that comes when its parts are laid.
fn hold(laying: &mut Laying) -> Result<usize, Memory>
    ensures at { IfOk result (λ at. at ≡ length laying.old.nodes.items) }
    ensures nodes { OnOk result (laying.new.nodes.items ≡ laying.old.nodes.items ++ node.Null ∷ []) }
    ensures faults { OnOk result (laying.new.faults ≡ laying.old.faults) }
{
    let at = laying.nodes.len();
    laying.nodes.push(Node::Null)?;
    Ok(at)
}

/// Lays parts, which come with the last one first, and gives their numbers.
#[cycle(lay)]
fn lay_all(
    alloc: Global,
    scope: &Scope<'_>,
    parts: Vec<Expansion>,
    laying: &mut Laying,
) -> Result<Items<NodeIx>, Memory>
    ensures laid { OnOk result (Lays scope.now (reverse parts.items) laying.old laying.new) }
    ensures starts { IfOk result (λ starts. StartAt scope.now (reverse parts.items) (length laying.old.nodes.items) starts) }
    ensures longer { OnOk result (length laying.old.nodes.items ≤ length laying.new.nodes.items) }
{
    let mut parts = parts;
    let mut starts = Items::new(alloc);
    while let Some(part) = parts.pop() {
        starts.push(next(laying)?)?;
        lay(alloc, scope, part, laying)?;
    }
    Ok(starts)
}

/// The rule that a reference means; where it means none, its fault is told.
fn follow(
    alloc: Global,
    scope: &Scope<'_>,
    reference: &Reference,
    laying: &mut Laying,
) -> Result<RuleIx, Memory>
    ensures nodes { OnOk result (laying.new.nodes ≡ laying.old.nodes) }
    ensures follows { IfOk result (Follows scope.now reference.now laying.old laying.new) }
{
    match target(alloc, scope, &reference.goal)? {
        Target::Rule(rule) => Ok(rule),
        Target::Fault(kind) => {
            laying
                .faults
                .tell(scope.key, reference.place, FaultKind::Link(kind))?;
            Ok(RuleIx(0))
        }
        Target::Untold => Ok(RuleIx(0)),
    }
}
