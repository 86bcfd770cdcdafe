//! What one node says: which nodes it looks at, how many of them have to be empty, and which parts it may hold alone.
ghost use Rattle.std.specs.Prelude.{◌≡◌, ◌<◌, length};
ghost use Rattle.std.specs.List.{All};
ghost use Rattle.grammar_tree.specs.Links.{RefersBelow, parts};
ghost use Rattle.self_derivation.specs.code.Marks.{is_marked};
ghost use Rattle.self_derivation.specs.code.Nodes.{below, needs, turns_needed, reference, passes_on, worded};

use grammar_tree::{Linked, Node};
use std::slice;
use vg_base::{NodeIx, RuleIx};

/// The parts of the node, in reading order.
pub(crate) fn parts(node: &Node) -> &[NodeIx]
    ensures { result.now ≡ parts node.now }
{
    match node {
        Node::Seq(parts) => parts.as_slice(),
        Node::Alt(parts) => parts.as_slice(),
        Node::Rep { inner, .. } => slice::from_ref(inner),
        Node::Token(_) | Node::Ref(_) | Node::Tag(_) | Node::Null | Node::Void | Node::Garbage =>
            &[],
    }
}

/// The rule that the node refers to.
pub(crate) fn reference(node: &Node) -> Option<RuleIx>
    ensures { result ≡ reference node.now }
{
    match node {
        Node::Ref(rule) => Some(*rule),
        Node::Token(_)
        | Node::Seq(_)
        | Node::Alt(_)
        | Node::Rep { .. }
        | Node::Tag(_)
        | Node::Null
        | Node::Void
        | Node::Garbage => None,
    }
}

/// The nodes that the node looks at: its parts, or the body of the rule that it refers to.
pub(crate) fn below<'a>(linked: &'a Linked, node: &'a Node) -> &'a [NodeIx]
    requires { RefersBelow (length linked.now.rules) node.now }
    ensures { result.now ≡ below linked.now node.now }
{
    match reference(node) {
        Some(rule) => slice::from_ref(&linked.rule(rule).body),
        None => parts(node),
    }
}

/// How many of the nodes that it looks at have to be empty so that it can be.
pub(crate) fn needs(node: &Node) -> usize
    ensures { result ≡ needs node.now }
{
    match node {
        Node::Token(words) => usize::from(!words.is_empty()),
        Node::Seq(parts) => parts.len(),
        Node::Rep { least, most, .. } => turns_needed(*least, *most),
        Node::Alt(_) | Node::Ref(_) | Node::Void => 1,
        Node::Tag(_) | Node::Null | Node::Garbage => 0,
    }
}

/// Turns past the least have words, so an empty repeat has its least of turns, and none where its most is below.
fn turns_needed(least: u32, most: Option<u32>) -> usize
    ensures { result ≡ turns_needed least most }
{
    match most {
        Some(most) if most < least => 2,
        _ => usize::from(least > 0),
    }
}

/// Whether the node holds alone what a part holds alone, by how many of its parts have words always.
pub(crate) fn passes_on(node: &Node, worded: usize, can_be_empty: bool) -> bool
    ensures { result ≡ passes_on node.now worded can_be_empty }
{
    match node {
        Node::Seq(_) => worded <= usize::from(!can_be_empty),
        Node::Alt(_) => true,
        Node::Rep { most: Some(0), .. } => false,
        Node::Rep { least, .. } => *least <= 1 || can_be_empty,
        _ => false,
    }
}

/// How many of the parts can't be empty.
pub(crate) fn worded(parts: &[NodeIx], empty: &[bool]) -> usize
    requires { All (λ p. p.0 < length empty.now) parts.now }
    ensures { result ≡ worded (is_marked empty.now) parts.now }
{
    let mut count = 0;
    for part in parts {
        if !empty[part.0 as usize] {
            count += 1;
        }
    }
    count
}
