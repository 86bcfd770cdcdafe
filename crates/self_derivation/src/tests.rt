//! Rows of small grammars, whose nodes are numbered in reading order, and which of their rules derive themselves.
ghost use Rattle.std.specs.Prelude.{◌≡◌, ◌≤◌, ◌<◌, ◌^◌, IfSome, length, map};
ghost use Rattle.std.specs.Bool.{OnFalse, OnTrue};
ghost use Rattle.std.specs.List.{All};
ghost use Rattle.grammar_tree.specs.Links.{RefersBelow};
ghost use Rattle.grammar_tree.specs.ReadingOrder.{IsSubtree, AreSubtrees};

use crate::nodes::{parts, reference};
use crate::self_deriving;
use grammar_tree::laws::reading_order_links;
use grammar_tree::{Linked, LinkedRule, Node};
use sqlite_items::Items;
use std::alloc::Global;
use std::process::Abort;
use std::test::Fail;
use vg_base::{DocIx, Memory, NodeIx, RuleIx, Text, Word};

/// Where the node and all below it end, if they are numbered in reading order, within so many levels.
fn subtree_end(nodes: &[Node], n: NodeIx, levels: u32) -> Option<usize>
    ensures { IfSome result (λ end. IsSubtree nodes.now n end) }
{
    if levels == 0 || n.0 as usize >= nodes.len() {
        return None;
    }
    let all = parts(&nodes[n.0 as usize]);
    let mut end = n.0 as usize + 1;
    for part in all {
        if part.0 as usize != end {
            return None;
        }
        end = subtree_end(nodes, *part, levels - 1)?;
    }
    Some(end)
}

/// Where the bodies of the rules end.
fn bodies_end(nodes: &[Node], rules: &[LinkedRule]) -> Option<usize>
    ensures { IfSome result (λ end. AreSubtrees nodes.now (map (λ r. r.body) rules.now) 0 end) }
{
    let mut end = 0;
    for rule in rules {
        if rule.body.0 as usize != end {
            return None;
        }
        end = subtree_end(nodes, rule.body, 8)?;
    }
    Some(end)
}

fn refer_below(nodes: &[Node], count: usize) -> bool
    ensures { OnTrue result (All (RefersBelow count) nodes.now) }
{
    for node in nodes {
        if refers_past(node, count) {
            return false;
        }
    }
    true
}

#[tactic(auto, using(crate::proofs::RowLemmas::refers_nothing, crate::proofs::RowLemmas::refers_within))]
fn refers_past(node: &Node, count: usize) -> bool
    ensures { OnFalse result (RefersBelow count node.now) }
{
    match reference(node) {
        Some(rule) => rule.0 as usize >= count,
        None => false,
    }
}

fn linked(nodes: Items<Node>, rules: Items<LinkedRule>) -> Option<Linked> {
    let count = nodes.len();
    if count > 1 << 32 || !refer_below(nodes.as_slice(), rules.len()) {
        return None;
    }
    let Some(end) = bodies_end(nodes.as_slice(), rules.as_slice()) else {
        return None;
    };
    if end != count {
        return None;
    }
    reading_order_links();
    Some(Linked::new(nodes, rules))
}

/// A node as it is written in a row: the numbers are those of nodes, or of the rule that is referred to.
#[derive(Clone, Copy)]
enum Shape {
    X,
    Null,
    Void,
    Seq(&'static [u32]),
    Alt(&'static [u32]),
    Rep(u32, Option<u32>, u32),
    Ref(u32),
}

fn x(alloc: Global) -> Result<Node, Memory> {
    let mut words = Items::new(alloc);
    if let Some(word) = Word::read(Text::of(alloc, "x")?) {
        words.push(word)?;
    }
    Ok(Node::Token(words))
}

fn numbered(alloc: Global, numbers: &[u32]) -> Result<Items<NodeIx>, Memory> {
    let mut parts = Items::new(alloc);
    for n in numbers {
        parts.push(NodeIx(*n))?;
    }
    Ok(parts)
}

fn node_of(alloc: Global, shape: Shape) -> Result<Node, Memory> {
    match shape {
        Shape::X => x(alloc),
        Shape::Null => Ok(Node::Null),
        Shape::Void => Ok(Node::Void),
        Shape::Seq(parts) => Ok(Node::Seq(numbered(alloc, parts)?)),
        Shape::Alt(parts) => Ok(Node::Alt(numbered(alloc, parts)?)),
        Shape::Rep(least, most, inner) => Ok(Node::Rep {
            least,
            most,
            inner: NodeIx(inner),
        }),
        Shape::Ref(rule) => Ok(Node::Ref(RuleIx(rule))),
    }
}

fn nodes_of(alloc: Global, shapes: &[Shape]) -> Result<Items<Node>, Memory> {
    let mut nodes = Items::new(alloc);
    for shape in shapes {
        nodes.push(node_of(alloc, *shape)?)?;
    }
    Ok(nodes)
}

fn rules_at(alloc: Global, bodies: &[u32]) -> Result<Items<LinkedRule>, Memory> {
    let mut rules = Items::new(alloc);
    for body in bodies {
        rules.push(LinkedRule {
            doc: DocIx(0),
            name: Text::of(alloc, "r")?,
            public: false,
            body: NodeIx(*body),
        })?;
    }
    Ok(rules)
}

/// Which rules derive themselves, a letter each.
fn marks(alloc: Global, shapes: &[Shape], bodies: &[u32]) -> Result<String, Fail> {
    let Some(linked) = linked(nodes_of(alloc, shapes)?, rules_at(alloc, bodies)?) else {
        return Err(Fail::from("the nodes are not in reading order"));
    };
    let marks = self_deriving(alloc, &linked)?;
    let mut text = String::new(alloc);
    for mark in &marks {
        text.push_str(if *mark { "y" } else { "n" })?;
    }
    Ok(text)
}

fn expect(
    rt: &impl Abort,
    alloc: Global,
    shapes: &[Shape],
    bodies: &[u32],
    wanted: &str,
) -> Result<(), Fail> {
    let marks = marks(alloc, shapes, bodies)?;
    assert_eq!(rt; marks.as_str(), wanted);
    Ok(())
}

#[test]
fn what_stands_beside_counts(rt: HostRuntime) -> Result<(), Fail> {
    let alloc = rt.alloc();
    // `$a = ([x] $a) <1-2> | x;`, and the same with a word beside it
    expect(
        &rt,
        alloc,
        &[
            Shape::Alt(&[1, 6]),
            Shape::Rep(1, Some(2), 2),
            Shape::Seq(&[3, 5]),
            Shape::Rep(0, Some(1), 4),
            Shape::X,
            Shape::Ref(0),
            Shape::X,
        ],
        &[0],
        "y",
    )?;
    expect(
        &rt,
        alloc,
        &[
            Shape::Alt(&[1, 5]),
            Shape::Rep(1, Some(2), 2),
            Shape::Seq(&[3, 4]),
            Shape::X,
            Shape::Ref(0),
            Shape::X,
        ],
        &[0],
        "n",
    )
}

#[test]
fn rules_lead_on(rt: HostRuntime) -> Result<(), Fail> {
    let alloc = rt.alloc();
    // `$r = $a; $a = $a | x;`
    expect(
        &rt,
        alloc,
        &[Shape::Ref(1), Shape::Alt(&[2, 3]), Shape::Ref(1), Shape::X],
        &[0, 1],
        "ny",
    )?;
    // `$a = $b $a $b | x; $b = $c; $c = [x];`: what can be empty is so through rules
    expect(
        &rt,
        alloc,
        &[
            Shape::Alt(&[1, 5]),
            Shape::Seq(&[2, 3, 4]),
            Shape::Ref(1),
            Shape::Ref(0),
            Shape::Ref(1),
            Shape::X,
            Shape::Ref(2),
            Shape::Rep(0, Some(1), 8),
            Shape::X,
        ],
        &[0, 6, 7],
        "ynn",
    )
}

#[test]
fn turns_count(rt: HostRuntime) -> Result<(), Fail> {
    let alloc = rt.alloc();
    // `$a = $a <2> | x;`, and with `$NULL` for `x`
    let twice = [
        Shape::Alt(&[1, 3]),
        Shape::Rep(2, Some(2), 2),
        Shape::Ref(0),
        Shape::X,
    ];
    expect(&rt, alloc, &twice, &[0], "n")?;
    let empty = [twice[0], twice[1], twice[2], Shape::Null];
    expect(&rt, alloc, &empty, &[0], "y")?;
    // `$a = $a <0> | x; $b = $VOID $b;`
    expect(
        &rt,
        alloc,
        &[
            Shape::Alt(&[1, 3]),
            Shape::Rep(0, Some(0), 2),
            Shape::Ref(0),
            Shape::X,
            Shape::Seq(&[5, 6]),
            Shape::Void,
            Shape::Ref(1),
        ],
        &[0, 4],
        "nn",
    )
}

/// So many rules, each a reference to the next one, and the last one to the first or to nothing.
fn chain(alloc: Global, count: u32, is_closed: bool) -> Result<Option<Linked>, Memory> {
    let mut nodes = Items::new(alloc);
    let mut bodies = Vec::new(alloc);
    for n in 0..count {
        nodes.push(if n < count - 1 {
            Node::Ref(RuleIx(n + 1))
        } else if is_closed {
            Node::Ref(RuleIx(0))
        } else {
            Node::Null
        })?;
        bodies.push(n)?;
    }
    Ok(linked(nodes, rules_at(alloc, &bodies)?))
}

fn count_of(alloc: Global, count: u32, is_closed: bool) -> Result<usize, Fail> {
    let Some(linked) = chain(alloc, count, is_closed)? else {
        return Err(Fail::from("a chain is in reading order"));
    };
    let marks = self_deriving(alloc, &linked)?;
    Ok(marks.iter().filter(|mark| **mark).count())
}

#[test]
fn thirty_thousand_rules_lead_on(rt: HostRuntime) -> Result<(), Fail> {
    assert_eq!(rt; count_of(rt.alloc(), 30_000, true)?, 30_000);
    assert_eq!(rt; count_of(rt.alloc(), 30_000, false)?, 0);
    Ok(())
}
