//! Linked rules from a row of their nodes, which are numbered as they stand.

ghost use Rattle.std.specs.Prelude.{◌≡◌, ◌∷◌, ◌++◌, ◌≤◌, ◌^◌, length, map, reverse, IsTrue, IfOk};
ghost use Rattle.std.specs.List.{All};
ghost use Rattle.grammar_tree.specs.Links.{RefersBelow, parts};
ghost use Rattle.grammar_tree.specs.ReadingOrder.{AreSubtrees};

use grammar_tree::laws::reading_order_links;
use grammar_tree::{Linked, LinkedRule, Node};
use std::alloc::Global;
use std::test::Fail;
use vg_base::{DocIx, Items, Memory, NodeIx, RuleIx, Text, Word};

/// A node of a row. It stands before its parts, of which a sequence and alternatives have so many.
#[derive(Clone, Copy)]
pub enum Part {
    Token(&'static str),
    Seq(usize),
    Alt(usize),
    Rep(u32, Option<u32>),
    Ref(u32),
    Null,
    Void,
    Garbage,
}

/// The words of a text.
pub fn words(alloc: Global, text: &str) -> Result<Items<Word>, Fail> {
    let mut words = Items::new(alloc);
    for piece in text.split_whitespace() {
        match Word::read(Text::of(alloc, piece)?) {
            Some(word) => words.push(word)?,
            None => return Err(Fail::from("a word has no white space")),
        }
    }
    Ok(words)
}

/// The rules whose bodies stand one after another in the row.
pub fn rules(alloc: Global, row: &[Part]) -> Result<Linked, Fail> {
    let (nodes, bodies) = numbered(alloc, row)?;
    let rules = rules_of(alloc, bodies)?;
    if !refer_below(rules.len(), nodes.as_slice()) {
        return Err(Fail::from("a rule is missing"));
    }
    reading_order_links();
    Ok(Linked::new(nodes, rules))
}

/// The nodes of a row, and the bodies among them, of which the first one stands last.
fn numbered(alloc: Global, row: &[Part]) -> Result<(Items<Node>, Items<NodeIx>), Fail>
    ensures few { IfOk result (λ found. length found.0 ≤ 2 ^ 32) }
    ensures order { IfOk result (λ found. AreSubtrees found.0 (reverse found.1) 0 (length found.0)) }
{
    if row.len() > 65_536 {
        return Err(Fail::from("a row is short"));
    }
    let mut nodes = Items::new(alloc);
    for _ in row {
        nodes.push(Node::Null)?;
    }
    let mut whole = Items::new(alloc);
    let mut at = row.len();
    while at > 0 {
        at -= 1;
        nodes.set(at, node(alloc, row[at], &mut whole)?);
        whole.push(NodeIx(at as u32))?;
    }
    Ok((nodes, whole))
}

/// A node takes its parts from the end of those that are whole.
fn node(alloc: Global, part: Part, whole: &mut Items<NodeIx>) -> Result<Node, Fail>
    ensures { IfOk result (λ node. reverse whole.old ≡ parts node ++ reverse whole.new) }
{
    match part {
        Part::Token(text) => Ok(Node::Token(words(alloc, text)?)),
        Part::Seq(count) => Ok(Node::Seq(take(alloc, count, whole)?)),
        Part::Alt(count) => Ok(Node::Alt(take(alloc, count, whole)?)),
        Part::Rep(least, most) => {
            let inner = last(whole)?;
            Ok(Node::Rep { least, most, inner })
        }
        Part::Ref(rule) => Ok(Node::Ref(RuleIx(rule))),
        Part::Null => Ok(Node::Null),
        Part::Void => Ok(Node::Void),
        Part::Garbage => Ok(Node::Garbage),
    }
}

/// So many parts, the last one first.
fn take(alloc: Global, count: usize, whole: &mut Items<NodeIx>) -> Result<Items<NodeIx>, Fail>
    ensures { IfOk result (λ parts. reverse whole.old ≡ parts ++ reverse whole.new) }
{
    let mut parts = Items::new(alloc);
    for _ in 0..count {
        parts.push(last(whole)?)?;
    }
    Ok(parts)
}

/// The last one of those that are whole.
fn last(whole: &mut Items<NodeIx>) -> Result<NodeIx, Fail>
    ensures { IfOk result (λ part. reverse whole.old ≡ part ∷ reverse whole.new) }
{
    match whole.pop() {
        Some(part) => Ok(part),
        None => Err(Fail::from("a part is missing")),
    }
}

/// Rules with these bodies, the last one first.
fn rules_of(alloc: Global, mut bodies: Items<NodeIx>) -> Result<Items<LinkedRule>, Memory>
    ensures { IfOk result (λ rules. map (λ r. r.body) rules ≡ reverse bodies) }
{
    let mut rules = Items::new(alloc);
    while let Some(body) = bodies.pop() {
        rules.push(LinkedRule {
            doc: DocIx(0),
            name: Text::of(alloc, "r")?,
            public: true,
            body,
        })?;
    }
    Ok(rules)
}

/// Whether each reference is to one of so many rules.
fn refer_below(count: usize, nodes: &[Node]) -> bool
    ensures { IsTrue result → All (RefersBelow count) nodes.now }
{
    nodes.iter().all(|node| refers_below(count, node))
}

fn refers_below(count: usize, node: &Node) -> bool
    ensures { IsTrue result → RefersBelow count node.now }
{
    match node {
        Node::Ref(rule) => (rule.0 as usize) < count,
        _ => true,
    }
}
