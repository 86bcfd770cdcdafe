//! Rules whose references are numbers of rules, and whose expansions are numbered nodes.

ghost use Rattle.std.specs.Prelude.{◌≡◌, ◌≤◌, ◌<◌, ◌^◌, length, slice_get, Some};
ghost use Rattle.std.specs.List.{All};
ghost use Rattle.grammar_tree.specs.Links.{IsLinked, Rules, RefersBelow, parts};

use crate::expansion::TagNode;
use sqlite_items::Items;
use std::marker::Model;
use vg_base::{DocIx, NodeIx, RuleIx, Text, Word};

/// An expansion whose parts and reference are numbers.
#[derive(Debug, Drop)]
pub enum Node {
    Token(Items<Word>),
    Seq(Items<NodeIx>),
    Alt(Items<NodeIx>),
    Rep {
        least: u32,
        most: Option<u32>,
        inner: NodeIx,
    },
    Ref(RuleIx),
    Tag(TagNode),
    Null,
    Void,
    Garbage,
}

/// A rule with its document's number, from 0, and the node of its body.
#[derive(Debug, Drop, PartialEq, Eq)]
pub struct LinkedRule {
    pub doc: DocIx,
    pub name: Text,
    pub public: bool,
    pub body: NodeIx,
}

/// Rules of documents that were linked. Contracts see the lists of nodes and rules; the type keeps that
/// every number is in range, that a part's number is above its node's, that each node is the body of one rule
/// or a part of one node, and that 32 bits number the nodes.
#[derive(Debug, Drop)]
pub struct Linked {
    nodes: Items<Node>,
    rules: Items<LinkedRule>,
}

impl Model for Linked {
    ghost use Rattle.grammar_tree.specs.Links.{Rules, IsLinked};
    ghost use Rattle.vg_base.specs.contracts.script.Stmt as stmt;
    ghost use Rattle.std.specs.Coded.{codes};

    ghost Value = { Rules };

    ghost coded = { Prim.hlevel (codes, stmt.the_row.coded) };

    ghost view = { λ l. record { nodes = l.nodes; rules = l.rules } };

    ghost invariant = { λ l. IsLinked (record { nodes = l.nodes; rules = l.rules }) };
}

impl Linked {
    pub fn new(nodes: Items<Node>, rules: Items<LinkedRule>) -> Linked
        requires { IsLinked (record { nodes = nodes; rules = rules }) }
        ensures { result ≡ record { nodes = nodes; rules = rules } }
    {
        Linked { nodes, rules }
    }

    pub fn node_count(&self) -> usize
        ensures count { result ≡ length self.now.nodes }
        ensures few { length self.now.nodes ≤ 2 ^ 32 }
        ensures linked { IsLinked self.now }
    {
        self.nodes.len()
    }

    pub fn rule_count(&self) -> usize
        ensures count { result ≡ length self.now.rules }
        ensures few { length self.now.rules ≤ 2 ^ 32 }
        ensures linked { IsLinked self.now }
    {
        self.rules.len()
    }

    pub fn node(&self, at: NodeIx) -> &Node
        requires { at.0 < length self.now.nodes }
        ensures value { slice_get self.now.nodes at.0 ≡ Some result.now }
        ensures parts { All (λ part. (at.0 < part.0) × (part.0 < length self.now.nodes)) (parts result.now) }
        ensures few { length (parts result.now) < 2 ^ 32 }
        ensures refers { RefersBelow (length self.now.rules) result.now }
    {
        &self.nodes.as_slice()[at.0 as usize]
    }

    pub fn rule(&self, at: RuleIx) -> &LinkedRule
        requires { at.0 < length self.now.rules }
        ensures value { slice_get self.now.rules at.0 ≡ Some result.now }
        ensures body { result.now.body.0 < length self.now.nodes }
    {
        &self.rules.as_slice()[at.0 as usize]
    }

    pub fn rules(&self) -> &[LinkedRule]
        ensures { result.now ≡ self.now.rules }
    {
        self.rules.as_slice()
    }
}
