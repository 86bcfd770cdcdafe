//! The rules and, after them, the nodes as the vertices of a graph: what one of them holds alone leads on.
ghost use Rattle.std.specs.Prelude.{◌≡◌, ◌+◌, ◌<◌, ◌≤◌, ◌^◌, ℕ, Bool, length, IfOk, OnOk, All};
ghost use Rattle.grammar_tree.specs.Links.{parts};
ghost use Rattle.self_derivation.specs.code.Marks.{is_marked, row, Grown};
ghost use Rattle.self_derivation.specs.code.Steps.{HasRows, node_row_at, passed, row_at, vertex};

use crate::nodes::{parts, passes_on, reference, worded};
use grammar_tree::{Linked, Node};
use graph_cycles::Graph;
use std::alloc::Global;
use vg_base::{Memory, NodeIx, RuleIx};

/// The graph of linked rules. Its vertices have numbers of 32 bits: more of them have no room.
#[tactic(auto, using(crate::proofs::StepLemmas::all_rows))]
pub(crate) fn graph_of(alloc: Global, linked: &Linked, empty: &[bool]) -> Result<Graph, Memory>
    requires { length empty.now ≡ length linked.now.nodes }
    ensures sized { IfOk result (λ graph. length graph ≡ length linked.now.rules + length linked.now.nodes) }
    ensures rows { IfOk result (λ graph. (v : ℕ) → row graph v ≡ row_at linked.now (is_marked empty.now) v) }
{
    let vertices = linked.rule_count() + linked.node_count();
    if vertices > 1 << 32 {
        return Err(Memory);
    }
    let mut graph = Graph::new(alloc, vertices)?;
    lead_rules(&mut graph, linked)?;
    lead_nodes(&mut graph, linked, empty)?;
    Ok(graph)
}

/// Each rule leads to its body.
fn lead_rules(graph: &mut Graph, linked: &Linked) -> Result<(), Memory>
    requires bare { (empty : ℕ → Bool) → HasRows linked.now empty 0 graph.old }
    requires sized { length graph.old ≡ length linked.now.rules + length linked.now.nodes }
    requires few { length graph.old ≤ 2 ^ 32 }
    ensures rows { OnOk result ((empty : ℕ → Bool) → HasRows linked.now empty (length linked.now.rules) graph.new) }
    ensures sized { OnOk result (length graph.new ≡ length graph.old) }
{
    let rules = linked.rule_count();
    for r in 0..rules {
        let body = linked.rule(RuleIx(r as u32)).body;
        graph.lead(r as u32, rules as u32 + body.0)?;
    }
    Ok(())
}

/// Each node leads to its rule or its parts.
fn lead_nodes(graph: &mut Graph, linked: &Linked, empty: &[bool]) -> Result<(), Memory>
    requires rules { HasRows linked.now (is_marked empty.now) (length linked.now.rules) graph.old }
    requires sized { length graph.old ≡ length linked.now.rules + length empty.now }
    requires few { length graph.old ≤ 2 ^ 32 }
    requires marks { length empty.now ≡ length linked.now.nodes }
    ensures rows { OnOk result (HasRows linked.now (is_marked empty.now) (length linked.now.rules + length linked.now.nodes) graph.new) }
    ensures sized { OnOk result (length graph.new ≡ length graph.old) }
{
    for n in 0..linked.node_count() {
        lead_node(graph, linked, empty, NodeIx(n as u32))?;
    }
    Ok(())
}

fn lead_node(graph: &mut Graph, linked: &Linked, empty: &[bool], n: NodeIx) -> Result<(), Memory>
    requires within { n.0 < length empty.now }
    requires sized { length graph.old ≡ length linked.now.rules + length empty.now }
    requires few { length graph.old ≤ 2 ^ 32 }
    requires marks { length empty.now ≡ length linked.now.nodes }
    ensures { OnOk result (Grown (vertex (length linked.now.rules) n) (node_row_at linked.now (is_marked empty.now) n.0) graph.old graph.new) }
{
    let node = linked.node(n);
    let rules = linked.rule_count() as u32;
    match reference(node) {
        Some(rule) => graph.lead(rules + n.0, rule.0),
        None => lead_parts(graph, rules + n.0, rules, node, empty),
    }
}

/// The node leads to those of its parts whose rules it holds alone.
fn lead_parts(
    graph: &mut Graph,
    from: u32,
    rules: u32,
    node: &Node,
    empty: &[bool],
) -> Result<(), Memory>
    requires from { from < length graph.old }
    requires parts { All (λ p. p.0 < length empty.now) (parts node.now) }
    requires room { rules + length empty.now ≤ length graph.old }
    requires few { length graph.old ≤ 2 ^ 32 }
    ensures { OnOk result (Grown from (passed rules (is_marked empty.now) node.now (parts node.now)) graph.old graph.new) }
{
    let all = parts(node);
    let with_words = worded(all, empty);
    for part in all {
        if passes_on(node, with_words, empty[part.0 as usize]) {
            graph.lead(from, rules + part.0)?;
        }
    }
    Ok(())
}
