//! Which nodes look at a node: the one whose part it is, or the references to the rule whose body it is.
ghost use Rattle.std.specs.Prelude.{◌≡◌, ◌<◌, length, All, IfOk, OnOk};
ghost use Rattle.grammar_tree.specs.Links.{IsLinked};
ghost use Rattle.self_derivation.specs.code.Nodes.{below_at};
ghost use Rattle.self_derivation.specs.code.Above.{Added, AreAbove};

use crate::nodes::below;
use crate::rows::Rows;
use grammar_tree::Linked;
use std::alloc::Global;
use vg_base::{Memory, NodeIx};

/// The row of each node has the nodes that look at it.
#[tactic(auto, using(crate::proofs::AboveLemmas::above_bare, crate::proofs::AboveLemmas::above_next, crate::proofs::AboveLemmas::above_all))]
pub(crate) fn rows_above(alloc: Global, linked: &Linked) -> Result<Rows, Memory>
    ensures { IfOk result (λ rows. AreAbove linked.now rows) }
{
    let nodes = linked.node_count();
    let mut rows = Rows::new(alloc, nodes)?;
    for n in 0..nodes {
        add_node(&mut rows, linked, NodeIx(n as u32))?;
    }
    Ok(rows)
}

/// Adds a node to the rows of those that it looks at.
fn add_node(rows: &mut Rows, linked: &Linked, n: NodeIx) -> Result<(), Memory>
    requires linked { IsLinked linked.now }
    requires within { n.0 < length linked.now.nodes }
    requires sized { length rows.old ≡ length linked.now.nodes }
    ensures { OnOk result (Added n.0 (below_at linked.now n.0) rows.old rows.new) }
{
    let node = linked.node(n);
    add_to_each(rows, below(linked, node), n.0)
}

#[tactic(auto, using(crate::proofs::AboveLemmas::added_none, crate::proofs::AboveLemmas::added_one, crate::proofs::AboveLemmas::added_next))]
fn add_to_each(rows: &mut Rows, named: &[NodeIx], n: u32) -> Result<(), Memory>
    requires { All (λ p. p.0 < length rows.old) named.now }
    ensures { OnOk result (Added n named.now rows.old rows.new) }
{
    for p in named {
        rows.add(p.0, n)?;
    }
    Ok(())
}
