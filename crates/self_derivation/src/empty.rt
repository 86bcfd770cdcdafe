//! Which nodes can be empty: each that was found is told to the nodes that look at it.
ghost use Rattle.std.specs.Prelude.{◌≡◌, ◌↔◌, ◌<◌, ◌∷◌, ◌++◌, ℕ, true, [], length, slice_set, All, IfOk, OnOk, IfSome, IfNone};
ghost use Rattle.grammar_tree.specs.Links.{Rules};
ghost use Rattle.grammar_tree.specs.Derives.{CanBeEmpty};
ghost use Rattle.self_derivation.specs.code.Marks.{is_marked};
ghost use Rattle.self_derivation.specs.code.Nodes.{node_ix};
ghost use Rattle.self_derivation.specs.code.Search.{Counted, IsSearch};

use crate::above::rows_above;
use crate::nodes::needs;
use grammar_tree::Linked;
use std::alloc::Global;
use std::marker::Model;
use vg_base::{Memory, NodeIx};

/// A mark for each node.
pub(crate) fn empty_nodes(alloc: Global, linked: &Linked) -> Result<Vec<bool>, Memory>
    ensures sized { IfOk result (λ empty. length empty.items ≡ length linked.now.nodes) }
    ensures exact { IfOk result (λ empty. (n : ℕ) → (is_marked empty.items n ≡ true) ↔ CanBeEmpty linked.now (node_ix n)) }
{
    let search = searched(alloc, linked)?;
    Ok(search.into_told())
}

/// Nothing is left to be told.
fn searched(alloc: Global, linked: &Linked) -> Result<Search, Memory>
    ensures search { IfOk result (λ search. IsSearch linked.now search) }
    ensures ended { IfOk result (λ search. search.left ≡ []) }
{
    let above = rows_above(alloc, linked)?;
    let mut search = Search::open(alloc, linked)?;
    while let Some(n) = search.next() {
        search.count_each(above.row(n))?;
    }
    Ok(search)
}

#[derive(Drop)]
struct Search {
    missing: Vec<usize>,
    told: Vec<bool>,
    left: Vec<u32>,
}

impl Model for Search {
    ghost use Rattle.self_derivation.specs.code.Search as spec;

    ghost Value = { spec.Search };

    ghost view = { λ s. record { missing = s.missing.items; told = s.told.items; left = s.left.items } };
}

impl Search {
    /// None was told, and those are left that need no other.
    fn open(alloc: Global, linked: &Linked) -> Result<Search, Memory>
        ensures { IfOk result (λ search. IsSearch linked.now search) }
    {
        let nodes = linked.node_count();
        let mut missing = Vec::new(alloc);
        let mut left = Vec::new(alloc);
        for n in 0..nodes {
            let needed = needs(linked.node(NodeIx(n as u32)));
            missing.push(needed)?;
            if needed == 0 {
                left.push(n as u32)?;
            }
        }
        let told = vec![in alloc; false; nodes]?;
        Ok(Search {
            missing,
            told,
            left,
        })
    }

    /// The next node that is told to those above.
    fn next(&mut self) -> Option<u32>
        requires { All (λ n. n < length self.old.told) self.old.left }
        ensures some { IfSome result (λ n. self.old.left ≡ self.new.left ++ n ∷ []) }
        ensures told { IfSome result (λ n. self.new.told ≡ slice_set self.old.told n true) }
        ensures none { IfNone result (self.old.left ≡ []) }
        ensures same { IfNone result (self.new ≡ self.old) }
        ensures missing { self.new.missing ≡ self.old.missing }
    {
        let n = self.left.pop()?;
        self.told[n as usize] = true;
        Some(n)
    }

    /// Each of these misses one less.
    #[tactic(auto, using(crate::proofs::SearchLemmas::counted_none, crate::proofs::SearchLemmas::counted_next))]
    fn count_each(&mut self, nodes: &[u32]) -> Result<(), Memory>
        requires { All (λ n. n < length self.old.missing) nodes.now }
        ensures { OnOk result (Counted nodes.now self.old self.new) }
    {
        for n in nodes {
            self.count(*n)?;
        }
        Ok(())
    }

    /// A node misses one less: where it was the last one, the node is found.
    fn count(&mut self, n: u32) -> Result<(), Memory>
        requires { n < length self.old.missing }
        ensures { OnOk result (Counted (n ∷ []) self.old self.new) }
    {
        let missing = self.missing[n as usize];
        if missing == 1 {
            self.left.push(n)?;
        }
        self.missing[n as usize] = missing.saturating_sub(1);
        Ok(())
    }

    fn into_told(self) -> Vec<bool>
        ensures { result.items ≡ self.told }
    {
        let Search { told, .. } = self;
        told
    }
}
