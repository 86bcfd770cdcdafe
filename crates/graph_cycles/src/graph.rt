//! Directed graphs by rows.
ghost use Rattle.std.specs.Prelude.{◌≡◌, ◌↔◌, ◌<◌, ◌≤◌, ◌^◌, ◌++◌, ◌∷◌, ℕ, true, [], length, replicate, slice_get, slice_set, slice_index_or, IfOk, OnErr, OnOk};
ghost use Rattle.graph_cycles.specs.Graphs.{IsOnCycle, IsWithin};

use crate::search::Search;
use sqlite_items::Items;
use std::alloc::Global;
use std::marker::Model;
use vg_base::Memory;

/// A directed graph. Contracts see the rows: that of a vertex has the vertices that it leads to.
#[derive(Drop)]
pub struct Graph {
    rows: Vec<Items<u32>>,
}

impl Model for Graph {
    ghost use Rattle.graph_cycles.specs.Graphs.{Rows, IsWithin};

    ghost Value = { Rows };

    ghost view = { λ g. g.rows.items };

    ghost invariant = { λ g. IsWithin g.rows.items };
}

impl Graph {
    /// So many vertices, and no edge.
    pub fn new(alloc: Global, vertices: usize) -> Result<Graph, Memory>
        requires { vertices ≤ 2 ^ 32 }
        ensures { IfOk result (λ graph. graph ≡ replicate vertices []) }
    {
        let rows = empty_rows(alloc, vertices)?;
        Ok(Graph { rows })
    }

    /// How many vertices there are.
    pub fn vertices(&self) -> usize
        ensures count { result ≡ length self.now }
        ensures within { IsWithin self.now }
    {
        self.rows.len()
    }

    /// Adds an edge. The same one may stand twice.
    pub fn lead(&mut self, from: u32, to: u32) -> Result<(), Memory>
        requires from { from < length self.old }
        requires to { to < length self.old }
        ensures added { OnOk result (self.new
            ≡ slice_set self.old from (slice_index_or self.old from [] ++ to ∷ [])) }
        ensures unchanged { OnErr result (self.new ≡ self.old) }
    {
        self.rows[from as usize].push(to)?;
        Ok(())
    }

    /// Which vertices lie on a cycle. It takes time and memory by the number of vertices and edges.
    pub fn on_cycles(&self, alloc: Global) -> Result<Vec<bool>, Memory>
        ensures sized { IfOk result (λ marks. length marks.items ≡ length self.now) }
        ensures exact { IfOk result (λ marks. (x : ℕ)
            → (slice_get marks.items x ≡ Some true) ↔ IsOnCycle self.now x) }
    {
        let mut search = Search::new(alloc, self)?;
        for vertex in 0..self.vertices() {
            search.run(self, vertex as u32)?;
        }
        let marks = search.into_marks();
        Ok(marks)
    }

    /// The vertices that a vertex leads to.
    pub(crate) fn row(&self, vertex: u32) -> &[u32]
        requires { vertex < length self.now }
        ensures row { result.now ≡ slice_index_or self.now vertex [] }
        ensures within { IsWithin self.now }
    {
        self.rows[vertex as usize].as_slice()
    }
}

fn empty_rows(alloc: Global, count: usize) -> Result<Vec<Items<u32>>, Memory>
    ensures { IfOk result (λ rows. rows.items ≡ replicate count []) }
{
    let mut rows = Vec::new(alloc);
    for _row in 0..count {
        rows.push(Items::new(alloc))?;
    }
    Ok(rows)
}
