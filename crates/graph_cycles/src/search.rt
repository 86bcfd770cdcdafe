//! A search for the components of a graph: the largest sets of vertices that reach each other.
//!
//! It goes depth first and keeps what is open on a path, in groups that reach each other (H. Gabow's method). An edge back
//! into the path joins all groups from there on; a group at the end of the path that has no edge left is a component.
ghost use Rattle.std.specs.Prelude.{◌≡◌, ◌↔◌, ◌<◌, ◌≤◌, ◌-◌, ◌++◌, ℕ, true, Some, [], length, map, slice_get, All, Contains, IfOk, IsTrue, OnOk};
ghost use Rattle.graph_cycles.specs.Graphs.{LeadsTo};
ghost use Rattle.graph_cycles.specs.code.Searches.{AreGroups, edge, IsFollowing, IsGroup, IsSearch, IsUnmet, work};
ghost use Rattle.graph_cycles.specs.code.Steps.{Entered, Joined, KeepsMet, Shut};

use crate::graph::Graph;
use crate::sets::set_all;
use std::alloc::Global;
use vg_base::Memory;

/// Where a vertex is in a search.
#[derive(Clone, Copy, Drop)]
pub(crate) enum Place {
    Unmet,
    /// At this place of the path.
    Open(usize),
    Closed,
}

#[derive(Clone, Copy, Drop)]
pub(crate) struct Edge {
    from: u32,
    to: u32,
}

/// The part of the path from some place on, and how many edges were left before it began.
#[derive(Clone, Copy, Drop)]
pub(crate) struct Group {
    first: usize,
    edges: usize,
}

#[derive(Drop)]
pub(crate) struct Search {
    places: Vec<Place>,
    path: Vec<u32>,
    groups: Vec<Group>,
    left: Vec<Edge>,
    marks: Vec<bool>,
}

impl Search {
    /// No vertex was met.
    pub(crate) fn new(alloc: Global, graph: &Graph) -> Result<Search, Memory>
        ensures search { IfOk result (λ s. IsSearch graph.now s) }
        ensures idle { IfOk result (λ s. s.groups.items ≡ []) }
    {
        let places = vec![in alloc; Place::Unmet; graph.vertices()]?;
        let marks = loops(alloc, graph)?;
        Ok(Search {
            places,
            path: Vec::new(alloc),
            groups: Vec::new(alloc),
            left: Vec::new(alloc),
            marks,
        })
    }

    /// Closes all that is reached from a vertex.
    pub(crate) fn run(&mut self, graph: &Graph, root: u32) -> Result<(), Memory>
        requires search { IsSearch graph.now self.old }
        requires idle { self.old.groups.items ≡ [] }
        requires inside { root < length graph.now }
        ensures search { OnOk result (IsSearch graph.now self.new) }
        ensures idle { OnOk result (self.new.groups.items ≡ []) }
        ensures met { OnOk result (KeepsMet self.old self.new) }
        ensures root { OnOk result (¬ IsUnmet self.new root) }
    {
        self.follow(graph, root)?;
        while let Some(group) = self.groups.last() {
            let last = *group;
            self.step(graph, last)?;
        }
        Ok(())
    }

    /// Where no vertex is open, those that lie on a cycle are marked.
    pub(crate) fn into_marks(self) -> Vec<bool>
        ensures { result.items ≡ self.marks.items }
    {
        let Search { marks, .. } = self;
        marks
    }

    /// Follows an edge of the last group, or closes the group where it has none left.
    fn step(&mut self, graph: &Graph, group: Group) -> Result<(), Memory>
        requires search { IsSearch graph.now self.old }
        requires last { IsGroup self.old (length self.old.groups.items - 1) group }
        ensures search { OnOk result (IsSearch graph.now self.new) }
        ensures met { OnOk result (KeepsMet self.old self.new) }
        ensures less { OnOk result (work graph.now self.new < work graph.now self.old) }
    {
        if self.left.len() <= group.edges {
            self.shut(group.first);
            return Ok(());
        }
        match self.left.pop() {
            Some(edge) => self.follow(graph, edge.to),
            None => Ok(()),
        }
    }

    /// Follows an edge to this vertex.
    fn follow(&mut self, graph: &Graph, to: u32) -> Result<(), Memory>
        requires { IsFollowing graph.now self.old to }
        ensures search { OnOk result (IsSearch graph.now self.new) }
        ensures met { OnOk result (KeepsMet self.old self.new) }
        ensures to { OnOk result (¬ IsUnmet self.new to) }
        ensures less { OnOk result (work graph.now self.new ≤ work graph.now self.old) }
    {
        match self.places[to as usize] {
            Place::Unmet => self.enter(graph, to)?,
            Place::Open(place) => self.join(place),
            Place::Closed => {}
        }
        Ok(())
    }

    /// Puts a vertex at the end of the path.
    fn enter(&mut self, graph: &Graph, vertex: u32) -> Result<(), Memory>
        requires inside { vertex < length graph.now }
        requires sized { length self.old.places.items ≡ length graph.now }
        ensures { OnOk result (Entered graph.now vertex self.old self.new) }
    {
        self.places[vertex as usize] = Place::Open(self.path.len());
        self.groups.push(Group {
            first: self.path.len(),
            edges: self.left.len(),
        })?;
        self.path.push(vertex)?;
        push_edges(&mut self.left, vertex, graph.row(vertex))
    }

    /// Joins the groups that begin after a place of the path to the one that it is in.
    fn join(&mut self, place: usize)
        requires { AreGroups self.old }
        ensures { Joined place self.old self.new }
    {
        while let Some(group) = self.groups.last() {
            if group.first <= place {
                return;
            }
            self.groups.pop();
        }
    }

    /// Closes the last group, which begins here: it is a component. Its vertices are on cycles where they are several.
    fn shut(&mut self, first: usize)
        requires few { first ≤ length self.old.path.items }
        requires inside { All (λ x. x < length self.old.places.items) self.old.path.items }
        requires sized { length self.old.places.items ≡ length self.old.marks.items }
        ensures { Shut first self.old self.new }
    {
        let component = &self.path[first..];
        if component.len() > 1 {
            set_all(&mut self.marks, component, true);
        }
        set_all(&mut self.places, component, Place::Closed);
        self.path.truncate(first);
        self.groups.pop();
    }
}

/// Which vertices lead to themselves.
fn loops(alloc: Global, graph: &Graph) -> Result<Vec<bool>, Memory>
    ensures sized { IfOk result (λ marks. length marks.items ≡ length graph.now) }
    ensures exact { IfOk result (λ marks. (x : ℕ)
        → (slice_get marks.items x ≡ Some true) ↔ LeadsTo graph.now x x) }
{
    let mut marks = Vec::new(alloc);
    for vertex in 0..graph.vertices() {
        marks.push(has(graph.row(vertex as u32), vertex as u32))?;
    }
    Ok(marks)
}

fn has(row: &[u32], vertex: u32) -> bool
    ensures { IsTrue result ↔ Contains row.now vertex }
{
    row.contains(&vertex)
}

/// Puts the edges from a vertex to all of its row at the end.
fn push_edges(edges: &mut Vec<Edge>, from: u32, row: &[u32]) -> Result<(), Memory>
    ensures { OnOk result (edges.new.items ≡ edges.old.items ++ map (edge from) row.now) }
{
    for to in row {
        edges.push(Edge { from, to: *to })?;
    }
    Ok(())
}
