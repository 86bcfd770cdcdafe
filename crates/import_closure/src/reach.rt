//! How far a search has come.
ghost use Rattle.std.specs.Prelude.{◌≡◌, ◌↔◌, ◌<◌, ◌≤◌, ◌∷◌, ◌++◌, ℕ, false, [], length, map, replicate, All, Contains, IfOk, OnOk, IfSome, IfNone};
ghost use Rattle.std.specs.List.Sorted.{IsStrictlyIncreasing};
ghost use Rattle.rule_reader.specs.Sets.{ix};
ghost use Rattle.import_closure.specs.code.Marks.{IsMarked};
ghost use Rattle.import_closure.specs.code.Reach.{Met};

use crate::marks::marked;
use std::alloc::Global;
use std::marker::Model;
use vg_base::{DocIx, Memory};

/// Which documents were met, and which of them are left to be followed.
#[derive(Drop)]
pub(crate) struct Reach {
    marks: Vec<bool>,
    left: Vec<DocIx>,
}

impl Model for Reach {
    ghost use Rattle.import_closure.specs.code.Reach as spec;

    ghost Value = { spec.Reach };

    ghost view = { λ r. record { marks = r.marks.items; left = r.left.items } };
}

impl Reach {
    /// None of so many documents was met.
    pub(crate) fn new(alloc: Global, docs: usize) -> Result<Reach, Memory>
        ensures { IfOk result (λ reach. reach ≡ record { marks = replicate docs false; left = [] }) }
    {
        Ok(Reach {
            marks: vec![in alloc; false; docs]?,
            left: Vec::new(alloc),
        })
    }

    /// The next document that is to be followed.
    pub(crate) fn next(&mut self) -> Option<DocIx>
        ensures some { IfSome result (λ x. self.old ≡ record self.new { left = self.new.left ++ x ∷ [] }) }
        ensures none { IfNone result ((self.new ≡ self.old) × (self.old.left ≡ [])) }
    {
        self.left.pop()
    }

    /// The documents that were met, in rising order.
    pub(crate) fn met(&self, alloc: Global) -> Result<Vec<DocIx>, Memory>
        requires few { length self.now.marks ≤ 64 }
        ensures rising { IfOk result (λ docs. IsStrictlyIncreasing (map (λ y. y.0) docs.items)) }
        ensures exact { IfOk result (λ docs. (y : ℕ) → Contains docs.items (ix y) ↔ IsMarked self.now.marks y) }
    {
        marked(alloc, &self.marks)
    }

    /// Meets each document of a row.
    pub(crate) fn meet_all(&mut self, row: &[DocIx]) -> Result<(), Memory>
        requires { All (λ y. y.0 < length self.old.marks) row.now }
        ensures { OnOk result (Met row.now self.old self.new) }
    {
        for y in row {
            self.meet(*y)?;
        }
        Ok(())
    }

    /// Meets a document: where it wasn't met before, it is to be followed.
    fn meet(&mut self, y: DocIx) -> Result<(), Memory>
        requires { y.0 < length self.old.marks }
        ensures { OnOk result (Met (y ∷ []) self.old self.new) }
    {
        if !self.marks[y.0 as usize] {
            self.left.push(y)?;
            self.marks[y.0 as usize] = true;
        }
        Ok(())
    }
}
