//! Rows of numbers, one a node, that grow at their ends.
ghost use Rattle.std.specs.Prelude.{◌≡◌, ◌<◌, ◌∷◌, [], length, replicate, IfOk, OnOk};
ghost use Rattle.self_derivation.specs.code.Marks.{Grown, row};

use sqlite_items::Items;
use std::alloc::Global;
use std::marker::Model;
use vg_base::Memory;

#[derive(Drop)]
pub(crate) struct Rows {
    rows: Vec<Items<u32>>,
}

impl Model for Rows {
    ghost use Rattle.std.specs.Prelude.{List, ℕ};

    ghost Value = { List (List ℕ) };

    ghost view = { λ r. r.rows.items };
}

impl Rows {
    /// So many bare rows.
    pub(crate) fn new(alloc: Global, count: usize) -> Result<Rows, Memory>
        ensures { IfOk result (λ rows. rows ≡ replicate count []) }
    {
        let mut rows = Vec::new(alloc);
        for _ in 0..count {
            rows.push(Items::new(alloc))?;
        }
        Ok(Rows { rows })
    }

    pub(crate) fn row(&self, at: u32) -> &[u32]
        requires { at < length self.now }
        ensures { result.now ≡ row self.now at }
    {
        self.rows[at as usize].as_slice()
    }

    /// Adds a number at the end of a row.
    pub(crate) fn add(&mut self, at: u32, number: u32) -> Result<(), Memory>
        requires { at < length self.old }
        ensures { OnOk result (Grown at (number ∷ []) self.old self.new) }
    {
        self.rows[at as usize].push(number)?;
        Ok(())
    }
}
