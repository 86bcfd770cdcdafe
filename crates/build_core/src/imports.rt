//! Which document imports which.
ghost use Rattle.std.specs.Prelude.{◌≡◌, ℕ, ◌<◌, ◌≤◌, ◌↔◌, length, All, IsTrue, IsSome, IfSome};
ghost use Rattle.build_core.specs.Rows.{ByRows, IsClosed, row};

use sqlite_items::Items;
use std::marker::Model;
use vg_base::DocIx;

/// A row for each document: the documents that it imports. Contracts see the list of rows.
#[derive(Drop)]
pub struct Imports {
    rows: Items<Items<DocIx>>,
}

impl Model for Imports {
    ghost use Rattle.std.specs.Prelude.{List};
    ghost use Rattle.vg_base.specs.declared.numbers.DocIx.{DocIx};
    ghost use Rattle.build_core.specs.Rows.{IsClosed};

    ghost Value = { List (List DocIx) };

    ghost view = { λ s. s.rows };

    ghost invariant = { λ s. IsClosed s.rows };
}

/// Whether each of these documents has a row.
fn are_below(docs: &[DocIx], rows: usize) -> bool
    ensures { IsTrue result ↔ All (λ d. d.0 < rows) docs.now }
{
    docs.iter().all(|doc| (doc.0 as usize) < rows)
}

/// Whether each row names documents that have a row.
fn all_below(rows: &[Items<DocIx>]) -> bool
    ensures { IsTrue result ↔ ((x y : ℕ) → ByRows rows.now x y → y < length rows.now) }
{
    for row in rows {
        if !are_below(row.as_slice(), rows.len()) {
            return false;
        }
    }
    true
}

/// At most 64 rows, each naming documents that have a row.
fn is_closed(rows: &[Items<DocIx>]) -> bool
    ensures { IsTrue result ↔ IsClosed rows.now }
{
    rows.len() <= 64 && all_below(rows)
}

impl Imports {
    /// None where there are over 64 rows, or where one names a document that has no row.
    pub fn of(rows: Items<Items<DocIx>>) -> Option<Imports>
        ensures some { IsSome result ↔ IsClosed rows }
        ensures value { IfSome result (λ imports. imports ≡ rows) }
    {
        if is_closed(rows.as_slice()) {
            Some(Imports { rows })
        } else {
            None
        }
    }

    /// How many documents there are.
    pub fn len(&self) -> usize
        ensures count { result ≡ length self.now }
        ensures closed { IsClosed self.now }
    {
        let rows = &self.rows;
        rows.len()
    }

    /// What a document imports, in the order of its row.
    pub fn row(&self, doc: DocIx) -> &[DocIx]
        requires { doc.0 < length self.now }
        ensures row { result.now ≡ row self.now doc.0 }
        ensures closed { IsClosed self.now }
    {
        self.rows.as_slice()[doc.0 as usize].as_slice()
    }
}
