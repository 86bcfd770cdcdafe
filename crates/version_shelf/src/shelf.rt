ghost use Rattle.std.specs.Prelude.{◌≡◌, ◌+◌, ◌≤◌, ◌^◌, [], IfOk, ◌∷◌};
ghost use Rattle.version_shelf.specs.Ends.{IsPublisherOf, base_number, published, publisher_known, room};

use crate::cells::{empty_cells, fill_at};
use crate::publisher::Publisher;
use crate::view::{Counts, View};
use atomic_table::Table;
use once_cell::race::OnceBox;
use std::alloc::Global;
use std::sync::Arc;
use vg_base::{Memory, VersionNo};

/// Versions that threads share. The cell at k has the version with the base's number plus k.
#[derive(Drop)]
pub struct Shelf<V> {
    pub(crate) number: u64,
    pub(crate) table: Table<(), View, (), Counts, Global>,
    pub(crate) cells: Vec<OnceBox<Arc<V>>>,
}

/// Why a value was not published. It comes back.
#[derive(Drop)]
pub enum PublishRefused<V> {
    Memory(Arc<V>),
}

impl<V: Drop> Shelf<V> {
    /// A shelf on a base version with its number, with room for as many publications as it has
    /// cells, and the shelf's one publisher.
    pub fn open(
        alloc: Global,
        base: Arc<V>,
        number: VersionNo,
        cells: u32,
    ) -> Result<(Shelf<V>, Publisher<V>), Memory>
        requires cells { (1 ≤ cells) × (cells ≤ 64) }
        requires number { number.0 ≤ 2 ^ 63 }
        ensures of { IfOk result (λ r. IsPublisherOf r.0 r.1) }
        ensures number { IfOk result (λ r. base_number r.0 ≡ number.0) }
        ensures room { IfOk result (λ r. room r.0 ≡ cells) }
        ensures none { IfOk result (λ r. published r.1 ≡ 0) }
        ensures known { IfOk result (λ r. publisher_known r.1 ≡ (number.0, base.value) ∷ []) }
    {
        let VersionNo(number) = number;
        let (cells, mut notes) = empty_cells(alloc, cells as usize + 1)?;
        let Ok(()) = fill_at(alloc, &cells, &mut notes, 0, base) else {
            return Err(Memory);
        };
        let (table, seat) = Table::of_words(alloc, &[0], &())?;
        let shelf = Shelf {
            number,
            table,
            cells,
        };
        let publisher = Publisher {
            number,
            count: 0,
            seat,
            notes,
        };
        Ok((shelf, publisher))
    }
}
