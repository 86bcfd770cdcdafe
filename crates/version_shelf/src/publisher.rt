ghost use Rattle.std.specs.Prelude.{◌≡◌, ◌+◌, ◌<◌, ◌≤◌, ◌++◌, ◌∷◌, [], All, IfOk, IfErr, OnErr};
ghost use Rattle.version_shelf.specs.Ends.{IsPublisherOf, IsReaderOf, given_back, last_number, published, publisher_known, reached, reader_known, room};

use crate::cells::fill_at;
use crate::notes::copies;
use crate::reader::Reader;
use crate::shelf::{PublishRefused, Shelf};
use crate::steps;
use crate::view::View;
use atomic_table::Seat;
use once_cell::race::Note;
use std::alloc::Global;
use std::sync::Arc;
use vg_base::{Memory, VersionNo};

/// The one who publishes. It knows the value of each number from the base's to the last.
#[derive(Drop)]
pub struct Publisher<V> {
    pub(crate) number: u64,
    pub(crate) count: u64,
    pub(crate) seat: Seat<(), View>,
    pub(crate) notes: Vec<Note<Arc<V>>>,
}

impl<V: Drop> Publisher<V> {
    /// Publishes the value under the next number: it fills the next cell, and then adds 1 to the
    /// count. Where there is no memory, or the cell refuses the value, it comes back and nothing
    /// has changed.
    pub fn publish(
        &mut self,
        alloc: Global,
        shelf: &Shelf<V>,
        value: Arc<V>,
    ) -> Result<VersionNo, PublishRefused<V>>
        requires of { IsPublisherOf shelf.now self.old }
        requires room { published self.old < room shelf.now }
        ensures of { IsPublisherOf shelf.now self.new }
        ensures number { IfOk result (λ n. n.0 ≡ last_number self.old + 1) }
        ensures published { IfOk result (λ n. published self.new ≡ published self.old + 1) }
        ensures known { IfOk result (λ n.
            publisher_known self.new ≡ publisher_known self.old ++ (n.0, value.value) ∷ []) }
        ensures back { IfErr result (λ e. given_back e ≡ value) }
        ensures unpublished { OnErr result (published self.new ≡ published self.old) }
        ensures unchanged { OnErr result (publisher_known self.new ≡ publisher_known self.old) }
    {
        let next = self.count as usize + 1;
        match fill_at(alloc, &shelf.cells, &mut self.notes, next, value) {
            Ok(()) => {
                steps::add(&shelf.table.shared, &mut self.seat);
                self.count += 1;
                Ok(VersionNo(self.number + self.count))
            }
            Err(value) => Err(PublishRefused::Memory(value)),
        }
    }

    /// A reader that has met all that was published.
    pub fn reader(&mut self, alloc: Global, shelf: &Shelf<V>) -> Result<Reader<V>, Memory>
        requires { IsPublisherOf shelf.now self.old }
        ensures of { IsPublisherOf shelf.now self.new }
        ensures published { published self.new ≡ published self.old }
        ensures known { publisher_known self.new ≡ publisher_known self.old }
        ensures reader { IfOk result (λ r. IsReaderOf shelf.now r) }
        ensures met { IfOk result (λ r. reader_known r ≡ publisher_known self.old) }
        ensures reached { IfOk result (λ r. reached r ≡ last_number self.old) }
    {
        let notes = copies(alloc, &mut self.notes)?;
        let seat = steps::note(&shelf.table.shared, &mut self.seat);
        Ok(Reader {
            number: self.number,
            last: self.count as usize,
            seat,
            notes,
        })
    }

    /// Takes back a reader. What it knew was published.
    pub fn join(&mut self, shelf: &Shelf<V>, reader: Reader<V>)
        requires publisher { IsPublisherOf shelf.now self.old }
        requires reader { IsReaderOf shelf.now reader }
        ensures of { IsPublisherOf shelf.now self.new }
        ensures published { published self.new ≡ published self.old }
        ensures known { publisher_known self.new ≡ publisher_known self.old }
        ensures bound { All (λ p. p.0 ≤ last_number self.new) (reader_known reader) }
    {
        let Reader {
            number: _,
            last: _,
            seat,
            notes: _,
        } = reader;
        steps::end(&shelf.table.shared, &mut self.seat, seat);
        steps::load(&shelf.table.shared, &mut self.seat);
    }
}
