ghost use Rattle.std.specs.Prelude.{◌≡◌, ◌≤◌};
ghost use Rattle.version_shelf.specs.Ends.{Answered, IsPublisherOf, IsReaderOf, last_number, published, publisher_known, reached, reader_known, shown};
ghost use Rattle.version_shelf.specs.Known.{Keeps, OneValue};

use crate::cells::newest;
use crate::notes::learn_all;
use crate::publisher::Publisher;
use crate::shelf::Shelf;
use crate::steps;
use crate::view::View;
use atomic_table::Seat;
use once_cell::race::Note;
use std::sync::Arc;
use vg_base::VersionNo;

/// One who reads. It takes no lock, and waits for nobody.
#[derive(Drop)]
pub struct Reader<V> {
    pub(crate) number: u64,
    pub(crate) last: usize,
    pub(crate) seat: Seat<(), View>,
    pub(crate) notes: Vec<Note<Arc<V>>>,
}

impl<V: Drop> Reader<V> {
    /// Learns all that the publisher has published so far.
    pub fn meet(&mut self, shelf: &Shelf<V>, publisher: &mut Publisher<V>)
        requires reader { IsReaderOf shelf.now self.old }
        requires publisher { IsPublisherOf shelf.now publisher.old }
        ensures reader { IsReaderOf shelf.now self.new }
        ensures publisher { IsPublisherOf shelf.now publisher.new }
        ensures published { published publisher.new ≡ published publisher.old }
        ensures known { publisher_known publisher.new ≡ publisher_known publisher.old }
        ensures keeps { Keeps (reader_known self.old) (reader_known self.new) }
        ensures met { Keeps (publisher_known publisher.old) (reader_known self.new) }
        ensures agrees { OneValue (reader_known self.new) (publisher_known publisher.old) }
        ensures later { reached self.old ≤ reached self.new }
        ensures reached { last_number publisher.old ≤ reached self.new }
        ensures shown { shown self.old ≤ shown self.new }
        ensures counted { last_number publisher.old ≤ shown self.new }
    {
        let note = steps::note(&shelf.table.shared, &mut publisher.seat);
        steps::inform(&shelf.table.shared, &mut self.seat, note);
        let count = publisher.count as usize;
        learn_all(&mut self.notes, &mut publisher.notes, count + 1);
        self.last = self.last.max(publisher.count as usize);
    }

    /// The newest version that it finds, with its number: not older than what it answered before
    /// or met, and not past the count that it saw. The value is lent where it stands in the shelf.
    pub fn latest<'a>(&mut self, shelf: &'a Shelf<V>) -> (VersionNo, &'a Arc<V>)
        requires { IsReaderOf shelf.now self.old }
        ensures of { IsReaderOf shelf.now self.new }
        ensures answered { Answered self.old self.new result.0.0 result.1.now.value }
    {
        let count = steps::load(&shelf.table.shared, &mut self.seat);
        let top = (count as usize).min(shelf.cells.len() - 1);
        let (last, value) = newest(&shelf.cells, &mut self.notes, self.last, top);
        self.last = last;
        (VersionNo(self.number + last as u64), value)
    }
}
