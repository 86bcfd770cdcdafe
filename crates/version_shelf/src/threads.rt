//! What may go from thread to thread, and what several threads may read at once.

use crate::publisher::Publisher;
use crate::reader::Reader;
use crate::shelf::{PublishRefused, Shelf};

fn crosses<T: Send + Sync>() {}

fn goes<T: Send>() {}

/// Wherever values cross threads, a shelf does too. A publisher or a reader goes to another thread, and each is used by
/// one at a time: its seat and its notes are not to be shared. The check proves it of each type here.
fn shelves_cross<V: Send + Sync>() {
    crosses::<Shelf<V>>();
    crosses::<PublishRefused<V>>();
    goes::<Publisher<V>>();
    goes::<Reader<V>>();
}
