//! The answer to a publish.

use crate::set_fault::SetFault;
use crate::version::Version;
use sqlite_items::Items;

/// What linking the documents of a publish gives.
#[derive(Debug, Drop)]
pub enum Linking {
    Sound(Version),
    /// The first faults, at most 64, and how many there are.
    Faulty { first: Items<SetFault>, count: u64 },
}
