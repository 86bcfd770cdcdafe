//! The places at which the server's lanes and loaders may be held.
use vg_base::{DocIx, LoaderNo};

/// Is told when a lane or a loader comes to a place where the order of steps matters. It may hold
/// the caller there for a while, and nothing else is promised of it.
pub trait Gate: Sync {
    /// A lane's command, by its line's number, is about to read its version.
    fn pass(&self, lane: u32, line: u64);

    /// The reply to a lane's command, by its line's number, is made.
    fn made(&self, lane: u32, line: u64);

    /// A loader has claimed a document and is about to read it.
    fn reading(&self, loader: LoaderNo, doc: DocIx);
}

/// The gate that holds nobody.
#[derive(Clone, Copy, Debug)]
pub struct Open;

impl Gate for Open {
    fn pass(&self, _lane: u32, _line: u64) {}

    fn made(&self, _lane: u32, _line: u64) {}

    fn reading(&self, _loader: LoaderNo, _doc: DocIx) {}
}
