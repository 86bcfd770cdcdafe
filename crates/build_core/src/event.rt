use vg_base::{DocIx, LoaderNo};

/// How far a document is.
#[derive(Clone, Copy, Debug, PartialEq, Eq)]
pub enum DocState {
    /// No loader has met it.
    Unseen,
    /// An entry, or an import of a document that was held; no loader has claimed it.
    Wanted,
    /// Claimed by this loader, which reads it.
    Held(LoaderNo),
    /// Read by this loader, its imports wanted.
    Done(LoaderNo),
}

/// A step of a loader.
#[derive(Clone, Copy, Debug, PartialEq, Eq)]
pub enum Event {
    /// The loader, which holds an importer, wants an unseen document.
    Want { loader: LoaderNo, doc: DocIx },
    /// The loader, which holds none, claims a wanted document.
    Claim { loader: LoaderNo, doc: DocIx },
    /// The loader has read the document that it holds, and none of its imports is unseen.
    Finish { loader: LoaderNo, doc: DocIx },
}
