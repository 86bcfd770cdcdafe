//! Faults of a publish.
ghost use Rattle.std.specs.Prelude.{◌≡◌};
ghost use Rattle.linker.specs.Kinds.{fault_kind_name};

use vg_base::{DocKind, LinkKind, Place, Text};

/// What is wrong: with one document by itself, or with documents taken together.
#[derive(Clone, Copy, Debug, PartialEq, Eq)]
pub enum FaultKind {
    Doc(DocKind),
    Link(LinkKind),
}

impl FaultKind {
    /// The kind's name as replies print it.
    pub fn name(self) -> &'static str
        ensures { result.now ≡ fault_kind_name self }
    {
        match self {
            FaultKind::Doc(kind) => kind.name(),
            FaultKind::Link(kind) => kind.name(),
        }
    }
}

/// A fault of a publish: the key of the document that it stands in, or of the entry that is not
/// there, and the place, which is 0:0 at such an entry.
#[derive(Debug, Drop)]
pub struct SetFault {
    pub uri: Text,
    pub place: Place,
    pub kind: FaultKind,
}
