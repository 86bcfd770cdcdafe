//! Numbers that name one thing of a kind, each a type of its own.

/// The place of a document in a document set, from 0 in staging order.
#[derive(Clone, Copy, Debug, PartialEq, Eq, PartialOrd, Ord)]
pub struct DocIx(pub u32);

/// The place of a rule in a version's linked rules, from 0.
#[derive(Clone, Copy, Debug, PartialEq, Eq, PartialOrd, Ord)]
pub struct RuleIx(pub u32);

/// The place of an expansion's node in a version's linked rules, from 0.
#[derive(Clone, Copy, Debug, PartialEq, Eq, PartialOrd, Ord)]
pub struct NodeIx(pub u32);

/// The number of a loader, from 1.
#[derive(Clone, Copy, Debug, PartialEq, Eq, PartialOrd, Ord)]
pub struct LoaderNo(pub u32);

/// The number of a published version of an area; 0 is the version without documents.
#[derive(Clone, Copy, Debug, PartialEq, Eq, PartialOrd, Ord)]
pub struct VersionNo(pub u64);

/// The number of an area of the server, from 0 to 7.
#[derive(Clone, Copy, Debug, PartialEq, Eq, PartialOrd, Ord)]
pub struct Area(pub u32);
