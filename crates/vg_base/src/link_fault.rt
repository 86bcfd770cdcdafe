//! Faults of documents taken together.
ghost use Rattle.std.specs.Prelude.{◌≡◌, refl};
ghost use Rattle.std.specs.Cmp.{on_total, nat_cmp_total};
ghost use Rattle.std.specs.Ordering.{nat_cmp, on, as_partial_cmp};
ghost use Rattle.vg_base.specs.Faults.{link_kind_number, link_kind_name};

use crate::place::Place;
use std::cmp::Ordering;

/// What is wrong with a set of documents, in the order of the kinds' numbers.
#[derive(Clone, Copy, Debug, PartialEq, Eq)]
pub enum LinkKind {
    /// The document that is referred to, or an entry, is not there.
    NoDocument = 1,
    /// The rule that is referred to is not defined.
    NoRule,
    /// The rule of another document that is referred to is private.
    NotPublic,
    /// A reference to the root of a document without one.
    NoRoot,
    /// The document that is referred to has the other mode.
    ModeDiffers,
    /// A rule that derives itself without any word.
    SelfDerive,
    /// The rules taken together are too large from this rule on.
    NodesOver,
}

impl LinkKind {
    /// The kind's number, from 1 to 7: at one place the least number is told first.
    pub fn number(self) -> u32
        ensures { result ≡ link_kind_number self }
    {
        self as u32
    }

    /// The kind's name as replies print it.
    pub fn name(self) -> &'static str
        ensures { result.now ≡ link_kind_name self }
    {
        match self {
            LinkKind::NoDocument => "NoDocument",
            LinkKind::NoRule => "NoRule",
            LinkKind::NotPublic => "NotPublic",
            LinkKind::NoRoot => "NoRoot",
            LinkKind::ModeDiffers => "ModeDiffers",
            LinkKind::SelfDerive => "SelfDerive",
            LinkKind::NodesOver => "NodesOver",
        }
    }
}

impl PartialOrd for LinkKind {
    ghost use Rattle.vg_base.specs.Kinds.{link_ordered};

    ghost partial_cmp = { as_partial_cmp (on link_kind_number nat_cmp) };

    ghost laws = { link_ordered };

    fn partial_cmp(&self, other: &LinkKind) -> Option<Ordering> {
        Some(self.cmp(other))
    }
}

impl Ord for LinkKind {
    ghost use Rattle.vg_base.specs.Kinds.{link_ties};

    ghost cmp = { on link_kind_number nat_cmp };

    ghost total = { on_total link_kind_number nat_cmp_total };

    ghost matches_partial_cmp = { λ x y. refl };

    ghost matches_eq = { link_ties };

    fn cmp(&self, other: &LinkKind) -> Ordering {
        self.number().cmp(&other.number())
    }
}

/// A fault of a set of documents, ordered by place, then by the kind's number.
/// At an entry that is not there the place is 0:0.
#[derive(Clone, Copy, Debug, PartialEq, Eq, PartialOrd, Ord)]
pub struct LinkFault {
    pub place: Place,
    pub kind: LinkKind,
}
