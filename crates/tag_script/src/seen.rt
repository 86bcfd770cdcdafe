ghost use Rattle.std.specs.Prelude.{◌≡◌, IfOk, IsTrue};
ghost use Rattle.tag_script.specs.Outcomes.{tested};
ghost use Rattle.tag_script.specs.code.Seen.{Shows, seen, IsTested};

use crate::refused::RunRefused;
use crate::tag_kind::TagKind;
use script_value::Value;
use std::alloc::Global;
use vg_base::Memory;

/// A value that an expression gives: one that stands in the environment, or one that was made.
#[derive(Drop)]
pub(crate) enum Seen<'e> {
    Lent(&'e Value),
    Made(Value),
}

impl<'e> Seen<'e> {
    /// The value.
    pub(crate) fn value(&self) -> &Value
        ensures { result.now ≡ seen self.now }
    {
        match self {
            Seen::Lent(value) => value,
            Seen::Made(value) => value,
        }
    }

    /// The value as one that is owned: a lent one is copied.
    pub(crate) fn into_value(self, alloc: Global) -> Result<Value, Memory>
        ensures { IfOk result (λ x. x ≡ seen self.entry) }
    {
        match self {
            Seen::Lent(value) => value.copy(alloc),
            Seen::Made(value) => Ok(value),
        }
    }

    /// The value, where it is within the limits of values.
    pub(crate) fn tested(self) -> Result<Seen<'e>, RunRefused>
        ensures value { Shows result (tested (seen self.entry)) }
        ensures fits { IfOk result (λ x. IsTested (seen x)) }
    {
        match self.value().first_limit() {
            None => Ok(self),
            Some(limit) => Err(RunRefused::Fault(TagKind::of_limit(limit))),
        }
    }

    /// The same of a value that may be known to be within them.
    pub(crate) fn tested_again(self, fits: bool) -> Result<Seen<'e>, RunRefused>
        requires { IsTrue fits → IsTested (seen self) }
        ensures value { Shows result (tested (seen self.entry)) }
        ensures fits { IfOk result (λ x. IsTested (seen x)) }
    {
        if fits { Ok(self) } else { self.tested() }
    }
}
