//! Why a call gives no value, for every crate in one form.
ghost use Rattle.std.specs.Prelude.{◌≡◌};
ghost use Rattle.vg_base.specs.declared.refused.Refused.TheVariants as refused;

use crate::memory::Memory;
use std::alloc::{AllocError, AllocFailed};
use std::fmt;
use thiserror::Error;

/// Why a call gives no value: a fault of its own kind, or want of memory.
/// A contract says when each fault comes; want of memory may come at any call that allocates, and changes nothing.
#[derive(Clone, Copy, Debug, PartialEq, Eq, Error)]
pub enum Refused<F: fmt::Display + fmt::Debug> {
    #[error("{0}")]
    Fault(F),
    #[error("out of memory")]
    Memory,
}

impl<F: fmt::Display + fmt::Debug> From<Memory> for Refused<F> {
    ghost from_gives = { λ _ e. e ≡ refused.Memory };

    fn from(_e: Memory) -> Refused<F> {
        Refused::Memory
    }
}

impl<F: fmt::Display + fmt::Debug> From<AllocError> for Refused<F> {
    ghost from_gives = { λ _ e. e ≡ refused.Memory };

    fn from(_e: AllocError) -> Refused<F> {
        Refused::Memory
    }
}

impl<F: fmt::Display + fmt::Debug, T: Drop> From<AllocFailed<T>> for Refused<F> {
    ghost from_gives = { λ _ e. e ≡ refused.Memory };

    fn from(_e: AllocFailed<T>) -> Refused<F> {
        Refused::Memory
    }
}
