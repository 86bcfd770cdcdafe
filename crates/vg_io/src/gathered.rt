//! The bytes of one line, as far as they were read.
ghost use Rattle.std.specs.Prelude.{◌≡◌, ◌<◌, ◌≤◌, ℕ, List, [], length, None, OnOk, IsTrue, ◌↔◌};
ghost use Rattle.vg_io.specs.Reader.{IfLine, finish_of};
ghost use Rattle.vg_io.specs.code.Gathering.{GathersIn, AddsPart};

use crate::limits::LINE_LIMIT;
use crate::lines::Next;
use std::alloc::{AllocError, Global};

/// The bytes of a line so far, or that they are past the limit.
#[derive(Drop)]
pub struct Gathered {
    pub bytes: Vec<u8>,
    pub is_long: bool,
}

impl Gathered {
    pub fn new(alloc: Global) -> Gathered
        ensures { GathersIn LINE_LIMIT [] result }
    {
        Gathered {
            bytes: Vec::new(alloc),
            is_long: false,
        }
    }

    pub fn is_empty(&self) -> bool
        ensures { (front : List ℕ) → GathersIn LINE_LIMIT front self.now
            → (IsTrue result ↔ (length front ≡ 0)) }
    {
        !self.is_long && self.bytes.is_empty()
    }

    /// Past the limit no byte is kept any more.
    pub fn add(&mut self, part: &[u8]) -> Result<(), AllocError>
        ensures { OnOk result (AddsPart LINE_LIMIT part.now self.old self.new) }
    {
        if self.is_long {
            return Ok(());
        }
        if part.len() > LINE_LIMIT || self.bytes.len() > LINE_LIMIT - part.len() {
            self.is_long = true;
            return Ok(());
        }
        self.bytes.extend_from_slice(part)
    }

    pub fn answer(self) -> Next
        ensures line { (front : List ℕ) → GathersIn LINE_LIMIT front self
            → IfLine result (λ v. (v ≡ front) × (length v ≤ LINE_LIMIT)) }
        ensures long { (front : List ℕ) → GathersIn LINE_LIMIT front self
            → result ≡ Next.Long → LINE_LIMIT < length front }
        ensures stays { finish_of result ≡ None }
    {
        if self.is_long {
            Next::Long
        } else {
            Next::Line(self.bytes)
        }
    }
}
