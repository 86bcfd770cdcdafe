//! A source over bytes in memory that never fails.
ghost use Rattle.std.specs.Prelude.{◌≡◌, ◌<◌, ◌≤◌, min, length, false, IfOk};
ghost use Rattle.vg_io.specs.Sources.{ReadsBytes};
ghost use Rattle.vg_io.specs.Objects.{told_by_supply};

use crate::calls::copy_front;
use crate::source::{Failed, Source};
use std::marker::Model;

/// A source over bytes in memory that gives all that is asked for.
#[derive(Drop)]
pub struct SureSource {
    bytes: Vec<u8>,
    at: usize,
    ended: bool,
}

impl Model for SureSource {
    ghost use Rattle.std.specs.Prelude.{◌≤◌, drop, vec_len};
    ghost use Rattle.vg_io.specs.Objects.{Supply};

    ghost Value = { Supply };

    ghost view = { λ s. record { left = drop s.at s.bytes.items; ended = s.ended } };

    ghost invariant = { λ s. s.at ≤ vec_len s.bytes };
}

impl SureSource {
    pub fn open(bytes: Vec<u8>) -> SureSource
        ensures { result ≡ record { left = bytes.items; ended = false } }
    {
        SureSource {
            bytes,
            at: 0,
            ended: false,
        }
    }
}

impl Source for SureSource {
    ghost told = { told_by_supply };

    #[tactic(auto, using(crate::proofs::Bytes::split_more))]
    fn read(&mut self, buf: &mut [u8]) -> Result<usize, Failed>
        requires { 0 < length buf.old }
        // What every source says.
        ensures bound { IfOk result (λ n. n ≤ length buf.new) }
        ensures reads { ReadsBytes (told_by_supply self.old) (told_by_supply self.new) result
            buf.new }

        // What this one does.
        ensures count { result ≡ Ok (min (length buf.old) (length self.old.left)) }
    {
        let rest = &self.bytes[self.at..];
        let count = buf.len().min(rest.len());
        copy_front(buf, rest, count);
        self.at += count;
        self.ended = self.ended || count == 0;
        Ok(count)
    }
}
