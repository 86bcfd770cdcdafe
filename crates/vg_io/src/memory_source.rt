//! A source over bytes in memory whose pieces and faults are chosen.
ghost use Rattle.std.specs.Prelude.{◌≡◌, ◌<◌, ◌≤◌, ◌↔◌, ◌⊎◌, [], ◌++◌, take, min, length, false, IsTrue, IsErr, IfOk};
ghost use Rattle.std.specs.List.{All};
ghost use Rattle.vg_io.specs.Faults.{counted};
ghost use Rattle.vg_io.specs.Sources.{ReadsBytes};
ghost use Rattle.vg_io.specs.Objects.{told_by_feed, is_named, bounded};

use crate::calls::{bound_at, copy_front, is_failing};
use crate::source::{Failed, Source};
use std::marker::Model;

/// A source over bytes in memory.
#[derive(Drop)]
pub struct MemSource {
    bytes: Vec<u8>,
    at: usize,
    ended: bool,
    pieces: Vec<u32>,
    failing: Vec<u64>,
    calls: u64,
    faults: u64,
}

impl Model for MemSource {
    ghost use Rattle.std.specs.Prelude.{◌≤◌, drop, vec_len};
    ghost use Rattle.std.specs.List.{All};
    ghost use Rattle.vg_io.specs.Objects.{Feed};

    ghost Value = { Feed };

    ghost view = { λ s. record {
      left = drop s.at s.bytes.items;
      ended = s.ended;
      pieces = s.pieces.items;
      failing = s.failing.items;
      calls = s.calls;
      faults = s.faults;
    } };

    ghost invariant = { λ s. (s.at ≤ vec_len s.bytes) × All (λ p. 1 ≤ p) s.pieces.items };
}

impl MemSource {
    /// A source of these bytes. Entry k of `pieces` bounds read k, counted from 0; past the list
    /// its last entry counts, and an empty list sets no bound. The reads in `failing` fail.
    pub fn open(bytes: Vec<u8>, pieces: Vec<u32>, failing: Vec<u64>) -> MemSource
        requires { All (λ p. 1 ≤ p) pieces.items }
        ensures { result ≡ record {
          left = bytes.items;
          ended = false;
          pieces = pieces.items;
          failing = failing.items;
          calls = 0;
          faults = 0;
        } }
    {
        MemSource {
            bytes,
            at: 0,
            ended: false,
            pieces,
            failing,
            calls: 0,
            faults: 0,
        }
    }

    /// How many reads have failed.
    pub fn faults(&self) -> u64
        ensures { result ≡ self.now.faults }
    {
        self.faults
    }

    /// Gives the next bytes, as many as call number `call` may.
    #[tactic(auto, using(crate::proofs::Bytes::split_more))]
    fn give(&mut self, buf: &mut [u8], call: u64) -> usize
        requires { 0 < length buf.old }
        ensures bytes { self.old.left ≡ take result buf.new ++ self.new.left }
        ensures none { (result ≡ 0) ↔ (self.old.left ≡ []) }
        ensures ended { IsTrue self.new.ended ↔ (IsTrue self.old.ended ⊎ (result ≡ 0)) }
        ensures count { result
            ≡ bounded self.old.pieces call (min (length buf.old) (length self.old.left)) }
        ensures within { result ≤ length buf.new }
        ensures kept { self.new ≡ record self.old { left = self.new.left; ended = self.new.ended } }
    {
        let rest = &self.bytes[self.at..];
        let count = bound_at(&self.pieces, call, buf.len().min(rest.len()));
        copy_front(buf, rest, count);
        self.at += count;
        self.ended = self.ended || count == 0;
        count
    }
}

impl Source for MemSource {
    ghost told = { told_by_feed };

    fn read(&mut self, buf: &mut [u8]) -> Result<usize, Failed>
        requires { 0 < length buf.old }
        // What every source says.
        ensures bound { IfOk result (λ n. n ≤ length buf.new) }
        ensures reads { ReadsBytes (told_by_feed self.old) (told_by_feed self.new) result buf.new }

        // What this one does at each call.
        ensures fails { IsErr result ↔ IsTrue (is_named self.old.failing self.old.calls) }
        ensures count { IfOk result (λ n. n
            ≡ bounded self.old.pieces self.old.calls
            (min (length buf.old) (length self.old.left))) }
        ensures calls { self.new.calls ≡ counted self.old.calls }
        ensures pieces { self.new.pieces ≡ self.old.pieces }
        ensures failing { self.new.failing ≡ self.old.failing }
    {
        let call = self.calls;
        self.calls = self.calls.saturating_add(1);
        if is_failing(&self.failing, call) {
            self.faults = self.faults.saturating_add(1);
            return Err(Failed);
        }
        Ok(self.give(buf, call))
    }
}
