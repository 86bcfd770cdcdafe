//! A sink over memory whose room, pieces and faults are chosen.
ghost use Rattle.std.specs.Prelude.{◌≡◌, ◌+◌, ◌<◌, ◌≤◌, ◌↔◌, ◌⊎◌, [], min, length, IsTrue, IsErr, IfOk, OnErr};
ghost use Rattle.std.specs.List.{All};
ghost use Rattle.vg_io.specs.Faults.{counted};
ghost use Rattle.vg_io.specs.Sinks.{Writes, Flushes};
ghost use Rattle.vg_io.specs.Objects.{told_by_drain, is_named, bounded};

use crate::calls::{append_within, bound_at, is_failing};
use crate::sink::Sink;
use crate::source::Failed;
use std::alloc::Global;
use std::marker::Model;
use vg_base::Memory;

/// A sink over memory with a room that it takes when it is opened.
#[derive(Drop)]
pub struct MemSink {
    bytes: Vec<u8>,
    shown: usize,
    room: usize,
    pieces: Vec<u32>,
    failing: Vec<u64>,
    calls: u64,
    faults: u64,
}

impl Model for MemSink {
    ghost use Rattle.std.specs.Prelude.{◌≤◌, ◌+◌, take, vec_len, vec_capacity};
    ghost use Rattle.std.specs.List.{All};
    ghost use Rattle.vg_io.specs.Objects.{Drain};

    ghost Value = { Drain };

    ghost view = { λ s. record {
      written = s.bytes.items;
      shown = take s.shown s.bytes.items;
      room = s.room;
      pieces = s.pieces.items;
      failing = s.failing.items;
      calls = s.calls;
      faults = s.faults;
    } };

    ghost invariant = { λ s. (vec_len s.bytes + s.room ≤ vec_capacity s.bytes)
        × (s.shown ≤ vec_len s.bytes) × All (λ p. 1 ≤ p) s.pieces.items };
}

impl MemSink {
    /// A sink with room for so many bytes. Writes and flushes are counted together from 0: entry k
    /// of `pieces` bounds call k, as for `MemSource::open`, and the calls in `failing` fail.
    pub fn open(
        alloc: Global,
        room: u64,
        pieces: Vec<u32>,
        failing: Vec<u64>,
    ) -> Result<MemSink, Memory>
        requires { All (λ p. 1 ≤ p) pieces.items }
        ensures { IfOk result (λ s. s ≡ record {
          written = [];
          shown = [];
          room = room;
          pieces = pieces.items;
          failing = failing.items;
          calls = 0;
          faults = 0;
        }) }
    {
        let bytes = Vec::with_capacity(alloc, room as usize)?;
        Ok(MemSink {
            bytes,
            shown: 0,
            room: room as usize,
            pieces,
            failing,
            calls: 0,
            faults: 0,
        })
    }

    /// What was written.
    pub fn bytes(&self) -> &[u8]
        ensures { result.now ≡ self.now.written }
    {
        self.bytes.as_slice()
    }

    /// What was shown: all that was written before the last flush that did not fail.
    pub fn shown(&self) -> &[u8]
        ensures { result.now ≡ self.now.shown }
    {
        &self.bytes[..self.shown]
    }

    /// How many writes and flushes have failed.
    pub fn faults(&self) -> u64
        ensures { result ≡ self.now.faults }
    {
        self.faults
    }
}

impl Sink for MemSink {
    ghost told = { told_by_drain };

    #[tactic(auto, using(crate::proofs::Showing::fronts))]
    fn write(&mut self, piece: &[u8]) -> Result<usize, Failed>
        requires { 0 < length piece.now }
        // What every sink says.
        ensures some { IfOk result (λ n. 0 < n) }
        ensures bound { IfOk result (λ n. n ≤ length piece.now) }
        ensures writes { Writes (told_by_drain self.old) (told_by_drain self.new) result piece.now }

        // What this one does at each call.
        ensures fails { IsErr result
            ↔ (IsTrue (is_named self.old.failing self.old.calls) ⊎ (self.old.room ≡ 0)) }
        ensures count { IfOk result (λ n.
            n ≡ bounded self.old.pieces self.old.calls (min (length piece.now) self.old.room)) }
        ensures room { IfOk result (λ n. self.new.room + n ≡ self.old.room) }
        ensures kept { OnErr result (self.new.room ≡ self.old.room) }
        ensures shown { self.new.shown ≡ self.old.shown }
        ensures calls { self.new.calls ≡ counted self.old.calls }
        ensures pieces { self.new.pieces ≡ self.old.pieces }
        ensures failing { self.new.failing ≡ self.old.failing }
    {
        let call = self.calls;
        self.calls = self.calls.saturating_add(1);
        if self.room == 0 || is_failing(&self.failing, call) {
            self.faults = self.faults.saturating_add(1);
            return Err(Failed);
        }
        let count = bound_at(&self.pieces, call, piece.len().min(self.room));
        append_within(&mut self.bytes, &piece[..count]);
        self.room -= count;
        Ok(count)
    }

    #[tactic(auto, using(crate::proofs::Showing::fronts))]
    fn flush(&mut self) -> Result<(), Failed>
        // What every sink says.
        ensures flushes { Flushes (told_by_drain self.old) (told_by_drain self.new) result }

        // What this one does at each call.
        ensures fails { IsErr result ↔ IsTrue (is_named self.old.failing self.old.calls) }
        ensures room { self.new.room ≡ self.old.room }
        ensures kept { OnErr result (self.new.shown ≡ self.old.shown) }
        ensures calls { self.new.calls ≡ counted self.old.calls }
        ensures pieces { self.new.pieces ≡ self.old.pieces }
        ensures failing { self.new.failing ≡ self.old.failing }
    {
        let call = self.calls;
        self.calls = self.calls.saturating_add(1);
        if is_failing(&self.failing, call) {
            self.faults = self.faults.saturating_add(1);
            return Err(Failed);
        }
        self.shown = self.bytes.len();
        Ok(())
    }
}
