//! Bytes that were read and not yet given.
ghost use Rattle.std.specs.Prelude.{◌≡◌, ◌<◌, ◌≤◌, [], length, take, slice_index, IfOk, OnErr, MatchOption};
ghost use Rattle.vg_io.specs.Sources.{ReadsBytes};
ghost use Rattle.vg_io.specs.Lines.{HasNoFeed};
ghost use Rattle.vg_io.specs.code.Gathering.{Fills, MovesHeld, MovesPart};

use crate::gathered::Gathered;
use crate::limits::{CHUNK, LINE_LIMIT};
use crate::source::{Failed, Source};
use std::alloc::{AllocError, Global};
use std::marker::Model;

/// A buffer, of which the bytes from `start` to `end` are held.
#[derive(Drop)]
pub struct Chunk {
    buf: Vec<u8>,
    start: usize,
    end: usize,
}

impl Model for Chunk {
    ghost use Rattle.std.specs.Prelude.{◌≤◌, ◌<◌, List, ℕ, slice_range, vec_len};

    ghost Value = { List ℕ };

    ghost view = { λ s. slice_range s.buf.items s.start s.end };

    ghost invariant = { λ s. (s.start ≤ s.end) × (s.end ≤ vec_len s.buf) × (0 < vec_len s.buf) };
}

impl Chunk {
    pub fn open(alloc: Global) -> Result<Chunk, AllocError>
        ensures { IfOk result (λ c. c ≡ []) }
    {
        let buf = vec![in alloc; 0; CHUNK]?;
        Ok(Chunk {
            buf,
            start: 0,
            end: 0,
        })
    }

    /// Reads where nothing is held, and asks for no more than `most` bytes.
    pub fn fill<S: Source>(&mut self, source: &mut S, most: usize) -> Result<usize, Failed>
        requires some { 0 < most }
        requires empty { self.old ≡ [] }
        ensures within { IfOk result (λ n. (n ≤ most) × (n ≡ length self.new)) }
        ensures none { OnErr result (self.new ≡ []) }
        ensures fills { Fills (S.told source.old) (S.told source.new) result self.new }
    {
        self.start = 0;
        self.end = 0;
        let count = read_front(source, &mut self.buf, most)?;
        self.end = count;
        Ok(count)
    }

    /// Moves what is held to the line, up to a line feed, which is taken too. Says whether one was
    /// there.
    pub fn take_part(&mut self, line: &mut Gathered) -> Result<bool, AllocError>
        ensures { IfOk result (λ found.
            MovesHeld LINE_LIMIT found self.old self.new line.old line.new) }
    {
        match move_part(&self.buf[self.start..self.end], line) {
            Err(e) => Err(e),
            Ok(Some(count)) => {
                self.start += count + 1;
                Ok(true)
            }
            Ok(None) => {
                self.start = self.end;
                Ok(false)
            }
        }
    }
}

/// Reads into the front of `buf`.
fn read_front<S: Source>(source: &mut S, buf: &mut [u8], most: usize) -> Result<usize, Failed>
    requires some { 0 < most }
    requires room { 0 < length buf.old }
    ensures within { IfOk result (λ n. (n ≤ most) × (n ≤ length buf.new)) }
    ensures reads { ReadsBytes (S.told source.old) (S.told source.new) result buf.new }
{
    let room = most.min(buf.len());
    source.read(&mut buf[..room])
}

/// Adds a part of the line, and says how many bytes stood before its line feed.
fn move_part(bytes: &[u8], line: &mut Gathered) -> Result<Option<usize>, AllocError>
    ensures { IfOk result (λ count. MovesPart LINE_LIMIT bytes.now count line.old line.new) }
{
    match feed_at(bytes) {
        Some(at) => {
            line.add(&bytes[..at])?;
            Ok(Some(at))
        }
        None => {
            line.add(bytes)?;
            Ok(None)
        }
    }
}

/// The place of the first line feed.
fn feed_at(bytes: &[u8]) -> Option<usize>
    ensures { MatchOption result (HasNoFeed bytes.now)
        (λ i. (i < length bytes.now) × HasNoFeed (take i bytes.now)
        × (slice_index bytes.now i ≡ 10)) }
{
    for (i, b) in bytes.iter().enumerate() {
        if *b == 10 {
            return Some(i);
        }
    }
    None
}
