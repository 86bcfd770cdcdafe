//! Sources and sinks over std's readers and writers: the trusted edge.
ghost use Rattle.std.specs.Prelude.{◌≡◌, ◌-◌, ◌^◌, false};
ghost use Rattle.vg_io.specs.Sources.{ToldSource};
ghost use Rattle.vg_io.specs.Sinks.{ToldSink, all_but};

use crate::sink::Sink;
use crate::source::{Failed, Source};
use std::io::{Read, Write};
use std::marker::Model;

/// A source over a reader.
#[derive(Drop)]
pub struct ReadSource<R: Read> {
    inner: R,
    ended: bool,
    faults: u64,
}

impl<R: Read> Model for ReadSource<R> {
    ghost Value = { ToldSource };

    ghost view = { λ s. record {
      left = R.remaining s.inner;
      ended = s.ended;
      faults = s.faults;
      reads = 0;
    } };
}

impl<R: Read> ReadSource<R> {
    pub fn open(inner: R) -> ReadSource<R>
        ensures { result ≡ record {
          left = R.remaining inner;
          ended = false;
          faults = 0;
          reads = 0;
        } }
    {
        ReadSource {
            inner,
            ended: false,
            faults: 0,
        }
    }

    /// How many reads have failed.
    pub fn faults(&self) -> u64
        ensures { result ≡ self.now.faults }
    {
        self.faults
    }
}

impl<R: Read> Source for ReadSource<R> {
    ghost told = { λ s. s };

    fn read(&mut self, buf: &mut [u8]) -> Result<usize, Failed> {
        match self.inner.read(buf) {
            Ok(count) => {
                self.ended = self.ended || count == 0;
                Ok(count)
            }
            Err(_) => {
                self.faults = self.faults.saturating_add(1);
                Err(Failed)
            }
        }
    }
}

/// A sink over a writer. A write that takes nothing is a fault. What was written before the last
/// flush that did not fail is shown, and before the first one nothing.
#[derive(Drop)]
pub struct WriteSink<W: Write> {
    inner: W,
    /// How many of the last bytes may be held back by the writer.
    held: u64,
    faults: u64,
}

impl<W: Write> Model for WriteSink<W> {
    ghost Value = { ToldSink };

    ghost view = { λ s. record {
      written = W.contents s.inner;
      shown = all_but s.held (W.contents s.inner);
      faults = s.faults;
    } };
}

impl<W: Write> WriteSink<W> {
    pub fn open(inner: W) -> WriteSink<W>
        ensures { result ≡ record {
          written = W.contents inner;
          shown = all_but (2 ^ 64 - 1) (W.contents inner);
          faults = 0;
        } }
    {
        WriteSink {
            inner,
            held: u64::MAX,
            faults: 0,
        }
    }

    /// How many writes and flushes have failed.
    pub fn faults(&self) -> u64
        ensures { result ≡ self.now.faults }
    {
        self.faults
    }
}

impl<W: Write> Sink for WriteSink<W> {
    ghost told = { λ s. s };

    #[tactic(auto, using(crate::proofs::Showing::held_back))]
    fn write(&mut self, piece: &[u8]) -> Result<usize, Failed> {
        match self.inner.write(piece) {
            Ok(count) if count > 0 => {
                self.held = self.held.saturating_add(count as u64);
                Ok(count)
            }
            _ => {
                self.faults = self.faults.saturating_add(1);
                Err(Failed)
            }
        }
    }

    #[tactic(auto, using(crate::proofs::Showing::held_back))]
    fn flush(&mut self) -> Result<(), Failed> {
        match self.inner.flush() {
            Ok(()) => {
                self.held = 0;
                Ok(())
            }
            Err(_) => {
                self.faults = self.faults.saturating_add(1);
                Err(Failed)
            }
        }
    }
}
