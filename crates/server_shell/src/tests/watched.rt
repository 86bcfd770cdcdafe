//! A source that looks, before it gives its last line, at how much of the replies was shown.
ghost use Rattle.std.specs.Prelude.{None};

use super::{MATCH, PUBLISH, PUBLISHED, PUT, RAN, RUN, STAGED, TRY, joined};
use crate::{Status, serve};
use std::cell::Cell;
use std::test::Fail;
use vg_io::{Failed, Open, Sink, Source};

/// Gives two parts, one a read, and notes at its second read how many bytes were shown.
#[derive(Drop)]
struct TwoParts<'a> {
    first: &'a [u8],
    second: &'a [u8],
    reads: u64,
    ended: bool,
    shown: &'a Cell<u64>,
    seen: u64,
}

impl Source for TwoParts<'_> {
    ghost told = { λ s. record { left = None; ended = s.ended; faults = 0; reads = 0 } };

    fn read(&mut self, buf: &mut [u8]) -> Result<usize, Failed> {
        let part = match self.reads {
            0 => self.first,
            1 => self.second,
            _ => &[],
        };
        if self.reads == 1 {
            self.seen = self.shown.get();
        }
        self.reads = self.reads.saturating_add(1);
        let count = part.len().min(buf.len());
        buf[..count].copy_from_slice(&part[..count]);
        self.ended = self.ended || count == 0;
        Ok(count)
    }
}

/// Counts the bytes that are written, and tells them as shown when it is flushed.
#[derive(Drop)]
struct Counter<'a> {
    written: u64,
    shown: &'a Cell<u64>,
}

impl Sink for Counter<'_> {
    ghost told = { λ s. record { written = None; shown = None; faults = 0 } };

    fn write(&mut self, piece: &[u8]) -> Result<usize, Failed> {
        self.written = self.written.saturating_add(piece.len() as u64);
        Ok(piece.len())
    }

    fn flush(&mut self) -> Result<(), Failed> {
        self.shown.set(self.written);
        Ok(())
    }
}

#[test]
fn replies_before_next_batch(rt: HostRuntime) -> Result<(), Fail> {
    let alloc = rt.alloc();
    let first = joined(alloc, &[PUT, PUBLISH, RUN])?;
    let words = vec![in alloc; String::from_str(alloc, "vgram")?]?;
    let shown = Cell::new(0);
    let mut source = TwoParts {
        first: &first,
        second: TRY,
        reads: 0,
        ended: false,
        shown: &shown,
        seen: 0,
    };
    let mut sink = Counter {
        written: 0,
        shown: &shown,
    };
    let status = serve(&rt, alloc, &words, &mut source, &mut sink, &Open);
    assert_eq!(rt; status, Status::Done);
    assert_eq!(rt;
        source.seen,
        (STAGED.len() + PUBLISHED.len() + RAN.len()) as u64
    );
    assert_eq!(rt; shown.get(), source.seen + MATCH.len() as u64);
    Ok(())
}
