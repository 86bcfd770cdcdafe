//! What sinks write and show, and what a source can see of it.
ghost use Rattle.std.specs.Prelude.{None, false};

use crate::{Failed, MemSink, NullSink, Sink, Source, write_all};
use std::cell::Cell;
use std::test::Fail;

#[test]
fn a_piece_is_written_whole_or_a_front_of_it(rt: HostRuntime) -> Result<(), Fail> {
    let alloc = rt.alloc();
    let rows = [
        (10, 1, 99, true, "seven b"),
        (10, 1000, 99, true, "seven b"),
        (7, 3, 99, true, "seven b"),
        (6, 3, 99, false, "seven "),
        (0, 3, 99, false, ""),
        (10, 3, 2, false, "seven "),
        (10, 3, 0, false, ""),
    ];
    for (room, piece, failing, is_whole, wanted) in rows {
        let pieces = vec![in alloc; piece]?;
        let mut sink = MemSink::open(alloc, room, pieces, vec![in alloc; failing]?)?;
        assert_eq!(rt;
            write_all(&mut sink, b"seven b".as_slice()).is_ok(),
            is_whole
        );
        assert_eq!(rt;
            sink.bytes(),
            wanted.as_bytes(),
            "room {room}, pieces of {piece}"
        );
        assert_eq!(rt; sink.faults(), u64::from(!is_whole));
    }
    let mut sink = NullSink::open();
    assert!(rt; write_all(&mut sink, b"seven b".as_slice()).is_ok());
    Ok(())
}

#[test]
fn bytes_are_shown_by_a_flush_and_not_before(rt: HostRuntime) -> Result<(), Fail> {
    let alloc = rt.alloc();
    // Calls 0 to 2 write, 3 and 4 flush, and 5 writes again.
    let rows = [(99, "seven b", 0), (3, "", 1)];
    for (failing, shown, faults) in rows {
        let calls = vec![in alloc; failing]?;
        let mut sink = MemSink::open(alloc, 20, vec![in alloc; 3]?, calls)?;
        assert!(rt; write_all(&mut sink, b"seven b".as_slice()).is_ok());
        assert_eq!(rt; sink.shown(), b"".as_slice());
        assert_eq!(rt; sink.flush().is_ok(), faults == 0);
        assert_eq!(rt; sink.shown(), shown.as_bytes(), "call {failing} fails");
        assert!(rt; sink.flush().is_ok());
        assert!(rt; write_all(&mut sink, b"!".as_slice()).is_ok());
        assert_eq!(rt; sink.shown(), b"seven b".as_slice());
        assert_eq!(rt; sink.faults(), faults, "call {failing} fails");
    }
    Ok(())
}

/// A sink that tells no bytes, and says to others how many of them it has shown.
#[derive(Drop)]
struct Desk<'a> {
    written: u8,
    shown: &'a Cell<u8>,
}

impl Sink for Desk<'_> {
    ghost told = { λ _. record { written = None; shown = None; faults = 0 } };

    fn write(&mut self, piece: &[u8]) -> Result<usize, Failed> {
        for _ in piece {
            self.written = self.written.saturating_add(1);
        }
        Ok(piece.len())
    }

    fn flush(&mut self) -> Result<(), Failed> {
        self.shown.set(self.written);
        Ok(())
    }
}

/// A source that has no end. Each read gives how many bytes a sink has shown.
#[derive(Drop)]
struct Window<'a> {
    shown: &'a Cell<u8>,
}

impl Source for Window<'_> {
    ghost told = { λ _. record { left = None; ended = false; faults = 0; reads = 0 } };

    fn read(&mut self, buf: &mut [u8]) -> Result<usize, Failed> {
        buf[0] = self.shown.get();
        Ok(1)
    }
}

#[test]
fn a_source_can_see_what_a_sink_has_shown(rt: HostRuntime) {
    let shown = Cell::new(0);
    let mut sink = Desk {
        written: 0,
        shown: &shown,
    };
    let mut source = Window { shown: &shown };
    let mut seen = [9];
    assert!(rt; write_all(&mut sink, b"abc".as_slice()).is_ok());
    assert_eq!(rt; source.read(&mut seen), Ok(1));
    assert_eq!(rt; seen[0], 0);
    assert!(rt; sink.flush().is_ok());
    assert_eq!(rt; source.read(&mut seen), Ok(1));
    assert_eq!(rt; seen[0], 3);
}
