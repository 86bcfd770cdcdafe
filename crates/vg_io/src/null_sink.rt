//! A sink that keeps nothing.
ghost use Rattle.std.specs.Prelude.{◌≡◌, ◌<◌, length, None, IsOk};

use crate::sink::Sink;
use crate::source::Failed;

/// A sink that keeps no byte, tells none and never fails.
#[derive(Clone, Copy, Debug)]
pub struct NullSink;

impl NullSink {
    pub fn open() -> NullSink {
        NullSink
    }
}

impl Sink for NullSink {
    ghost told = { λ _. record { written = None; shown = None; faults = 0 } };

    fn write(&mut self, piece: &[u8]) -> Result<usize, Failed>
        requires { 0 < length piece.now }
        ensures { result ≡ Ok (length piece.now) }
    {
        Ok(piece.len())
    }

    fn flush(&mut self) -> Result<(), Failed>
        ensures { IsOk result }
    {
        Ok(())
    }
}
