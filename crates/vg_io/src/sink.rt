//! Where bytes go.
ghost use Rattle.std.specs.Prelude.{◌<◌, ◌≤◌, length, IfOk};
ghost use Rattle.vg_io.specs.Sinks.{ToldSink, Writes, Flushes};

use crate::source::Failed;

/// Bytes that are written at the end.
pub trait Sink {
    /// What the sink tells: the bytes written, those of them that were shown, and its count of
    /// faults.
    ghost told: { Self → ToldSink };

    /// Writes the front of the piece and says how many bytes that is.
    fn write(&mut self, piece: &[u8]) -> Result<usize, Failed>
        requires { 0 < length piece.now }
        ensures some { IfOk result (λ n. 0 < n) }
        ensures bound { IfOk result (λ n. n ≤ length piece.now) }
        ensures writes { Writes (told self.old) (told self.new) result piece.now };

    /// Shows what is still held back, and appends nothing.
    fn flush(&mut self) -> Result<(), Failed>
        ensures flushes { Flushes (told self.old) (told self.new) result };
}
