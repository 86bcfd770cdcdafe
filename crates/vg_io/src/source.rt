//! Where bytes come from.
ghost use Rattle.std.specs.Prelude.{◌<◌, ◌≤◌, length, IfOk};
ghost use Rattle.vg_io.specs.Sources.{ToldSource, ReadsBytes};

use std::fmt;

/// A call of a source, a sink or a store failed.
#[derive(Clone, Copy, Debug, PartialEq, Eq)]
pub struct Failed;

impl fmt::Display for Failed {
    fn fmt<W: fmt::Write>(&self, f: &mut fmt::Formatter<W>) -> fmt::Result {
        f.write_str("failed")
    }
}

/// Bytes that are read from the front.
pub trait Source {
    /// What the source tells: the bytes left, whether a read met the end of input, and its counts
    /// of faults and reads.
    ghost told: { Self → ToldSource };

    /// Reads the next bytes into the front of `buf` and says how many; none is the end of input.
    fn read(&mut self, buf: &mut [u8]) -> Result<usize, Failed>
        requires { 0 < length buf.old }
        ensures bound { IfOk result (λ n. n ≤ length buf.new) }
        ensures reads { ReadsBytes (told self.old) (told self.new) result buf.new };
}
