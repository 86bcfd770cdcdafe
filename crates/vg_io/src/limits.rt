//! Limits of what is read.
ghost use Rattle.std.specs.Prelude.{◌≡◌};
ghost use Rattle.vg_base.specs.Limits as limits;

/// The most bytes of a line without its line feed.
pub const LINE_LIMIT: usize = 2_097_152;

/// The most bytes of an input.
pub const INPUT_LIMIT: u64 = 1_073_741_824;

/// How many bytes of the input are read at a time, at most.
pub const CHUNK: usize = 65_536;

/// The constants are the limits of a line and of an input.
pub fn lines_have_their_limits()
    ensures line { LINE_LIMIT ≡ limits.line_bytes }
    ensures input { INPUT_LIMIT ≡ limits.input_bytes }
{}
