//! Lines that are taken into batches, and batches that are answered.
ghost use Rattle.std.specs.Prelude.{◌≡◌, ℕ, ◌<◌, ◌≤◌, ◌^◌, ◌↔◌, List, [], length, IfOk, OnOk, IsTrue};
ghost use Rattle.vg_io.specs.declared.limits.TheConstants.{LINE_LIMIT};
ghost use Rattle.server_shell.specs.Service.{Service, BetweenLines, HasOpenBatch, TakesRead, RunsBatch};

use vg_base::Memory;

/// Where the open batch ends.
#[derive(Clone, Copy, Drop, Debug)]
pub enum BatchEnd {
    /// Behind a later line.
    Later,
    /// With the line that was just taken.
    Here,
}

/// A server that takes lines into an open batch, and answers the batch when it has ended.
pub trait Batches {
    type Reply: Drop;

    /// What stands between batches.
    type State;

    /// A count within a batch, by which it ends.
    type Count;

    /// An item, which is read of a line that is not blank.
    type Item;

    /// What the server answers.
    ghost service: { Service Self.State Self.Count Self.Item Self.Reply };

    /// What stands, and the items of the open batch.
    ghost kept: { Self → BetweenLines Self.State Self.Item };

    /// The number of the last line that was taken, or 0.
    ghost last: { Self → ℕ };

    /// Takes a line into the open batch; a blank one leaves it as it is. At Err nothing is said of
    /// the server.
    fn take(&mut self, number: u64, line: &[u8]) -> Result<BatchEnd, Memory>
        requires open { HasOpenBatch service (kept self.old) }
        requires within { length line.now ≤ LINE_LIMIT }
        requires later { last self.old < number }
        requires few { number < 2 ^ 63 }
        ensures takes { IfOk result
            (TakesRead service (kept self.old) (kept self.new) (service.read number line.now)) }
        ensures last { OnOk result (last self.new ≡ number) };

    /// Takes a line past the limit, whose bytes aren't known.
    fn take_long(&mut self, number: u64) -> Result<BatchEnd, Memory>
        requires open { HasOpenBatch service (kept self.old) }
        requires later { last self.old < number }
        requires few { number < 2 ^ 63 }
        ensures takes { (line : List ℕ) → LINE_LIMIT < length line
            → IfOk result
            (TakesRead service (kept self.old) (kept self.new) (service.read number line)) }
        ensures last { OnOk result (last self.new ≡ number) };

    /// Whether the open batch has no item.
    fn is_empty(&self) -> bool
        ensures { IsTrue result ↔ ((kept self.now).pending ≡ []) };

    /// Answers the open batch, and begins an empty one. At Err nothing is said of the server.
    fn run(&mut self) -> Result<Vec<Self::Reply>, Memory>
        ensures runs { IfOk result (λ replies.
            RunsBatch service (kept self.old) (kept self.new) replies.items) }
        ensures last { OnOk result (last self.new ≡ last self.old) };
}
