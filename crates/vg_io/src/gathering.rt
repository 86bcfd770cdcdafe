//! Reading up to the end of one line.
ghost use Rattle.std.specs.Prelude.{◌≡◌, ℕ, ◌+◌, ◌<◌, ◌≤◌, List, [], length, true, false, IsTrue, ◌↔◌, ◌⊎◌};
ghost use Rattle.std.specs.Io.KnownBytes.{IsAtEnd};
ghost use Rattle.vg_io.specs.Faults.{faults_after};
ghost use Rattle.vg_io.specs.Lines.{LeavesNoLine, TakesBytes};
ghost use Rattle.vg_io.specs.code.Gathering.{GathersIn, EndsLine, taking, ahead, empty_reads, MetEnd, met_read_fault};

use crate::chunk::Chunk;
use crate::gathered::Gathered;
use crate::limits::{INPUT_LIMIT, LINE_LIMIT};
use crate::lines::Finish;
use crate::source::{Failed, Source};
use std::alloc::AllocError;

/// How gathering a line came to its end.
pub enum Gathering {
    /// At the line's feed.
    Whole,
    /// At the end of input, behind a line without its feed.
    Last,
    /// With no line.
    Stop(Finish),
}

/// At the end of input a line that has a byte is the last.
fn gathered_at_end(line: &Gathered) -> Gathering
    ensures last { result ≡ Gathering.Last
        → (front : List ℕ) → GathersIn LINE_LIMIT front line.now → 0 < length front }
    ensures end { result ≡ Gathering.Stop Finish.End
        → (front : List ℕ) → GathersIn LINE_LIMIT front line.now → length front ≡ 0 }
    ensures either { MetEnd result }
{
    if line.is_empty() {
        Gathering::Stop(Finish::End)
    } else {
        Gathering::Last
    }
}

/// More bytes were taken than an input may have.
fn is_over(taken: u64) -> bool
    ensures { IsTrue result ↔ INPUT_LIMIT < taken }
{
    taken > INPUT_LIMIT
}

/// Moves bytes to the line until it ends. No read asks for more bytes than one past the limit of
/// an input.
pub fn gather<S: Source>(
    chunk: &mut Chunk,
    taken: &mut u64,
    source: &mut S,
    line: &mut Gathered,
) -> Gathering
    requires fresh { GathersIn LINE_LIMIT [] line.old }
    requires small { taken.old ≤ INPUT_LIMIT + 1 }
    // Where the line ends.
    ensures whole { result ≡ Gathering.Whole
        → EndsLine LINE_LIMIT true (taking chunk.old taken.old (S.told source.old).left)
        (taking chunk.new taken.new (S.told source.new).left) line.new }
    ensures last { result ≡ Gathering.Last
        → EndsLine LINE_LIMIT false (taking chunk.old taken.old (S.told source.old).left)
        (taking chunk.new taken.new (S.told source.new).left) line.new }
    ensures end { result ≡ Gathering.Stop Finish.End
        → IsAtEnd (ahead (taking chunk.old taken.old (S.told source.old).left))
        × IsAtEnd (S.told source.new).left × (chunk.new ≡ []) }

    // The end of input.
    ensures met { IsTrue (S.told source.new).ended
        ↔ (IsTrue (S.told source.old).ended ⊎ MetEnd result) }
    ensures met_within { MetEnd result → taken.new ≤ INPUT_LIMIT }

    // The other causes.
    ensures faults { (S.told source.new).faults
        ≡ faults_after (met_read_fault result) (S.told source.old).faults }
    ensures fault { result ≡ Gathering.Stop Finish.ReadFault → taken.new ≤ INPUT_LIMIT }
    ensures over { result ≡ Gathering.Stop Finish.InputOver → INPUT_LIMIT < taken.new }
    ensures rest { (result ≡ Gathering.Stop Finish.ReadFault)
        ⊎ (result ≡ Gathering.Stop Finish.InputOver)
        → LeavesNoLine (ahead (taking chunk.old taken.old (S.told source.old).left))
        (S.told source.new).left }

    // The counts.
    ensures counts { TakesBytes (S.told source.old).left (S.told source.new).left
        taken.old taken.new }
    ensures taken { (taken.old ≤ taken.new) × (taken.new ≤ INPUT_LIMIT + 1) }
    ensures reads { (S.told source.new).reads + taken.old
        ≤ (S.told source.old).reads + taken.new + empty_reads result }
{
    loop {
        match chunk.take_part(line) {
            Err(AllocError) => return Gathering::Stop(Finish::Memory),
            Ok(true) => return Gathering::Whole,
            Ok(false) => {}
        }
        if is_over(*taken) {
            return Gathering::Stop(Finish::InputOver);
        }
        let most = (INPUT_LIMIT + 1 - *taken) as usize;
        match chunk.fill(source, most) {
            Err(Failed) => return Gathering::Stop(Finish::ReadFault),
            Ok(0) => return gathered_at_end(line),
            Ok(count) => *taken += count as u64,
        }
    }
}
