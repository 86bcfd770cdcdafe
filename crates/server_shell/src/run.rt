//! The run of a server over a source: lines are taken into batches, and each batch is answered, and
//! its replies delivered, before the next line is read.
ghost use Rattle.std.specs.Prelude.{◌≡◌, ◌≢◌, ℕ, ◌+◌, ◌^◌, ◌<◌, ◌≤◌, List, [], length, Ok, Err, IfOk, IfErr, OnOk};
ghost use Rattle.vg_io.specs.declared.limits.TheConstants.{LINE_LIMIT};
ghost use Rattle.vg_io.specs.Reader.{IfLine};
ghost use Rattle.server_shell.specs.Service.{HasOpenBatch};
ghost use Rattle.server_shell.specs.Served.{Ran, outside};
ghost use Rattle.server_shell.specs.code.Turning.{StopsBy, TakesNext, Finishes, Breaks, EndsRun, hold};

use super::batches::{BatchEnd, Batches};
use super::delivery::Delivers;
use super::outcome::Status;
use std::alloc::Global;
use vg_base::{Memory, Refused};
use vg_io::{Failed, LineReader, Next, Source};

/// Why no line was taken.
#[derive(Clone, Copy, Drop, Debug)]
enum Stop {
    /// The end of input.
    End,
    /// The run ends, and the open batch stays unanswered.
    Now(Status),
}

/// What a call that took a line comes to.
fn taken_or_memory(answer: Result<BatchEnd, Memory>) -> Result<BatchEnd, Stop>
    ensures ok { IfOk result (λ taken. answer ≡ Ok taken) }
    ensures err { IfErr result (λ stop. stop ≡ Stop.Now Status.Memory) }
{
    match answer {
        Ok(taken) => Ok(taken),
        Err(Memory) => Err(Stop::Now(Status::Memory)),
    }
}

/// Takes what the reader gave into the open batch; Err where it is no line, or where memory is
/// short.
fn take_next<B: Batches>(batches: &mut B, number: u64, next: Next) -> Result<BatchEnd, Stop>
    requires open { HasOpenBatch B.service (B.kept batches.old) }
    requires within { IfLine next (λ line. length line ≤ LINE_LIMIT) }
    requires later { B.last batches.old < number }
    requires few { number < 2 ^ 63 }
    ensures takes { IfOk result
        (TakesNext B.service (B.kept batches.old) (B.kept batches.new) number next) }
    ensures last { OnOk result (B.last batches.new ≡ number) }
    ensures stops { IfErr result (StopsBy next) }
    ensures idle { result ≡ Err Stop.End → batches.new ≡ batches.old }
{
    match next {
        Next::Line(line) => taken_or_memory(batches.take(number, &line)),
        Next::Long => taken_or_memory(batches.take_long(number)),
        Next::End => Err(Stop::End),
        Next::ReadFault => Err(Stop::Now(Status::ReadFault)),
        Next::InputOver => Err(Stop::Now(Status::InputOver)),
        Next::Memory => Err(Stop::Now(Status::Memory)),
    }
}

/// Answers the open batch and delivers its replies.
fn run_batch<B: Batches, D: Delivers<B::Reply, O>, O>(
    batches: &mut B,
    delivers: &D,
    out: &mut O,
) -> Result<(), Status>
    ensures whole { OnOk result (Finishes B.service D.delivery
        (hold (B.kept batches.old) out.old) (hold (B.kept batches.new) out.new)) }
    ensures last { OnOk result (B.last batches.new ≡ B.last batches.old) }
    ensures cut { IfErr result (Breaks B.service D.delivery
        (hold (B.kept batches.old) out.old) (hold (B.kept batches.new) out.new)) }
{
    let replies = match batches.run() {
        Ok(replies) => replies,
        Err(Memory) => return Err(Status::Memory),
    };
    match delivers.deliver(out, &replies) {
        Ok(()) => Ok(()),
        Err(Refused::Fault(Failed)) => Err(Status::WriteFault),
        Err(Refused::Memory) => Err(Status::Memory),
    }
}

/// Answers the open batch at the end of input.
fn run_last<B: Batches, D: Delivers<B::Reply, O>, O>(
    batches: &mut B,
    delivers: &D,
    out: &mut O,
) -> Status
    ensures { EndsRun B.service D.delivery
        (hold (B.kept batches.old) out.old) (hold (B.kept batches.new) out.new) result }
{
    if batches.is_empty() {
        return Status::Done;
    }
    match run_batch(batches, delivers, out) {
        Ok(()) => Status::Done,
        Err(stop) => stop,
    }
}

/// Runs a server over the source to its end: the lines of an open batch are answered there, and
/// stay unanswered where the source fails or its input is too long.
pub fn run_batches<B: Batches, D: Delivers<B::Reply, O>, S: Source, O>(
    alloc: Global,
    batches: &mut B,
    delivers: &D,
    source: &mut S,
    out: &mut O,
) -> Status
    requires start { B.kept batches.old ≡ record { stands = B.service.start; pending = [] } }
    requires none { B.last batches.old ≡ 0 }
    ensures ran { Ran B.service D.delivery
        (outside (S.told source.old) out.old) (outside (S.told source.new) out.new) result }
    ensures in_form { result ≢ Status.Usage }
{
    let mut reader = match LineReader::open(alloc) {
        Ok(reader) => reader,
        Err(Memory) => return Status::Memory,
    };
    let mut number: u64 = 1;
    loop {
        let next = reader.next(source);
        match take_next(batches, number, next) {
            Ok(BatchEnd::Later) => number += 1,
            Ok(BatchEnd::Here) => match run_batch(batches, delivers, out) {
                Ok(()) => number += 1,
                Err(stop) => return stop,
            },
            Err(Stop::End) => return run_last(batches, delivers, out),
            Err(Stop::Now(ending)) => return ending,
        }
    }
}
