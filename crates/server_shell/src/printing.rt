//! Replies that are printed to a sink.
ghost use Rattle.std.specs.Prelude.{◌≡◌, ℕ, ◌+◌, ◌-◌, ◌^◌, List, IfOk, OnOk, OnErr, IfErr, string_bytes};
ghost use Rattle.std.specs.List.{flat_map};
ghost use Rattle.std.specs.Io.KnownBytes.{Appends, Keeps};
ghost use Rattle.vg_io.specs.Faults.{faults_after};
ghost use Rattle.server_shell.specs.Delivery.{WritesFront, faults_of, printed};

use super::delivery::Delivers;
use std::alloc::Global;
use vg_base::{Memory, Refused};
use vg_io::{Failed, Sink, write_all};

/// A reply that has a line.
pub trait Printed {
    /// The line, with its line feed.
    ghost line: { Self → List ℕ };

    fn text(&self, alloc: Global) -> Result<String, Memory>
        ensures { IfOk result (λ text. string_bytes text ≡ line self.now) };
}

/// Prints the lines of the replies of a batch together, and flushes the sink after them.
#[derive(Clone, Copy, Drop)]
pub struct Printing {
    pub alloc: Global,
}

/// Writes a piece.
fn write_piece<K: Sink>(sink: &mut K, piece: &[u8]) -> Result<(), Refused<Failed>>
    ensures whole { OnOk result
        (Appends (K.told sink.old).written (K.told sink.new).written piece.now) }
    ensures front { OnErr result
        (WritesFront (K.told sink.old).written (K.told sink.new).written piece.now) }
    ensures faults { (K.told sink.new).faults ≡ faults_of result (K.told sink.old).faults }
{
    match write_all(sink, piece) {
        Ok(()) => Ok(()),
        Err(failed) => Err(Refused::Fault(failed)),
    }
}

/// The lines of replies, one after another.
fn lines_of<R: Printed>(alloc: Global, replies: &[R]) -> Result<Vec<u8>, Memory>
    ensures { IfOk result (λ lines. lines.items ≡ flat_map R.line replies.now) }
{
    let mut lines = Vec::new(alloc);
    for reply in replies {
        let text = reply.text(alloc)?;
        lines.extend_from_slice(text.as_bytes())?;
    }
    Ok(lines)
}

/// Flushes the sink.
fn show<K: Sink>(sink: &mut K) -> Result<(), Refused<Failed>>
    ensures kept { Keeps (K.told sink.old).written (K.told sink.new).written }
    ensures shown { OnOk result ((K.told sink.new).shown ≡ (K.told sink.new).written) }
    ensures faults { (K.told sink.new).faults ≡ faults_of result (K.told sink.old).faults }
{
    match sink.flush() {
        Ok(()) => Ok(()),
        Err(failed) => Err(Refused::Fault(failed)),
    }
}

impl<R: Printed, K: Sink> Delivers<R, K> for Printing {
    ghost use Rattle.server_shell.specs.code.Lawful.{printing_is_lawful};

    ghost delivery = { printed K.told R.line };

    ghost lawful = { printing_is_lawful K.told R.line };

    fn deliver(&self, out: &mut K, replies: &[R]) -> Result<(), Refused<Failed>> {
        if replies.is_empty() {
            return Ok(());
        }
        let Ok(lines) = lines_of(self.alloc, replies) else {
            return Err(Refused::Memory);
        };
        match write_piece(out, &lines) {
            Ok(()) => show(out),
            Err(refused) => Err(refused),
        }
    }
}
