//! The top call.
ghost use Rattle.std.specs.Prelude.{◌≡◌, ◌≢◌, ◌↔◌, length, ◌⊎◌, IsSome};
ghost use Rattle.server_shell.specs.Delivery.{printed};
ghost use Rattle.server_shell.specs.Served.{Ran, Rose, TakesOver, outside};
ghost use Rattle.server_shell.specs.first_form.Answers.{first_form};
ghost use Rattle.server_shell.specs.first_form.Lines.{line_of};

use super::first_form::FirstForm;
use super::outcome::Status;
use super::printing::Printing;
use super::run::run_batches;
use std::alloc::Global;
use std::sync::Wait;
use std::thread::Threads;
use vg_io::{Gate, Sink, Source};

/// Runs the program: `words` is its command line, with its name first.
pub fn serve<R: Threads + Wait + Sync, S: Source, K: Sink, G: Gate>(
    _rt: &R,
    alloc: Global,
    words: &[String],
    source: &mut S,
    sink: &mut K,
    _gate: &G,
) -> Status
    // What was answered and written, why the run ended, and the bounds.
    ensures ran { Ran first_form (printed K.told line_of)
        (outside (S.told source.old) sink.old) (outside (S.told source.new) sink.new) result }

    // At Usage nothing was read or written.
    ensures usage { result ≡ Status.Usage ↔ (length words.now ≢ 1) }
    ensures untouched { result ≡ Status.Usage → (source.new ≡ source.old) × (sink.new ≡ sink.old) }

    // Words in form, no rise of a count and an input within the limit give Done, or want of memory.
    ensures complete { length words.now ≡ 1 → IsSome (S.told source.old).left
        → ¬ Rose (S.told source.old).faults (S.told source.new).faults
        → ¬ Rose (K.told sink.old).faults (K.told sink.new).faults
        → ¬ TakesOver (S.told source.old).left (S.told source.new).left
        → (result ≡ Status.Done) ⊎ (result ≡ Status.Memory) }
{
    if words.len() != 1 {
        return Status::Usage;
    }
    let mut form = FirstForm::new(alloc);
    run_batches(alloc, &mut form, &Printing { alloc }, source, sink)
}
