//! A server of the tests' own whose batches have several lines: a batch ends at a line of one byte,
//! and the reply to each line that has a byte is its number.
ghost use Rattle.std.specs.Prelude.{◌≡◌, ℕ, ◌==◌, List, length, None, Some, if◌then◌else◌};
ghost use Rattle.server_shell.specs.Service.{Service, BetweenLines};

use crate::{BatchEnd, Batches, Counting, Status, run_batches};
use std::alloc::Global;
use std::mem;
use std::test::Fail;
use vg_base::Memory;
use vg_io::MemSource;

/// A line: its number, and whether it has one byte.
#[derive(Drop)]
struct Note {
    number: u64,
    ends: bool,
}

#[derive(Drop)]
struct Notes {
    pending: Vec<Note>,
    last: u64,
    alloc: Global,
}

impl Batches for Notes {
    type Reply = Note;

    type State = u64;

    type Count = u64;

    type Item = Note;

    ghost service = { record {
      start = 0;
      read = λ number line. if length line == 0 then None
          else Some (record { number = number; ends = length line == 1 });
      division = record { first = 0; next = λ count line. count; ends = λ count line. line.ends };
      answers = λ stands batch replies. replies ≡ batch;
      after = λ stands batch replies. stands;
    } };

    ghost kept = { λ notes. record { stands = 0; pending = notes.pending.items } };

    ghost last = { λ notes. notes.last };

    fn take(&mut self, number: u64, line: &[u8]) -> Result<BatchEnd, Memory> {
        self.last = number;
        if line.is_empty() {
            return Ok(BatchEnd::Later);
        }
        let ends = line.len() == 1;
        self.pending.push(Note { number, ends })?;
        if ends {
            Ok(BatchEnd::Here)
        } else {
            Ok(BatchEnd::Later)
        }
    }

    fn take_long(&mut self, number: u64) -> Result<BatchEnd, Memory> {
        self.pending.push(Note {
            number,
            ends: false,
        })?;
        self.last = number;
        Ok(BatchEnd::Later)
    }

    fn is_empty(&self) -> bool {
        self.pending.is_empty()
    }

    fn run(&mut self) -> Result<Vec<Note>, Memory> {
        Ok(mem::replace(&mut self.pending, Vec::new(self.alloc)))
    }
}

/// How a run over this input ended, and how many replies were delivered; the read behind so many
/// fails.
fn run(alloc: Global, input: &[u8], failing: u64) -> Result<(Status, u64), Memory> {
    let mut source = MemSource::open(
        Vec::from_slice(alloc, input)?,
        vec![in alloc; 1]?,
        vec![in alloc; failing]?,
    );
    let mut notes = Notes {
        pending: Vec::new(alloc),
        last: 0,
        alloc,
    };
    let mut count = 0;
    let status = run_batches(alloc, &mut notes, &Counting, &mut source, &mut count);
    Ok((status, count))
}

#[test]
fn answers_pending_lines_at_the_end_alone(rt: HostRuntime) -> Result<(), Fail> {
    let alloc = rt.alloc();
    assert_eq!(rt;
        run(alloc, b"ab\n.\nab\n.\nab\nab\n", 1000)?,
        (Status::Done, 6)
    );
    assert_eq!(rt; run(alloc, b"ab\n.\nab\nab", 1000)?, (Status::Done, 4));
    assert_eq!(rt; run(alloc, b"\nab\n\n.\n\n", 1000)?, (Status::Done, 2));
    assert_eq!(rt; run(alloc, b"ab\n.\nab\nab\n", 9)?, (Status::ReadFault, 2));
    assert_eq!(rt; run(alloc, b"", 1000)?, (Status::Done, 0));
    Ok(())
}
