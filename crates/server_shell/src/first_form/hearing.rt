//! What is heard in a line.
ghost use Rattle.std.specs.Prelude.{◌≡◌, ◌≤◌, length, IfOk};
ghost use Rattle.vg_io.specs.declared.limits.TheConstants.{LINE_LIMIT};
ghost use Rattle.server_shell.specs.first_form.Hearing.{hears, is_blank_line};

use super::command::{Command, NoCommand, read_command};
use std::alloc::Global;
use vg_base::{Memory, Refused};

/// What is heard in a line.
#[derive(Drop)]
pub enum Heard {
    /// The line is past the limit.
    Long,
    /// No command.
    Unknown,
    Said(Command),
}

/// Only spaces, tabs and carriage returns.
fn is_blank_line(line: &[u8]) -> bool
    ensures { result ≡ is_blank_line line.now }
{
    line.iter().all(|b| *b == 32 || *b == 9 || *b == 13)
}

/// What is heard in a line within the limit; nothing in a blank one.
pub fn hear(alloc: Global, line: &[u8]) -> Result<Option<Heard>, Memory>
    requires { length line.now ≤ LINE_LIMIT }
    ensures { IfOk result (λ heard. heard ≡ hears line.now) }
{
    if is_blank_line(line) {
        return Ok(None);
    }
    match read_command(alloc, line) {
        Ok(command) => Ok(Some(Heard::Said(command))),
        Err(Refused::Fault(NoCommand)) => Ok(Some(Heard::Unknown)),
        Err(Refused::Memory) => Err(Memory),
    }
}
