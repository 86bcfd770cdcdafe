//! The program: the server over standard input and standard output.
#![tactic(auto)]

ghost use Rattle.std.specs.Prelude.{◌≡◌};
ghost use Rattle.server_shell.specs.Codes.{code_of};
ghost use Rattle.vgram.specs.Endings.{error_line};

use server_shell::{Status, serve};
use std::alloc::Global;
use std::process::ExitCode;
use std::rt::Env;
use std::{env, io};
use vg_base::Memory;
use vg_io::{Open, ReadSource, WriteSink};

/// How the process ends: its exit status, and the line on standard error, which is empty for none.
#[derive(Drop)]
struct Exit {
    number: u8,
    line: &'static str,
}

/// How the process ends at this status.
fn ending_at(status: Status) -> Exit
    ensures number { result.number ≡ code_of status }
    ensures line { result.line.now ≡ error_line status }
{
    let line = match status {
        Status::Done => "",
        Status::Usage => "vgram: usage: vgram",
        Status::ReadFault => "vgram: read fault",
        Status::WriteFault => "vgram: write fault",
        Status::Memory => "vgram: out of memory",
        Status::InputOver => "vgram: input too long",
    };
    Exit {
        number: status.code(),
        line,
    }
}

/// The words of the command line; None where one of them is no text.
fn command_line(rt: &(impl Env + Alloc<A = Global>)) -> Result<Option<Vec<String>>, Memory> {
    let args = match env::args(rt) {
        Ok(args) => args,
        Err(error) if error.kind() == io::ErrorKind::OutOfMemory => return Err(Memory),
        Err(_) => return Ok(None),
    };
    let mut words = Vec::new(rt.alloc());
    for word in args {
        words.push(word)?;
    }
    Ok(Some(words))
}

fn main(rt: HostRuntime) -> ExitCode {
    let mut source = ReadSource::open(rt.stdin());
    let mut sink = WriteSink::open(rt.stdout());
    let status = match command_line(&rt) {
        Ok(Some(words)) => serve(&rt, rt.alloc(), &words, &mut source, &mut sink, &Open),
        Ok(None) => Status::Usage,
        Err(Memory) => Status::Memory,
    };
    let ending = ending_at(status);
    if !ending.line.is_empty() {
        let _ = eprintln!(rt; "{}", ending.line);
    }
    ExitCode::from(ending.number)
}
