//! The first form as a server over batches: each line is a batch of its own.
ghost use Rattle.std.specs.Prelude.{◌≡◌, ◌≢◌, ℕ, ◌+◌, ◌<◌, ◌≤◌, ◌^◌, ◌↔◌, List, [], ◌∷◌, length, IfOk, OnOk, IsTrue};
ghost use Rattle.vg_io.specs.declared.limits.TheConstants.{LINE_LIMIT};
ghost use Rattle.server_shell.specs.first_form.State.{State, start};
ghost use Rattle.server_shell.specs.first_form.Lines.{line_of};
ghost use Rattle.server_shell.specs.code.Keeping.{AnswersOne};

use super::hearing::{Heard, hear};
use super::reply::{Reply, reply_text};
use super::server::Server;
use crate::batches::{BatchEnd, Batches};
use crate::printing::Printed;
use std::alloc::Global;
use std::marker::Model;
use vg_base::Memory;

/// A line: its number, and what is heard in it.
#[derive(Drop)]
pub struct HeardLine {
    pub number: u64,
    pub heard: Heard,
}

/// The server of the first form.
#[derive(Drop)]
pub struct FirstForm {
    server: Server,
    pending: Option<HeardLine>,
    last: u64,
    alloc: Global,
}

impl Model for FirstForm {
    ghost use Rattle.std.specs.Prelude.{◌+◌, ◌<◌, ◌≤◌, ◌^◌, length, option_to_list};
    ghost use Rattle.server_shell.specs.code.Keeping.{Keeping};

    ghost Value = { Keeping };

    ghost view = { λ f. record {
      kept = record { stands = f.server; pending = option_to_list f.pending };
      last = f.last;
    } };

    ghost invariant = { λ f. (f.server.version + length (option_to_list f.pending) ≤ f.last)
        × (f.last < 2 ^ 63) };
}

/// The reply to a line.
fn answer_line(server: &mut Server, line: HeardLine) -> Reply
    requires { server.old.version < 2 ^ 63 }
    ensures answers { AnswersOne server.old server.new line result }
    ensures rises { server.new.version ≤ server.old.version + 1 }
{
    let HeardLine { number, heard } = line;
    Reply {
        line: number,
        body: server.answer(heard),
    }
}

impl FirstForm {
    pub fn new(alloc: Global) -> FirstForm
        ensures { result ≡ record { kept = record { stands = start; pending = [] }; last = 0 } }
    {
        FirstForm {
            server: Server::new(alloc),
            pending: None,
            last: 0,
            alloc,
        }
    }
}

impl Batches for FirstForm {
    ghost use Rattle.std.specs.Prelude.{ℕ};
    ghost use Rattle.server_shell.specs.first_form.Answers.{first_form};

    type Reply = Reply;

    type State = Server;

    type Count = u64;

    type Item = HeardLine;

    ghost service = { first_form };

    ghost kept = { λ f. f.kept };

    ghost last = { λ f. f.last };

    fn take(&mut self, number: u64, line: &[u8]) -> Result<BatchEnd, Memory> {
        let heard = hear(self.alloc, line)?;
        self.last = number;
        match heard {
            None => Ok(BatchEnd::Later),
            Some(heard) => {
                self.pending = Some(HeardLine { number, heard });
                Ok(BatchEnd::Here)
            }
        }
    }

    fn take_long(&mut self, number: u64) -> Result<BatchEnd, Memory> {
        self.pending = Some(HeardLine {
            number,
            heard: Heard::Long,
        });
        self.last = number;
        Ok(BatchEnd::Here)
    }

    fn is_empty(&self) -> bool {
        self.pending.is_none()
    }

    fn run(&mut self) -> Result<Vec<Reply>, Memory> {
        let mut replies = Vec::new(self.alloc);
        if let Some(line) = self.pending.take() {
            replies.push(answer_line(&mut self.server, line))?;
        }
        Ok(replies)
    }
}

impl Printed for Reply {
    ghost line = { line_of };

    fn text(&self, alloc: Global) -> Result<String, Memory> {
        reply_text(alloc, self)
    }
}
