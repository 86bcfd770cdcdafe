//! The lines of a source.
ghost use Rattle.std.specs.Prelude.{◌≡◌, [], false, None, Some, IfOk, IsSome, IsTrue, ◌↔◌, ◌⊎◌};
ghost use Rattle.vg_io.specs.Reader.{reading_from, finish_of, AnswersLine, AnswersEnd, AnswersStop, CountsBytes, Stays};

use crate::chunk::Chunk;
use crate::gathered::Gathered;
use crate::gathering::{Gathering, gather};
use crate::limits::INPUT_LIMIT;
use crate::source::Source;
use std::alloc::Global;
use std::marker::Model;
use vg_base::Memory;

/// What a reader of lines answers for good.
#[derive(Clone, Copy, Debug)]
pub enum Finish {
    End,
    ReadFault,
    InputOver,
    Memory,
}

impl Finish {
    fn answer(self) -> Next
        ensures { finish_of result ≡ Some self }
    {
        match self {
            Finish::End => Next::End,
            Finish::ReadFault => Next::ReadFault,
            Finish::InputOver => Next::InputOver,
            Finish::Memory => Next::Memory,
        }
    }

    fn is_end(self) -> bool
        ensures { IsTrue result ↔ (self ≡ Finish.End) }
    {
        matches!(self, Finish::End)
    }
}

/// What a reader of lines gives.
#[derive(Drop, Debug)]
pub enum Next {
    /// The next line, without its line feed.
    Line(Vec<u8>),
    /// The next line is past the limit, and was skipped.
    Long,
    /// The end of input.
    End,
    /// A read failed.
    ReadFault,
    /// The input is past its limit.
    InputOver,
    Memory,
}

/// Gives the lines of a source, one after another.
#[derive(Drop)]
pub struct LineReader {
    chunk: Chunk,
    taken: u64,
    ended: bool,
    finished: Option<Finish>,
    alloc: Global,
}

impl Model for LineReader {
    ghost use Rattle.vg_io.specs.declared.limits.TheConstants.{INPUT_LIMIT};
    ghost use Rattle.vg_io.specs.Reader.{ReaderState, IsReaderState};

    ghost Value = { ReaderState };

    ghost view = { λ r. record {
      held = r.chunk;
      taken = r.taken;
      ended = r.ended;
      finished = r.finished;
    } };

    ghost invariant = { λ r. IsReaderState INPUT_LIMIT (record {
      held = r.chunk;
      taken = r.taken;
      ended = r.ended;
      finished = r.finished;
    }) };
}

impl LineReader {
    pub fn open(alloc: Global) -> Result<LineReader, Memory>
        ensures { IfOk result (λ r.
            r ≡ record { held = []; taken = 0; ended = false; finished = None }) }
    {
        Ok(LineReader {
            chunk: Chunk::open(alloc)?,
            taken: 0,
            ended: false,
            finished: None,
            alloc,
        })
    }

    /// The next line of what is held and of what the source has left. An answer that is no line is
    /// given again from then on, whatever source is handed in. A reader that met the end of input
    /// behind a last line without its line feed answers `End` next, also of another source.
    pub fn next<S: Source>(&mut self, source: &mut S) -> Next
        ensures line { AnswersLine (reading_from self.old (S.told source.old))
            (reading_from self.new (S.told source.new)) result }
        ensures end { AnswersEnd (reading_from self.old (S.told source.old))
            (reading_from self.new (S.told source.new)) result }
        ensures stop { AnswersStop (reading_from self.old (S.told source.old))
            (reading_from self.new (S.told source.new)) result }
        ensures counts { CountsBytes (reading_from self.old (S.told source.old))
            (reading_from self.new (S.told source.new)) result }
        ensures stays { Stays self.old self.new result }
        // Once the end was met, or an answer stays, the source is not touched.
        ensures untouched { IsTrue self.old.ended ⊎ IsSome self.old.finished
            → source.new ≡ source.old }
    {
        match self.finished {
            Some(finish) => return finish.answer(),
            None => {}
        }
        if self.ended {
            self.finished = Some(Finish::End);
            return Next::End;
        }
        let mut line = Gathered::new(self.alloc);
        match gather(&mut self.chunk, &mut self.taken, source, &mut line) {
            Gathering::Whole => line.answer(),
            Gathering::Last => {
                self.ended = true;
                line.answer()
            }
            Gathering::Stop(finish) => {
                self.ended = finish.is_end();
                self.finished = Some(finish);
                finish.answer()
            }
        }
    }
}
