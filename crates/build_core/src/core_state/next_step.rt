//! A schedule: one loader's way through all documents, from any state.
ghost use Rattle.std.specs.Prelude.{◌≡◌, ◌*◌, ◌<◌, ◌≤◌, ◌↔◌, List, length, None, Some, IfSome, position, find};
ghost use Rattle.vg_base.specs.declared.numbers.DocIx.{DocIx};
ghost use Rattle.build_core.specs.Rows.{ByRows, row};
ghost use Rattle.build_core.specs.Core.{DoneIsClosure, Enabled, Finished, IsStanding, KeepsSound, RunsTo, Sound};
ghost use Rattle.build_core.specs.Next.{holder, is_held, is_unseen_in, is_wanted, next_of, step_of};

use super::CoreState;
use crate::event::{DocState, Event};
use crate::imports::Imports;
use vg_base::{DocIx, LoaderNo};

impl CoreState {
    /// The next event of the schedule: for the least held document the Want of its first unseen import, else its
    /// Finish; where none is held, loader 1's Claim of the least wanted one.
    pub fn next_step(&self, imports: &Imports) -> Option<Event>
        requires { length self.now.docs ≡ length imports.now }
        ensures value { result ≡ next_of imports.now self.now.docs }
        ensures finished { (result ≡ None) ↔ Finished self.now.docs }
        ensures enabled { 1 ≤ self.now.loaders
            → IfSome result (Enabled (ByRows imports.now) self.now) }
    {
        let _documents = imports.len();
        match self.first_held() {
            Some(doc) => Some(self.step_of(imports, DocIx(doc as u32))),
            None => match self.first_wanted() {
                Some(doc) => Some(Event::Claim {
                    loader: LoaderNo(1),
                    doc: DocIx(doc as u32),
                }),
                None => None,
            },
        }
    }

    /// One loader's way to the end: applies what `next_step` gives until nothing is left, and says how many events
    /// that took. Takes no memory.
    pub fn run_to_end(&mut self, imports: &Imports) -> u32
        requires sized { length self.old.docs ≡ length imports.now }
        requires loaders { 1 ≤ self.old.loaders }
        ensures ran { RunsTo (ByRows imports.now) self.old result self.new }
        ensures finished { Finished self.new.docs }
        ensures few { result ≤ 3 * length imports.now }
        ensures sized { length self.new.docs ≡ length self.old.docs }
        ensures sound { KeepsSound (ByRows imports.now) self.old.docs self.new.docs }
        ensures closure { (entries : List DocIx) → Sound (ByRows imports.now) entries self.old.docs
            → DoneIsClosure (ByRows imports.now) entries self.new.docs }
    {
        self.step_to_end(imports)
    }

    fn step_to_end(&mut self, imports: &Imports) -> u32
        requires sized { length self.old.docs ≡ length imports.now }
        requires loaders { 1 ≤ self.old.loaders }
        ensures ran { RunsTo (ByRows imports.now) self.old result self.new }
        ensures finished { Finished self.new.docs }
    {
        let _documents = imports.len();
        let mut count: u32 = 0;
        while let Some(event) = self.next_step(imports) {
            self.apply(imports, event);
            count += 1;
        }
        count
    }

    fn first_held(&self) -> Option<usize>
        ensures value { result ≡ position is_held self.now.docs }
        ensures standing { IsStanding self.now.loaders self.now.docs }
    {
        self.docs.iter().position(|s| is_held(s))
    }

    fn first_wanted(&self) -> Option<usize>
        ensures { result ≡ position is_wanted self.now.docs }
    {
        self.docs.iter().position(|s| is_wanted(s))
    }

    /// The step of the loader that holds the document.
    fn step_of(&self, imports: &Imports, doc: DocIx) -> Event
        requires sized { length self.now.docs ≡ length imports.now }
        requires there { doc.0 < length imports.now }
        ensures { result ≡ step_of imports.now self.now.docs doc.0 }
    {
        let loader = holder(self.state(doc));
        match self.first_unseen(imports.row(doc)) {
            Some(import) => Event::Want {
                loader,
                doc: import,
            },
            None => Event::Finish { loader, doc },
        }
    }

    fn first_unseen(&self, row: &[DocIx]) -> Option<DocIx>
        ensures { result ≡ find (is_unseen_in self.now.docs) row.now }
    {
        for doc in row {
            if self.is_unseen(*doc) {
                return Some(*doc);
            }
        }
        None
    }
}

fn is_held(state: &DocState) -> bool
    ensures { result ≡ is_held state.now }
{
    match state {
        DocState::Held(_) => true,
        _ => false,
    }
}

fn is_wanted(state: &DocState) -> bool
    ensures { result ≡ is_wanted state.now }
{
    match state {
        DocState::Wanted => true,
        _ => false,
    }
}

/// The loader of a held or finished document, or the number 0.
fn holder(state: DocState) -> LoaderNo
    ensures { result ≡ holder state }
{
    match state {
        DocState::Held(loader) | DocState::Done(loader) => loader,
        _ => LoaderNo(0),
    }
}
