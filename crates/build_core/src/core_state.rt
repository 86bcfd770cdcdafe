//! The states of all documents, and the events that move them.
ghost use Rattle.std.specs.Prelude.{◌≡◌, ◌≢◌, ℕ, ◌+◌, ◌*◌, ◌<◌, ◌≤◌, ◌↔◌, List, length, take, slice_index_or, nat_eq, All, IfOk, IsTrue};
ghost use Rattle.std.specs.Bool.{OnFalse, OnTrue};
ghost use Rattle.std.specs.List.{Contains, IsDistinct};
ghost use Rattle.vg_base.specs.declared.numbers.DocIx.{DocIx};
ghost use Rattle.vg_base.specs.declared.numbers.LoaderNo.{LoaderNo};
ghost use Rattle.build_core.specs.declared.event.DocState.TheVariants.{Unseen, Held};
ghost use Rattle.build_core.specs.declared.event.Event.{Event};
ghost use Rattle.build_core.specs.Rows.{ByRows};
ghost use Rattle.build_core.specs.Next.{is_unseen_in};
ghost use Rattle.build_core.specs.Core.{at, after, after_all, claims, AllowedByImports, AllowedByState, DoneIsClosure, Enabled, Finished, HoldsImporter, HoldsNone, IsByLoader, IsLoader, IsRun, IsStanding, KeepsSound, Opening, Sound};

use crate::event::{DocState, Event};
use crate::imports::Imports;
use std::alloc::Global;
use std::marker::Model;
use vg_base::{DocIx, LoaderNo, Memory};

mod next_step;

/// The state of each document. Contracts see the list of states and the number of loaders.
#[derive(Drop)]
pub struct CoreState {
    docs: Vec<DocState>,
    loaders: u32,
}

impl Model for CoreState {
    ghost use Rattle.build_core.specs.Core.{Core, IsStanding};

    ghost Value = { Core };

    ghost view = { λ s. record { docs = s.docs.items; loaders = s.loaders } };

    ghost invariant = { λ s. IsStanding s.loaders s.docs.items };
}

impl CoreState {
    /// The opening state: entries are wanted, all else is unseen. Loaders are numbered from 1.
    pub fn open(
        alloc: Global,
        imports: &Imports,
        entries: &[DocIx],
        loaders: u32,
    ) -> Result<CoreState, Memory>
        requires { All (λ d. d.0 < length imports.now) entries.now }
        ensures opening { IfOk result (λ s. Opening (length imports.now) entries.now s.docs) }
        ensures loaders { IfOk result (λ s. s.loaders ≡ loaders) }
        ensures sound { IfOk result (λ s. Sound (ByRows imports.now) entries.now s.docs) }
    {
        let docs = opening(alloc, imports.len(), entries)?;
        Ok(CoreState { docs, loaders })
    }

    /// A state made from those of its documents, as whoever kept them elsewhere hands them over. Takes no memory.
    pub fn of(docs: Vec<DocState>, loaders: u32) -> CoreState
        requires { IsStanding loaders docs.items }
        ensures docs { result.docs ≡ docs.items }
        ensures loaders { result.loaders ≡ loaders }
    {
        CoreState { docs, loaders }
    }

    /// Whether these are at most 64 documents, each that is held or done so by a loader that is there.
    pub fn is_standing(docs: &[DocState], loaders: u32) -> bool
        ensures { IsTrue result ↔ IsStanding loaders docs.now }
    {
        docs.len() <= 64 && all_by_loaders(docs, loaders)
    }

    /// The state of a document.
    pub fn state(&self, doc: DocIx) -> DocState
        requires { doc.0 < length self.now.docs }
        ensures { result ≡ at self.now.docs doc.0 }
    {
        self.docs[doc.0 as usize]
    }

    /// How many documents there are.
    pub fn len(&self) -> usize
        ensures { result ≡ length self.now.docs }
    {
        self.docs.len()
    }

    /// How many loaders there are.
    pub fn loaders(&self) -> u32
        ensures { result ≡ self.now.loaders }
    {
        self.loaders
    }

    /// Whether the event may come now. It may not where its loader or its document isn't there.
    pub fn enabled(&self, imports: &Imports, event: &Event) -> bool
        requires { length self.now.docs ≡ length imports.now }
        ensures { IsTrue result ↔ Enabled (ByRows imports.now) self.now event.now }
    {
        self.allows(event) && self.imports_allow(imports, event)
    }

    /// Whether the state itself allows the event, whatever the imports are: half of what `enabled` asks.
    pub fn allows(&self, event: &Event) -> bool
        ensures { IsTrue result ↔ AllowedByState self.now event.now }
    {
        match event {
            Event::Want { loader, doc } => self.is_loader(*loader)
                && self.is_at(*doc, DocState::Unseen),
            Event::Claim { loader, doc } => self.is_loader(*loader)
                && self.is_at(*doc, DocState::Wanted)
                && self.holds_none(*loader),
            Event::Finish { loader, doc } => self.is_loader(*loader)
                && self.is_at(*doc, DocState::Held(*loader)),
        }
    }

    /// The other half, of an event that the state allows.
    fn imports_allow(&self, imports: &Imports, event: &Event) -> bool
        requires sized { length self.now.docs ≡ length imports.now }
        requires allowed { AllowedByState self.now event.now }
        ensures { IsTrue result ↔ AllowedByImports (ByRows imports.now) self.now event.now }
    {
        match event {
            Event::Want { loader, doc } => self.holds_importer(imports, *loader, *doc),
            Event::Claim { .. } => true,
            Event::Finish { loader: _, doc } => self.imports_seen(imports, *doc),
        }
    }

    /// Moves the state by the event.
    pub fn apply(&mut self, imports: &Imports, event: Event)
        requires { Enabled (ByRows imports.now) self.old event }
        ensures moved { self.new ≡ after self.old event }
        ensures sized { length self.new.docs ≡ length self.old.docs }
        ensures sound { KeepsSound (ByRows imports.now) self.old.docs self.new.docs }
    {
        self.move_by(event);
    }

    /// Moves the state by the event where the state itself allows it, and says whether it did. What `apply` does,
    /// for who has no imports at hand: that they allow the event has to be known by other means.
    pub fn advance(&mut self, event: Event) -> bool
        ensures answer { IsTrue result ↔ AllowedByState self.old event }
        ensures moved { OnTrue result (self.new ≡ after self.old event) }
        ensures refused { OnFalse result (self.new ≡ self.old) }
        ensures sized { length self.new.docs ≡ length self.old.docs }
        ensures sound { (rows : List (List DocIx)) → Enabled (ByRows rows) self.old event
            → KeepsSound (ByRows rows) self.old.docs self.new.docs }
    {
        let allowed = self.allows(&event);
        if allowed {
            self.move_by(event);
        }
        allowed
    }

    fn move_by(&mut self, event: Event)
        requires { AllowedByState self.old event }
        ensures { self.new ≡ after self.old event }
    {
        match event {
            Event::Want { loader: _, doc } => self.docs[doc.0 as usize] = DocState::Wanted,
            Event::Claim { loader, doc } => self.docs[doc.0 as usize] = DocState::Held(loader),
            Event::Finish { loader, doc } => self.docs[doc.0 as usize] = DocState::Done(loader),
        }
    }

    /// Applies events from the front until one isn't enabled, and says how many.
    pub fn run(&mut self, imports: &Imports, events: &[Event]) -> u32
        requires { length self.old.docs ≡ length imports.now }
        ensures ran { IsRun (ByRows imports.now) self.old (take result events.now) }
        ensures moved { self.new ≡ after_all self.old (take result events.now) }
        ensures within { result ≤ length events.now }
        ensures stops { (d : Event) → result < length events.now
            → ¬ Enabled (ByRows imports.now) self.new (slice_index_or events.now result d) }
        ensures few { result ≤ 3 * length imports.now }
        ensures claimed_once { (entries : List DocIx)
            → Opening (length imports.now) entries self.old.docs
            → IsDistinct nat_eq (claims (take result events.now)) }
        ensures sound { (entries : List DocIx)
            → Opening (length imports.now) entries self.old.docs
            → Sound (ByRows imports.now) entries self.new.docs }
        ensures closure { (entries : List DocIx)
            → Opening (length imports.now) entries self.old.docs
            → Finished self.new.docs → DoneIsClosure (ByRows imports.now) entries self.new.docs }
    {
        self.apply_all(imports, events)
    }

    fn apply_all(&mut self, imports: &Imports, events: &[Event]) -> u32
        requires { length self.old.docs ≡ length imports.now }
        ensures ran { IsRun (ByRows imports.now) self.old (take result events.now) }
        ensures moved { self.new ≡ after_all self.old (take result events.now) }
        ensures within { result ≤ length events.now }
        ensures stops { (d : Event) → result < length events.now
            → ¬ Enabled (ByRows imports.now) self.new (slice_index_or events.now result d) }
        ensures few { result ≤ 3 * length imports.now }
    {
        let _documents = imports.len();
        let mut count: u32 = 0;
        for event in events {
            if !self.enabled(imports, event) {
                return count;
            }
            self.apply(imports, *event);
            count += 1;
        }
        count
    }

    fn is_loader(&self, loader: LoaderNo) -> bool
        ensures { IsTrue result ↔ IsLoader self.now.loaders loader }
    {
        1 <= loader.0 && loader.0 <= self.loaders
    }

    fn is_at(&self, doc: DocIx, state: DocState) -> bool
        ensures { IsTrue result
            ↔ ((doc.0 < length self.now.docs) × (at self.now.docs doc.0 ≡ state)) }
    {
        let at = doc.0 as usize;
        at < self.docs.len() && self.docs[at] == state
    }

    fn holds_none(&self, loader: LoaderNo) -> bool
        ensures { IsTrue result ↔ HoldsNone self.now.docs loader }
    {
        for state in self.docs.as_slice() {
            if *state == DocState::Held(loader) {
                return false;
            }
        }
        true
    }

    fn holds_importer(&self, imports: &Imports, loader: LoaderNo, doc: DocIx) -> bool
        requires { length self.now.docs ≡ length imports.now }
        ensures { IsTrue result ↔ HoldsImporter (ByRows imports.now) self.now.docs loader doc.0 }
    {
        for (i, state) in self.docs.iter().enumerate() {
            if *state == DocState::Held(loader) && is_among(imports.row(DocIx(i as u32)), doc) {
                return true;
            }
        }
        false
    }

    fn is_unseen(&self, doc: DocIx) -> bool
        ensures { result ≡ is_unseen_in self.now.docs doc }
    {
        match self.docs.get(doc.0 as usize) {
            Some(DocState::Unseen) => true,
            Some(_) => false,
            None => true,
        }
    }

    fn imports_seen(&self, imports: &Imports, doc: DocIx) -> bool
        requires sized { length self.now.docs ≡ length imports.now }
        requires there { doc.0 < length imports.now }
        ensures { IsTrue result
            ↔ ((y : ℕ) → ByRows imports.now doc.0 y → at self.now.docs y ≢ Unseen) }
    {
        let imported = imports.row(doc);
        for import in imported {
            if self.is_unseen(*import) {
                return false;
            }
        }
        true
    }
}

/// Whether each that is held or done is so by a loader that is there.
fn all_by_loaders(docs: &[DocState], loaders: u32) -> bool
    ensures { IsTrue result ↔ ((d : ℕ) → IsByLoader loaders (at docs.now d)) }
{
    for state in docs {
        if !is_by_loader(*state, loaders) {
            return false;
        }
    }
    true
}

fn is_by_loader(state: DocState, loaders: u32) -> bool
    ensures { IsTrue result ↔ IsByLoader loaders state }
{
    match state {
        DocState::Unseen | DocState::Wanted => true,
        DocState::Held(loader) | DocState::Done(loader) => 1 <= loader.0 && loader.0 <= loaders,
    }
}

/// Whether a document is among these.
fn is_among(docs: &[DocIx], doc: DocIx) -> bool
    ensures { IsTrue result ↔ Contains docs.now doc }
{
    docs.contains(&doc)
}

/// The opening states.
fn opening(alloc: Global, size: usize, entries: &[DocIx]) -> Result<Vec<DocState>, Memory>
    requires { All (λ d. d.0 < size) entries.now }
    ensures { IfOk result (λ docs. Opening size entries.now docs.items) }
{
    let mut docs = Vec::from_elem(alloc, DocState::Unseen, size)?;
    for entry in entries {
        docs[entry.0 as usize] = DocState::Wanted;
    }
    Ok(docs)
}
