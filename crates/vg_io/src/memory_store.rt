//! A folder over memory whose faults are chosen.
ghost use Rattle.std.specs.Prelude.{◌≡◌, ◌↔◌, false, Some, Err, IsTrue, IsErr, IfOk, is_ok};
ghost use Rattle.vg_io.specs.Stores.{KeepsFiles, ListsNames, AreListed, HasBytes, IsInByteOrder, store_fault};
ghost use Rattle.vg_io.specs.Objects.{told_by_folder, meets_fault, after_call, after_list};

use crate::calls::is_failing;
use crate::source::Failed;
use crate::store::{Store, StoreFailed, names_in};
use sqlite_items::Items;
use std::alloc::Global;
use std::marker::Model;
use vg_base::{Memory, Refused, Text, TextMap};

/// Files in memory.
#[derive(Drop)]
pub struct MemStore {
    files: TextMap<Items<u8>>,
    listed: bool,
    failing: Vec<u64>,
    calls: u64,
    faults: u64,
}

impl Model for MemStore {
    ghost use Rattle.vg_io.specs.Objects.{Folder};

    ghost Value = { Folder };

    ghost view = { λ s. record {
      files = s.files;
      listed = s.listed;
      failing = s.failing.items;
      calls = s.calls;
      faults = s.faults;
    } };
}

impl MemStore {
    /// A store of these files, by name. Its calls are counted together from 0, and those in
    /// `failing` meet a fault.
    pub fn of(files: TextMap<Items<u8>>, failing: Vec<u64>) -> MemStore
        ensures { result ≡ record {
          files = files;
          listed = false;
          failing = failing.items;
          calls = 0;
          faults = 0;
        } }
    {
        MemStore {
            files,
            listed: false,
            failing,
            calls: 0,
            faults: 0,
        }
    }

    /// How many calls have met a fault.
    pub fn faults(&self) -> u64
        ensures { result ≡ self.now.faults }
    {
        self.faults
    }

    /// Counts a call, and says whether it meets a fault.
    fn meets_fault(&mut self) -> bool
        ensures answer { result ≡ meets_fault self.old }
        ensures after { self.new ≡ after_call self.old }
    {
        let call = self.calls;
        self.calls = self.calls.saturating_add(1);
        let fails = is_failing(&self.failing, call);
        if fails {
            self.faults = self.faults.saturating_add(1);
        }
        fails
    }
}

impl Store for MemStore {
    ghost told = { told_by_folder };

    fn open(&mut self, _alloc: Global, _folder: &Text) -> Result<(), StoreFailed>
        // What every store says.
        ensures keeps { KeepsFiles (told_by_folder self.old) (told_by_folder self.new) result }

        // What this one does at each call.
        ensures fails { IsErr result ↔ IsTrue (meets_fault self.old) }
        ensures fault { IsErr result → result ≡ Err store_fault }
        ensures after { self.new ≡ after_call self.old }
    {
        if self.meets_fault() {
            return Err(Refused::Fault(Failed));
        }
        Ok(())
    }

    fn list(&mut self, alloc: Global) -> Result<Vec<Text>, StoreFailed>
        // What every store says.
        ensures names { IfOk result (λ names. ListsNames (Some self.old.files) names.items) }
        ensures order { IfOk result (λ names. IsInByteOrder names.items) }
        ensures listed { IfOk result (λ names. AreListed (told_by_folder self.new) names.items) }
        ensures keeps { KeepsFiles (told_by_folder self.old) (told_by_folder self.new) result }

        // What this one does at each call.
        ensures fails { (result ≡ Err store_fault) ↔ IsTrue (meets_fault self.old) }
        ensures after { self.new ≡ after_list (is_ok result) self.old }
    {
        if self.meets_fault() {
            return Err(Refused::Fault(Failed));
        }
        let names = names_in(alloc, &self.files)?;
        self.listed = true;
        Ok(names)
    }

    fn load(&mut self, alloc: Global, name: &Text) -> Result<Vec<u8>, StoreFailed>
        requires { IsTrue ((told_by_folder self.old).is_listed name.now) }
        // What every store says.
        ensures bytes { IfOk result (λ bytes. HasBytes (Some self.old.files) name.now bytes.items) }
        ensures keeps { KeepsFiles (told_by_folder self.old) (told_by_folder self.new) result }

        // What this one does at each call.
        ensures fails { (result ≡ Err store_fault) ↔ IsTrue (meets_fault self.old) }
        ensures after { self.new ≡ after_call self.old }
    {
        if self.meets_fault() {
            return Err(Refused::Fault(Failed));
        }
        match self.files.get(name) {
            Some(bytes) => match Vec::from_slice(alloc, bytes.as_slice()) {
                Ok(copy) => Ok(copy),
                Err(_) => Err(Refused::Memory),
            },
            None => unreachable!(),
        }
    }
}
