//! The folders of the system: the trusted edge.
ghost use Rattle.std.specs.Prelude.{◌≡◌, None, true};
ghost use Rattle.vg_io.specs.Faults.{faults_after};
ghost use Rattle.vg_io.specs.Stores.{is_fault};

use crate::source::Failed;
use crate::store::{Store, StoreFailed, names_in};
use std::alloc::Global;
use std::fs;
use std::io::{self, ErrorKind};
use std::marker::Model;
use std::path::Path;
use std::rt::Files;
use vg_base::{Refused, Text, TextMap};

/// The files of a folder whose names end in `.gram`. It tells none of them, and the folder may be
/// changed by others. A name that is not UTF-8 is a fault, and so is a call before `open`.
/// Contracts see its count of faults alone.
#[derive(Drop)]
pub struct DirStore<'a, R> {
    rt: &'a R,
    folder: Option<Text>,
    faults: u64,
}

impl<'a, R> Model for DirStore<'a, R> {
    ghost use Rattle.std.specs.Prelude.{ℕ};

    ghost Value = { ℕ };

    ghost view = { λ s. s.faults };
}

impl<'a, R> DirStore<'a, R> {
    /// A store that has no folder yet.
    pub fn of(rt: &'a R) -> DirStore<'a, R>
        ensures { result ≡ 0 }
    {
        DirStore {
            rt,
            folder: None,
            faults: 0,
        }
    }

    /// How many calls have met a fault.
    pub fn faults(&self) -> u64
        ensures { result ≡ self.now }
    {
        self.faults
    }

    /// Counts a fault, and nothing else.
    fn meets(&mut self, failed: StoreFailed) -> StoreFailed
        ensures same { result ≡ failed }
        ensures counts { self.new ≡ faults_after (is_fault failed) self.old }
    {
        if matches!(failed, Refused::Fault(_)) {
            self.faults = self.faults.saturating_add(1);
        }
        failed
    }
}

impl<'a, R: Files + AllocGlobal + Clone + Drop> Store for DirStore<'a, R> {
    ghost told = { λ s. record { files = None; is_listed = λ _. true; faults = s } };

    fn open(&mut self, alloc: Global, folder: &Text) -> Result<(), StoreFailed> {
        self.folder = Some(Text::of(alloc, folder.as_str())?);
        Ok(())
    }

    fn list(&mut self, alloc: Global) -> Result<Vec<Text>, StoreFailed> {
        let found = match &self.folder {
            Some(folder) => grammars_in(self.rt, alloc, folder),
            None => Err(Refused::Fault(Failed)),
        };
        match found {
            Ok(found) => Ok(names_in(alloc, &found)?),
            Err(failed) => Err(self.meets(failed)),
        }
    }

    fn load(&mut self, alloc: Global, name: &Text) -> Result<Vec<u8>, StoreFailed> {
        let found = match &self.folder {
            Some(folder) => bytes_in(self.rt, alloc, folder, name),
            None => Err(Refused::Fault(Failed)),
        };
        match found {
            Ok(bytes) => Ok(bytes),
            Err(failed) => Err(self.meets(failed)),
        }
    }
}

/// The names in a folder that end in `.gram`, as the keys of a map.
fn grammars_in<R: Files + AllocGlobal + Clone + Drop>(
    rt: &R,
    alloc: Global,
    folder: &Text,
) -> Result<TextMap<bool>, StoreFailed> {
    let mut found = TextMap::new(alloc);
    for entry in fs::read_dir(rt, folder.as_str()).map_err(failure)? {
        let entry = entry.map_err(failure)?;
        let name = entry.file_name();
        if name.ends_with(".gram") {
            found.set(Text::of(alloc, name)?, true)?;
        }
    }
    Ok(found)
}

/// The bytes of a file in a folder.
fn bytes_in<R: Files + AllocGlobal + Clone + Drop>(
    rt: &R,
    alloc: Global,
    folder: &Text,
    name: &Text,
) -> Result<Vec<u8>, StoreFailed> {
    let path = match Path::new(folder.as_str()).join(alloc, name.as_str()) {
        Ok(path) => path,
        Err(_) => return Err(Refused::Memory),
    };
    fs::read(rt, path.as_path()).map_err(failure)
}

/// What a failure of the system is to a store.
fn failure(e: io::Error) -> StoreFailed {
    match e.kind() {
        ErrorKind::OutOfMemory => Refused::Memory,
        _ => Refused::Fault(Failed),
    }
}
