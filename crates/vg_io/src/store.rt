//! Folders of files.
ghost use Rattle.std.specs.Prelude.{◌≡◌, IfOk, IsTrue};
ghost use Rattle.std.specs.Map.{keys_of};
ghost use Rattle.vg_io.specs.Stores.{ToldStore, KeepsFiles, ListsNames, AreListed, HasBytes, IsInByteOrder};

use crate::source::Failed;
use std::alloc::Global;
use vg_base::{Memory, Refused, Text, TextMap};

/// Why a call of a store gives nothing: the folder or a file could not be had, or memory was short.
pub type StoreFailed = Refused<Failed>;

/// A folder of files, which no call changes.
pub trait Store {
    /// What the store tells: its files, the names that were listed, and its count of faults.
    ghost told: { Self → ToldStore };

    /// Names the folder.
    fn open(&mut self, alloc: Global, folder: &Text) -> Result<(), StoreFailed>
        ensures { KeepsFiles (told self.old) (told self.new) result };

    /// The names of the files.
    fn list(&mut self, alloc: Global) -> Result<Vec<Text>, StoreFailed>
        ensures names { IfOk result (λ names. ListsNames (told self.old).files names.items) }
        ensures order { IfOk result (λ names. IsInByteOrder names.items) }
        ensures listed { IfOk result (λ names. AreListed (told self.new) names.items) }
        ensures keeps { KeepsFiles (told self.old) (told self.new) result };

    /// The bytes of a file.
    fn load(&mut self, alloc: Global, name: &Text) -> Result<Vec<u8>, StoreFailed>
        requires { IsTrue ((told self.old).is_listed name.now) }
        ensures bytes { IfOk result (λ bytes. HasBytes (told self.old).files name.now bytes.items) }
        ensures keeps { KeepsFiles (told self.old) (told self.new) result };
}

/// The keys of a map, in their order.
pub fn names_in<V>(alloc: Global, map: &TextMap<V>) -> Result<Vec<Text>, Memory>
    ensures keys { IfOk result (λ names. names.items ≡ keys_of map.now) }
    ensures order { IfOk result (λ names. IsInByteOrder names.items) }
{
    let mut names = Vec::new(alloc);
    for (name, _) in map.iter() {
        names.push(name.copy()?)?;
    }
    Ok(names)
}
