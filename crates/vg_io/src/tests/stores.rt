//! A store in memory whose calls fail where they are told to.
ghost use Rattle.vg_io.specs.Stores.{AreListed};

use crate::{MemStore, Store};
use sqlite_items::Items;
use std::alloc::Global;
use std::test::Fail;
use vg_base::{Memory, Text, TextMap};

/// Writes down what a store answers: its names, each with its bytes, up to the first failure.
pub fn shown<T: Store>(alloc: Global, store: &mut T, folder: &Text) -> Result<String, Memory> {
    let mut said = String::new(alloc);
    if store.open(alloc, folder).is_err() {
        said.push_str("no folder")?;
        return Ok(said);
    }
    match store.list(alloc) {
        Ok(names) => say_files(alloc, store, &names, &mut said)?,
        Err(_) => said.push_str("no list")?,
    }
    Ok(said)
}

fn say_files<T: Store>(
    alloc: Global,
    store: &mut T,
    names: &Vec<Text>,
    said: &mut String,
) -> Result<(), Memory>
    requires { AreListed (T.told store.old) names.now.items }
{
    for name in names {
        said.push_str(name.as_str())?;
        match store.load(alloc, name) {
            Ok(bytes) => {
                said.push('=')?;
                for b in &bytes {
                    said.push(char::from(*b))?;
                }
                said.push(';')?;
            }
            Err(_) => {
                said.push('!')?;
                return Ok(());
            }
        }
    }
    Ok(())
}

#[test]
fn a_store_in_memory_fails_at_the_named_calls(rt: HostRuntime) -> Result<(), Fail> {
    let alloc = rt.alloc();
    let rows = [
        (0, "no folder", 1),
        (1, "no list", 1),
        (2, "B.gram!", 1),
        (3, "B.gram=x;a.gram!", 1),
        (4, "B.gram=x;a.gram=yz;\u{e9}.gram!", 1),
        (5, "B.gram=x;a.gram=yz;\u{e9}.gram=;", 0),
    ];
    for (failing, wanted, faults) in rows {
        let mut files = TextMap::new(alloc);
        for (name, bytes) in [("a.gram", "yz"), ("\u{e9}.gram", ""), ("B.gram", "x")] {
            let bytes = Items::from_slice(alloc, bytes.as_bytes())?;
            files.set(Text::of(alloc, name)?, bytes)?;
        }
        let mut store = MemStore::of(files, vec![in alloc; failing]?);
        let said = shown(alloc, &mut store, &Text::of(alloc, "f")?)?;
        assert_eq!(rt; said.as_str(), wanted, "call {failing} fails");
        assert_eq!(rt; store.faults(), faults, "call {failing} fails");
    }
    Ok(())
}
