//! The adapters over readers and writers, and a folder of the system.
use super::lines::answers;
use super::stores::shown;
use crate::{DirStore, ReadSource, Sink, Store, WriteSink, write_all};
use std::cell::Cell;
use std::io::{self, ErrorKind, Read, Write};
use std::test::Fail;
use std::{env, fs, process};
use vg_base::Text;

/// A writer that takes three bytes at a time, and shows what was flushed.
#[derive(Drop)]
struct Holding<'a> {
    held: usize,
    shown: &'a Cell<usize>,
}

impl Write for Holding<'_> {
    fn write(&mut self, buf: &[u8]) -> io::Result<usize> {
        let count = buf.len().min(3);
        self.held = self.held.saturating_add(count);
        Ok(count)
    }

    fn flush(&mut self) -> io::Result<()> {
        self.shown.set(self.held);
        Ok(())
    }
}

#[test]
fn adapters_pass_bytes_and_flushes_on(rt: HostRuntime) -> Result<(), Fail> {
    let alloc = rt.alloc();
    let mut source = ReadSource::open(b"a\nbc".as_slice());
    assert_eq!(rt; answers(alloc, &mut source)?.as_str(), "[a][bc]EndEnd");
    assert_eq!(rt; source.faults(), 0);
    let shown = Cell::new(0);
    let mut sink = WriteSink::open(Holding {
        held: 0,
        shown: &shown,
    });
    assert!(rt; write_all(&mut sink, b"seven b".as_slice()).is_ok());
    assert_eq!(rt; shown.get(), 0);
    assert!(rt; sink.flush().is_ok());
    assert_eq!(rt; shown.get(), 7);
    assert_eq!(rt; sink.faults(), 0);
    Ok(())
}

/// Fails at each read and at each flush, and takes no byte at a write.
#[derive(Drop)]
struct Broken;

impl Read for Broken {
    fn read(&mut self, _buf: &mut [u8]) -> io::Result<usize> {
        Err(io::Error::from(ErrorKind::BrokenPipe))
    }
}

impl Write for Broken {
    fn write(&mut self, _buf: &[u8]) -> io::Result<usize> {
        Ok(0)
    }

    fn flush(&mut self) -> io::Result<()> {
        Err(io::Error::from(ErrorKind::BrokenPipe))
    }
}

#[test]
fn adapters_count_each_failure_once(rt: HostRuntime) -> Result<(), Fail> {
    let alloc = rt.alloc();
    let mut source = ReadSource::open(Broken);
    assert_eq!(rt; answers(alloc, &mut source)?.as_str(), "ReadFaultReadFault");
    assert_eq!(rt; source.faults(), 1);
    let mut sink = WriteSink::open(Broken);
    assert!(rt; write_all(&mut sink, b"".as_slice()).is_ok());
    assert_eq!(rt; sink.faults(), 0);
    assert!(rt; write_all(&mut sink, b"seven b".as_slice()).is_err());
    assert_eq!(rt; sink.faults(), 1);
    assert!(rt; sink.flush().is_err());
    assert_eq!(rt; sink.faults(), 2);
    Ok(())
}

#[test]
fn a_folder_of_the_system_is_listed_and_loaded(rt: HostRuntime) -> Result<(), Fail> {
    let alloc = rt.alloc();
    let name = format!(in alloc; "vg_io_{}", process::id(rt.process()))?;
    let folder = env::temp_dir(&rt)?.join(alloc, name.as_str())?;
    fs::create_dir(&rt, folder.as_path())?;
    for (name, bytes) in [("b.gram", "2"), ("a.gram", "1"), ("c.txt", "3")] {
        fs::write(&rt, folder.join(alloc, name)?.as_path(), bytes)?;
    }
    let mut store = DirStore::of(&rt);
    assert!(rt; store.list(alloc).is_err(), "no folder was named");
    assert_eq!(rt; store.faults(), 1);
    let text = Text::of(alloc, folder.as_str())?;
    let said = shown(alloc, &mut store, &text)?;
    fs::remove_dir_all(&rt, folder.as_path())?;
    assert_eq!(rt; said.as_str(), "a.gram=1;b.gram=2;");
    assert_eq!(rt; store.faults(), 1);
    assert_eq!(rt; shown(alloc, &mut store, &text)?.as_str(), "no list");
    assert_eq!(rt; store.faults(), 2);
    Ok(())
}
