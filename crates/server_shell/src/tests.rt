//! The server over memory: whole dialogues, sources and sinks that fail, and what was shown.
mod notes;
mod watched;

use crate::{Status, serve};
use std::alloc::{AllocError, Global};
use std::sync::Wait;
use std::test::Fail;
use std::thread::Threads;
use vg_base::Memory;
use vg_io::{MemSink, MemSource, Open};

const PUT: &[u8] =
    b"{\"do\":\"put\",\"uri\":\"http://e/a\",\"text\":\"#ABNF 1.0;root $r;$r = yes | no;\"}\n";

const PUBLISH: &[u8] = b"{\"do\":\"publish\",\"entries\":[\"http://e/a\"]}\n";

const RUN: &[u8] = b"{\"do\":\"run\"}\n";

const TRY: &[u8] = b"{\"do\":\"try\",\"uri\":\"http://e/a\",\"tokens\":[\"yes\"]}\n";

const STAGED: &[u8] = b"{\"line\":1,\"reply\":\"staged\"}\n";

const PUBLISHED: &[u8] = b"{\"documents\":1,\"line\":2,\"reply\":\"published\",\"version\":1}\n";

const RAN: &[u8] = b"{\"line\":3,\"reply\":\"ran\"}\n";

const MATCH: &[u8] =
    b"{\"line\":4,\"reply\":\"match\",\"result\":\"yes\",\"rule\":\"r\",\"uri\":\"http://e/a\",\"version\":1}\n";

fn joined(alloc: Global, parts: &[&[u8]]) -> Result<Vec<u8>, AllocError> {
    let mut all = Vec::new(alloc);
    for part in parts {
        all.extend_from_slice(part)?;
    }
    Ok(all)
}

/// What a run of `serve` over memory came to.
#[derive(Drop)]
struct Outcome {
    status: Status,
    written: Vec<u8>,
    shown: bool,
}

/// Runs `serve` with so many words; the first read gives at most `piece` bytes, as each later one
/// does.
fn run<R: Threads + Wait + Sync>(
    rt: &R,
    alloc: Global,
    words: usize,
    input: &[u8],
    piece: u32,
    failing: u64,
    room: u64,
) -> Result<Outcome, Memory> {
    let mut command = Vec::new(alloc);
    for _ in 0..words {
        command.push(String::from_str(alloc, "vgram")?)?;
    }
    let pieces = vec![in alloc; piece.max(1)]?;
    let mut source = MemSource::open(
        Vec::from_slice(alloc, input)?,
        pieces,
        vec![in alloc; failing]?,
    );
    let mut sink = MemSink::open(alloc, room, Vec::new(alloc), Vec::new(alloc))?;
    let status = serve(rt, alloc, &command, &mut source, &mut sink, &Open);
    Ok(Outcome {
        status,
        written: Vec::from_slice(alloc, sink.bytes())?,
        shown: sink.shown().len() == sink.bytes().len(),
    })
}

/// A failing read that no run comes to.
const NEVER: u64 = 1_000_000;

fn appended(alloc: Global, front: &[u8], back: &[u8]) -> Result<Vec<u8>, AllocError> {
    let mut all = Vec::from_slice(alloc, front)?;
    all.extend_from_slice(back)?;
    Ok(all)
}

/// Whether the dialogue that ends with this fourth line has this reply to it, whether its bytes
/// come one by one or at once.
fn is_answered<R: Threads + Wait + Sync>(
    rt: &R,
    alloc: Global,
    line: &[u8],
    reply: &[u8],
) -> Result<bool, Memory> {
    let head = joined(alloc, &[PUT, PUBLISH, RUN])?;
    let replies = joined(alloc, &[STAGED, PUBLISHED, RAN])?;
    let input = appended(alloc, &head, line)?;
    let output = appended(alloc, &replies, reply)?;
    let one_by_one = run(rt, alloc, 1, &input, 1, NEVER, 1000)?;
    let at_once = run(rt, alloc, 1, &input, 1000, NEVER, 1000)?;
    let ended = one_by_one.status == Status::Done && at_once.status == Status::Done;
    let same = one_by_one.written.as_slice() == at_once.written.as_slice();
    Ok(ended && same && at_once.written.as_slice() == output.as_slice())
}

#[test]
fn answers_dialogues(rt: HostRuntime) -> Result<(), Fail> {
    let alloc = rt.alloc();
    assert!(rt; is_answered(&rt, alloc, TRY, MATCH)?);
    let maybe = b"{\"do\":\"try\",\"uri\":\"http://e/a\",\"tokens\":[\"maybe\"]}";
    let none = b"{\"line\":4,\"reply\":\"nomatch\",\"version\":1}\n";
    assert!(rt; is_answered(&rt, alloc, maybe, none)?);
    let two = b"{\"do\":\"try\",\"uri\":\"http://e/a\",\"tokens\":[\"yes no\"]}\n";
    assert!(rt; is_answered(&rt, alloc, two, none)?);
    let other = b"{\"do\":\"try\",\"uri\":\"http://e/b\",\"tokens\":[\"yes\"]}\n";
    let unknown = b"{\"line\":4,\"refusal\":\"NoDocument\",\"reply\":\"refused\",\"version\":1}\n";
    assert!(rt; is_answered(&rt, alloc, other, unknown)?);
    let open = b"{\"do\":\"open\",\"session\":\"s\"}\n";
    let later = b"{\"line\":4,\"refusal\":\"NotBuilt\",\"reply\":\"refused\"}\n";
    assert!(rt; is_answered(&rt, alloc, open, later)?);
    assert!(rt; is_answered(&rt, alloc, b" \t\r\n", b"")?);
    Ok(())
}

#[test]
fn answers_without_a_document(rt: HostRuntime) -> Result<(), Fail> {
    let alloc = rt.alloc();
    let got = run(&rt, alloc, 1, TRY, 1000, NEVER, 1000)?;
    assert_eq!(rt; got.status, Status::Done);
    assert!(rt;
        got.written.as_slice()
            == b"{\"line\":1,\"refusal\":\"NoDocument\",\"reply\":\"refused\",\"version\":0}\n".as_slice()
    );
    let empty = run(&rt, alloc, 1, b"", 1000, NEVER, 1000)?;
    assert_eq!(rt; empty.status, Status::Done);
    assert_eq!(rt; empty.written.len(), 0);
    let words = run(&rt, alloc, 2, TRY, 1000, NEVER, 1000)?;
    assert_eq!(rt; words.status, Status::Usage);
    assert_eq!(rt; words.written.len(), 0);
    Ok(())
}

#[test]
fn tells_faults_of_source_and_sink(rt: HostRuntime) -> Result<(), Fail> {
    let alloc = rt.alloc();
    let head = joined(alloc, &[PUT, PUBLISH, RUN])?;
    let input = joined(alloc, &[&head, TRY])?;
    let replies = joined(alloc, &[STAGED, PUBLISHED, RAN])?;
    let source = run(&rt, alloc, 1, &input, 1, head.len() as u64, 1000)?;
    assert_eq!(rt; source.status, Status::ReadFault);
    assert!(rt; source.written.as_slice() == replies.as_slice());
    assert!(rt; source.shown);
    let sink = run(&rt, alloc, 1, &input, 1000, NEVER, 10)?;
    assert_eq!(rt; sink.status, Status::WriteFault);
    assert!(rt; sink.written.as_slice() == b"{\"line\":1,".as_slice());
    Ok(())
}
