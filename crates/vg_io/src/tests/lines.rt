//! Lines whatever the pieces that they come in, failing reads, and lines past the limit.
use crate::{LineReader, MemSource, Next, Source, SureSource};
use std::alloc::{AllocError, Global};
use std::test::Fail;

/// Writes an answer down, and says whether it is a line.
fn say(said: &mut String, next: &Next) -> Result<bool, AllocError> {
    match next {
        Next::Line(line) if line.len() > 100 => said.push_str("[..]")?,
        Next::Line(line) => {
            said.push('[')?;
            for b in line {
                said.push(char::from(*b))?;
            }
            said.push(']')?;
        }
        Next::Long => said.push_str("Long")?,
        Next::End => said.push_str("End")?,
        Next::ReadFault => said.push_str("ReadFault")?,
        Next::InputOver => said.push_str("InputOver")?,
        Next::Memory => said.push_str("Memory")?,
    }
    Ok(matches!(next, Next::Line(_) | Next::Long))
}

/// The answers of a reader up to the first that is no line, and the one after it.
pub fn answers<S: Source>(alloc: Global, source: &mut S) -> Result<String, Fail> {
    let mut reader = LineReader::open(alloc)?;
    let mut said = String::new(alloc);
    for _ in 0..20 {
        if !say(&mut said, &reader.next(source))? {
            say(&mut said, &reader.next(source))?;
            break;
        }
    }
    Ok(said)
}

#[test]
fn lines_come_whatever_the_pieces(rt: HostRuntime) -> Result<(), Fail> {
    let alloc = rt.alloc();
    let rows = [
        ("", "EndEnd"),
        ("\n", "[]EndEnd"),
        ("a", "[a]EndEnd"),
        ("a\n", "[a]EndEnd"),
        ("a\n\nb", "[a][][b]EndEnd"),
        ("\n\n", "[][]EndEnd"),
        ("ab\ncd\nef", "[ab][cd][ef]EndEnd"),
        ("a\r\n b \n", "[a\r][ b ]EndEnd"),
    ];
    for (input, wanted) in rows {
        for piece in [1u32, 2, 1000] {
            let bytes = Vec::from_slice(alloc, input.as_bytes())?;
            let pieces = vec![in alloc; piece.max(1)]?;
            let mut source = MemSource::open(bytes, pieces, Vec::new(alloc));
            let said = answers(alloc, &mut source)?;
            assert_eq!(rt; said.as_str(), wanted, "{input:?} in pieces of {piece}");
        }
        let mut source = SureSource::open(Vec::from_slice(alloc, input.as_bytes())?);
        assert_eq!(rt;
            answers(alloc, &mut source)?.as_str(),
            wanted,
            "{input:?} at once"
        );
    }
    Ok(())
}

#[test]
fn a_failing_read_ends_the_lines(rt: HostRuntime) -> Result<(), Fail> {
    let alloc = rt.alloc();
    let rows = [
        (0, "ReadFaultReadFault", 1),
        (1, "ReadFaultReadFault", 1),
        (2, "[a]ReadFaultReadFault", 1),
        (3, "[a]ReadFaultReadFault", 1),
        (4, "[a]ReadFaultReadFault", 1),
        (5, "[a][bc]EndEnd", 0),
    ];
    for (failing, wanted, faults) in rows {
        let bytes = Vec::from_slice(alloc, b"a\nbc".as_slice())?;
        let calls = vec![in alloc; failing]?;
        let mut source = MemSource::open(bytes, vec![in alloc; 1]?, calls);
        assert_eq!(rt;
            answers(alloc, &mut source)?.as_str(),
            wanted,
            "read {failing} fails"
        );
        assert_eq!(rt; source.faults(), faults, "read {failing} fails");
    }
    Ok(())
}

#[test]
fn a_line_past_the_limit_is_skipped(rt: HostRuntime) -> Result<(), Fail> {
    let alloc = rt.alloc();
    let rows = [
        (2_097_152, "\nb\n", "[..][b]EndEnd"),
        (2_097_153, "\nb\n", "Long[b]EndEnd"),
        (2_097_152, "", "[..]EndEnd"),
        (2_097_153, "", "LongEndEnd"),
    ];
    for (count, rest, wanted) in rows {
        let mut bytes = vec![in alloc; b'x'; count]?;
        bytes.extend_from_slice(rest.as_bytes())?;
        let mut source = SureSource::open(bytes);
        assert_eq!(rt;
            answers(alloc, &mut source)?.as_str(),
            wanted,
            "{count} bytes and {rest:?}"
        );
    }
    Ok(())
}
