//! The header of a grammar.
ghost use Rattle.std.specs.Prelude.{◌≡◌, ◌&&◌, ◌≤◌, ◌++◌, [], length, take, drop, codes, nat_eq, Some, IfOk, IfErr};
ghost use Rattle.std.specs.List.{prefix_len, take_while, starts_with};
ghost use Rattle.vg_base.specs.Faults.{doc_fault_order};
ghost use Rattle.vg_base.specs.First.{IsFirst};
ghost use Rattle.abnf_lexer.specs.Classes as class;
ghost use Rattle.vg_base.specs.Runs.{begins};
ghost use Rattle.abnf_lexer.specs.Header as spec;

use crate::classes::{is_blank, is_field};
use crate::faults::told;
use vg_base::{Cursor, DocFault, DocKind, Place, sooner};

/// How many characters of a version or a name come next.
fn field_len(text: &[char]) -> usize
    ensures value { result ≡ prefix_len class.is_field text.now }
    ensures within { result ≤ length text.now }
{
    text.iter().take_while(|c| is_field(**c)).count()
}

/// How many blanks come next.
fn blank_len(text: &[char]) -> usize
    ensures value { result ≡ prefix_len class.is_blank text.now }
    ensures within { result ≤ length text.now }
{
    text.iter().take_while(|c| is_blank(**c)).count()
}

/// The characters up to a white space or a `;`.
fn field<'a>(cursor: &Cursor<'a>) -> &'a [char]
    ensures { result.now ≡ spec.field cursor.now }
{
    let rest = cursor.rest();
    &rest[..field_len(rest)]
}

fn pass_blanks(cursor: &mut Cursor<'_>)
    ensures { cursor.new ≡ spec.past_run class.is_blank cursor.old }
{
    let len = blank_len(cursor.rest());
    cursor.go(len);
}

/// Passes a version or a name, and the blanks behind it.
fn pass_field(cursor: &mut Cursor<'_>)
    ensures { cursor.new ≡ spec.past_field cursor.old }
{
    let len = field_len(cursor.rest());
    cursor.go(len);
    pass_blanks(cursor);
}

/// Passes the next character, if there is one.
fn pass_one(cursor: &mut Cursor<'_>)
    ensures { cursor.new ≡ spec.past 1 cursor.old }
{
    cursor.step();
}

fn begins_mark(text: &[char]) -> bool
    ensures { result ≡ begins spec.is_mark text.now }
{
    matches!(text, ['\u{FEFF}', ..])
}

fn begins_semicolon(text: &[char]) -> bool
    ensures { result ≡ begins spec.is_semicolon text.now }
{
    matches!(text, [';', ..])
}

/// `#ABNF` and a blank.
fn begins_header(text: &[char]) -> bool
    ensures { result ≡ spec.begins_header text.now }
{
    matches!(text, ['#', 'A', 'B', 'N', 'F', c, ..] if is_blank(*c))
}

fn is_version(name: &[char]) -> bool
    ensures { result ≡ spec.is_version name.now }
{
    matches!(name, ['1', '.', '0'])
}

/// No name, or `UTF-8` in any case of letters.
fn is_encoding(name: &[char]) -> bool
    ensures { result ≡ spec.is_encoding name.now }
{
    matches!(name, [] | ['U' | 'u', 'T' | 't', 'F' | 'f', '-', '8'])
}

/// Passes the version, the name of the encoding and the `;`, and tells what is wrong first.
fn fields(cursor: &mut Cursor<'_>) -> Option<DocFault>
    ensures fault { let name = spec.past_field cursor.old in let end = spec.past_field name in
        IsFirst doc_fault_order (spec.version_faults cursor.old ++ (spec.encoding_faults name ++ spec.end_faults end)) result }
    ensures behind { cursor.new ≡ spec.past 1 (spec.past_field (spec.past_field cursor.old)) }
{
    let version = told(!is_version(field(cursor)), cursor, DocKind::Version);
    pass_field(cursor);
    let encoding = told(!is_encoding(field(cursor)), cursor, DocKind::Encoding);
    pass_field(cursor);
    let end = told(
        !begins_semicolon(cursor.rest()),
        cursor,
        DocKind::Unexpected,
    );
    pass_one(cursor);
    sooner(version, sooner(encoding, end))
}

/// Before the header, past a byte order mark.
fn at_header(text: &[char]) -> Cursor<'_>
    ensures { result ≡ spec.at_header text.now }
{
    let mut cursor = Cursor::new(text);
    if begins_mark(cursor.rest()) {
        pass_one(&mut cursor);
    }
    cursor
}

/// The walk behind the header, or the header's first fault.
pub(crate) fn header(text: &[char]) -> Result<Cursor<'_>, DocFault>
    ensures fine { IfOk result (λ cursor. spec.header_faults text.now ≡ []) }
    ensures behind { IfOk result (λ cursor. cursor ≡ spec.behind_header text.now) }
    ensures fault { IfErr result (λ fault. IsFirst doc_fault_order (spec.header_faults text.now) (Some fault)) }
{
    let mut cursor = at_header(text);
    if !begins_header(cursor.rest()) {
        return Err(DocFault {
            place: Place { line: 1, column: 1 },
            kind: DocKind::NoHeader,
        });
    }
    cursor.go(5);
    pass_blanks(&mut cursor);
    match fields(&mut cursor) {
        Some(fault) => Err(fault),
        None => Ok(cursor),
    }
}
