//! Faults of a cutting, each told where it is found.
ghost use Rattle.std.specs.Prelude.{◌≡◌, ◌&&◌, ◌<◌, ◌≤◌, ◌^◌, length, take, nat_le};
ghost use Rattle.std.specs.List.{prefix_len};
ghost use Rattle.vg_base.specs.Characters.{is_char};
ghost use Rattle.vg_base.specs.declared.doc_fault.DocKind.TheVariants.{BadCharacter};
ghost use Rattle.vg_base.specs.Faults.{doc_fault_order};
ghost use Rattle.vg_base.specs.First.{IsFirst};
ghost use Rattle.vg_base.specs.Limits as limits;
ghost use Rattle.vg_base.specs.Runs.{begins};
ghost use Rattle.abnf_lexer.specs.Classes as class;
ghost use Rattle.abnf_lexer.specs.Faults as spec;
ghost use Rattle.abnf_lexer.specs.Header.{past};
ghost use Rattle.abnf_lexer.specs.declared.lexemes.PieceKind.TheVariants.{Lexeme};

use crate::classes::is_joint;
use crate::lexemes::LexKind;
use vg_base::{Cursor, DocFault, DocKind, is_char, limits};

/// Where the test holds, a fault of this kind at the cursor.
pub(crate) fn told(test: bool, cursor: &Cursor<'_>, kind: DocKind) -> Option<DocFault>
    ensures { IsFirst doc_fault_order (spec.told test cursor.now.passed kind) result }
{
    if test {
        Some(DocFault {
            place: cursor.place(),
            kind,
        })
    } else {
        None
    }
}

/// How many characters come next that a document may have.
fn allowed_len(text: &[char]) -> usize
    ensures value { result ≡ prefix_len is_char text.now }
    ensures within { result ≤ length text.now }
{
    text.iter().take_while(|c| is_char(**c)).count()
}

/// Passes so many characters, and tells the first of them that a document may not have.
pub(crate) fn pass(cursor: &mut Cursor<'_>, len: usize) -> Option<DocFault>
    requires { len ≤ length cursor.old.rest }
    ensures passed { cursor.new ≡ past len cursor.old }
    ensures first { IsFirst doc_fault_order (spec.bad_characters cursor.old.passed (take len cursor.old.rest)) result }
{
    let allowed = allowed_len(&cursor.rest()[..len]);
    cursor.go(allowed);
    let bad = told(allowed < len, cursor, DocKind::BadCharacter);
    cursor.go(len - allowed);
    bad
}

/// Whether a text begins with what needs an end.
fn opens(text: &[char]) -> bool
    ensures { result ≡ spec.opens text.now }
{
    matches!(text, ['"' | '<' | '/' | '{', ..] | ['$', '<', ..])
}

/// What is wrong where no piece begins; nothing at the end of the text.
pub(crate) fn stop(cursor: &Cursor<'_>) -> Option<DocFault>
    ensures { IsFirst doc_fault_order (spec.stop_faults cursor.now) result }
{
    let rest = cursor.rest();
    let kind = if opens(rest) {
        DocKind::Unclosed
    } else {
        DocKind::BadCharacter
    };
    told(!rest.is_empty(), cursor, kind)
}

fn begins_joint(text: &[char]) -> bool
    ensures { result ≡ begins class.is_joint text.now }
{
    matches!(text, [c, ..] if is_joint(*c))
}

fn begins_opening(text: &[char]) -> bool
    ensures { result ≡ begins spec.is_opening text.now }
{
    matches!(text, ['(' | '[', ..])
}

fn begins_closing(text: &[char]) -> bool
    ensures { result ≡ begins spec.is_closing text.now }
{
    matches!(text, [')' | ']', ..])
}

/// Whether a lexeme opens a bracket where as many are open as may be.
pub(crate) fn is_deep(count: usize, slice: &[char]) -> bool
    ensures { result ≡ (begins spec.is_opening slice.now && nat_le limits.nesting count) }
{
    begins_opening(slice) && limits::NESTING as usize <= count
}

/// How many brackets are open behind one more lexeme.
pub(crate) fn bracketed(count: usize, slice: &[char]) -> usize
    requires { count < 2 ^ 63 }
    ensures { result ≡ spec.bracketed count slice.now }
{
    if begins_opening(slice) {
        count + 1
    } else if begins_closing(slice) {
        count.saturating_sub(1)
    } else {
        count
    }
}

/// A joint that follows a name, at a cursor behind a lexeme of this kind.
pub(crate) fn joint(kind: LexKind, behind: &Cursor<'_>) -> Option<DocFault>
    ensures { let test = spec.is_name_kind (Lexeme kind) && begins class.is_joint behind.now.rest in
        IsFirst doc_fault_order (spec.told test behind.now.passed BadCharacter) result }
{
    told(
        kind == LexKind::Name && begins_joint(behind.rest()),
        behind,
        DocKind::BadCharacter,
    )
}
