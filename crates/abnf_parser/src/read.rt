//! Reading the lexemes of a whole document.
ghost use Rattle.std.specs.Prelude.{◌≡◌, ℕ, List, All, Some, IfOk, slice_get, length};
ghost use Rattle.vg_base.specs.Cut.{Piece};
ghost use Rattle.vg_base.specs.Reading.{Reads, answer};
ghost use Rattle.vg_base.specs.Refusals.{Meets};
ghost use Rattle.vg_base.specs.declared.doc_fault.DocKind.TheVariants as fault;
ghost use Rattle.abnf_lexer.specs.declared.lexemes.LexKind.{LexKind};
ghost use Rattle.abnf_lexer.specs.declared.lexemes.Spanned.{Spanned};
ghost use Rattle.abnf_lexer.specs.Lexing.{IsWithin, Shows, ShowsEach};
ghost use Rattle.abnf_parser.specs.Documents.{Spells};
ghost use Rattle.abnf_parser.specs.Roles.{Stands};
ghost use Rattle.abnf_parser.specs.Texts.{EachStands, IsSyntax, place_of};
ghost use Rattle.abnf_parser.specs.code.Readers.{machine};

use crate::lexeme::Lexeme;
use crate::machine::document::{result_of, start, step};
use crate::roles::lexeme_of;
use crate::written::WrittenDocument;
use abnf_lexer::{DocRefused, Spanned, lex};
use std::alloc::Global;
use vg_base::{DocFault, DocKind, Items, Memory, Place, Refused, Text, place_at_end};

/// What the machine answers: the document, or the index of the lexeme at which it stops.
fn machine_answer(
    alloc: Global,
    lexemes: &[Lexeme],
) -> Result<Result<WrittenDocument, usize>, Memory>
    ensures { IfOk result (λ a. a ≡ answer machine lexemes.now) }
{
    let mut reader = start(alloc);
    let mut at = 0usize;
    for lexeme in lexemes {
        match step(alloc, reader, *lexeme)? {
            Some(next) => reader = next,
            None => return Ok(Err(at)),
        }
        at += 1;
    }
    match result_of(reader) {
        Some(document) => Ok(Ok(document)),
        None => Ok(Err(at)),
    }
}

/// Reads the lexemes of a document: the tree that they are written as, or the index of the first
/// that, with those before it, begins no document; where they end too early, that is their number.
#[tactic(auto, using(crate::proofs::Exact::reads))]
pub(crate) fn read_lexemes(
    alloc: Global,
    lexemes: &[Lexeme],
) -> Result<Result<WrittenDocument, usize>, Memory>
    ensures { IfOk result (Reads Spells lexemes.now) }
{
    machine_answer(alloc, lexemes)
}

/// The lexeme that stands there.
fn lexeme_at(alloc: Global, text: &Text, span: Spanned) -> Result<Lexeme, Memory>
    requires { IsWithin text.now span }
    ensures { IfOk result (λ x. (piece : Piece LexKind) → Shows text.now span piece
        → Stands span piece.slice x) }
{
    let slice = text.slice(span.from as usize, span.to as usize);
    lexeme_of(alloc, span, slice)
}

/// The lexemes of a text as a document has them.
fn lexemes_of(alloc: Global, text: &Text, spans: &[Spanned]) -> Result<Items<Lexeme>, Memory>
    requires { All (IsWithin text.now) spans.now }
    ensures { IfOk result (λ xs. (pieces : List (Piece LexKind))
        → ShowsEach text.now spans.now pieces → EachStands spans.now pieces xs) }
{
    let mut lexemes = Items::new(alloc);
    for span in spans {
        lexemes.push(lexeme_at(alloc, text, *span)?)?;
    }
    Ok(lexemes)
}

/// Where the lexeme of an index stands, or the text ends.
fn place_of(text: &Text, spans: &[Spanned], at: usize) -> Place
    ensures { result ≡ place_of text.now spans.now at }
{
    match spans.get(at) {
        Some(span) => span.place,
        None => place_at_end(text),
    }
}

/// Reads a document as it is written, or refuses with the first fault of its header, else of its
/// cutting, else of what its lexemes spell. What its lexemes mean isn't looked at.
pub fn read_written(alloc: Global, text: &Text) -> Result<WrittenDocument, DocRefused>
    ensures { Meets result (IsSyntax text.now) }
{
    let spans = lex(alloc, text)?;
    let lexemes = lexemes_of(alloc, text, spans.as_slice())?;
    match read_lexemes(alloc, lexemes.as_slice())? {
        Ok(document) => Ok(document),
        Err(at) => Err(Refused::Fault(DocFault {
            place: place_of(text, spans.as_slice(), at),
            kind: DocKind::Unexpected,
        })),
    }
}
