//! Cuts a text into lexemes.
ghost use Rattle.std.specs.Prelude.{◌≡◌, ℕ, List, [], All, IfOk};
ghost use Rattle.std.specs.List.{AllPairs};
ghost use Rattle.vg_base.specs.Faults.{doc_fault_order};
ghost use Rattle.vg_base.specs.First.{IsFirst};
ghost use Rattle.vg_base.specs.Refusals.{Meets};
ghost use Rattle.abnf_lexer.specs.Faults.{cutting_faults};
ghost use Rattle.abnf_lexer.specs.Header.{header_faults, behind_header};
ghost use Rattle.abnf_lexer.specs.Lexemes.{CutFrom, placed_pieces};
ghost use Rattle.abnf_lexer.specs.Lexemes as lexemes;
ghost use Rattle.abnf_lexer.specs.Lexing.{Lexes, IsLexeme, IsWithin, Precedes, ShowsAll};
ghost use Rattle.abnf_lexer.specs.code.Tally.{IsTallied};

use crate::faults::stop;
use crate::header::header;
use crate::lexemes::Spanned;
use crate::tally::{Tally, tally_of};
use std::alloc::Global;
use vg_base::{Cursor, DocFault, Items, Refused, Text};

/// Why a text is not cut into lexemes: its first fault, or want of memory.
pub type DocRefused = Refused<DocFault>;

/// The lexemes of a text that begins with a header, or its first fault: of the header, or else of the cutting.
/// Nothing is cut behind a fault, and no lexeme is kept past the most that there may be.
pub fn lex(alloc: Global, text: &Text) -> Result<Items<Spanned>, DocRefused>
    ensures answer { Meets result (Lexes text.now) }
    ensures shown { IfOk result (ShowsAll text.now) }
    ensures slices { IfOk result (All (IsLexeme text.now)) }
    ensures within { IfOk result (All (IsWithin text.now)) }
    ensures order { IfOk result (AllPairs Precedes) }
{
    let characters = text.characters(alloc)?;
    let mut cursor = match header(characters.as_slice()) {
        Ok(cursor) => cursor,
        Err(fault) => return Err(Refused::Fault(fault)),
    };
    let tally = tally_of(alloc, &mut cursor)?;
    match first_fault(&tally, &cursor) {
        Some(fault) => Err(Refused::Fault(fault)),
        None => Ok(Items::from_vec(tally.found)),
    }
}

/// The first fault of a text that was cut behind its header, up to a fault or to where no piece begins.
fn first_fault(tally: &Tally, end: &Cursor<'_>) -> Option<DocFault>
    ensures { (text : List ℕ) → header_faults text ≡ [] → IsTallied (behind_header text) end.now tally.now
        → (cut : CutFrom (behind_header text))
        → IsFirst doc_fault_order (cutting_faults text (placed_pieces cut) (lexemes.end cut)) result }
{
    match tally.fault {
        Some(fault) => Some(fault),
        None => stop(end),
    }
}
