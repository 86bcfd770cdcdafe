//! The first of the faults that are found.
ghost use Rattle.rule_reader.specs.code.Walks.{told, Adds};

use abnf_lexer::Spanned;
use vg_base::{DocFault, DocKind, sooner};

/// Where it holds, tells of a fault of this kind where the lexeme stands.
pub(crate) fn tell(found: &mut Option<DocFault>, holds: bool, span: Spanned, kind: DocKind)
    ensures { Adds (told holds span kind) found.old found.new }
{
    if holds {
        let fault = DocFault {
            place: span.place,
            kind,
        };
        *found = sooner(*found, Some(fault));
    }
}
