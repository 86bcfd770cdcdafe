//! References by name (SRGS 1.0 section 2.2.1), and the special rules (section 2.2.3).
ghost use Rattle.std.specs.Prelude.{◌≡◌, IfOk};
ghost use Rattle.abnf_parser.specs.declared.written.Written.TheVariants as w;
ghost use Rattle.rule_reader.specs.References.{named};
ghost use Rattle.rule_reader.specs.code.Walks.{IsShown, Walked};

use crate::context::Context;
use crate::places::inside_at;
use crate::spelled::is;
use abnf_lexer::Spanned;
use grammar_tree::{Expansion, Goal, Reference};
use std::alloc::Global;
use vg_base::{DocFault, Memory, Place, Text};

/// The special rule of this name, or a reference to the rule of this name.
fn named(place: Place, name: Text) -> Expansion
    ensures { result ≡ named place name }
{
    if is(&name, "NULL") {
        Expansion::Null
    } else if is(&name, "VOID") {
        Expansion::Void
    } else if is(&name, "GARBAGE") {
        Expansion::Garbage
    } else {
        Expansion::Ref(Reference {
            place,
            goal: Goal::Local(name),
        })
    }
}

pub(crate) fn read_name(
    alloc: Global,
    text: &Text,
    context: Context,
    span: Spanned,
    found: &mut Option<DocFault>,
) -> Result<Expansion, Memory>
    requires { IsShown text.now span }
    ensures { IfOk result (Walked text.now context (w.Name span) found.old found.new) }
{
    let name = inside_at(alloc, text, span)?;
    Ok(named(span.place, name))
}
