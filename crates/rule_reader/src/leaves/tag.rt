//! Tags (SRGS 1.0 section 2.6), and their scripts (SISR 1.0).
ghost use Rattle.std.specs.Prelude.{IfOk};
ghost use Rattle.abnf_parser.specs.declared.written.Written.TheVariants as w;
ghost use Rattle.rule_reader.specs.LeafFaults.{Told, IsBadScript};
ghost use Rattle.rule_reader.specs.Meaning.{IsScriptOf};
ghost use Rattle.rule_reader.specs.code.Walks.{IsShown, IsReadAs, Walked};

use crate::context::{Context, is_scripted};
use crate::found::tell;
use crate::places::inside_at;
use abnf_lexer::Spanned;
use grammar_tree::{Expansion, TagNode};
use script_reader::read_script;
use std::alloc::Global;
use vg_base::{DocFault, DocKind, Memory, Refused, Script, Text};

/// The script of a tag of a script document, and none of any other.
fn script_of(
    alloc: Global,
    context: Context,
    span: Spanned,
    inside: &Text,
    found: &mut Option<DocFault>,
) -> Result<Option<Script>, Memory>
    ensures { IfOk result (IsReadAs (Told (IsBadScript context inside.now) span DocKind.BadScript)
        (IsScriptOf context.format inside.now) found.old found.new) }
{
    if !is_scripted(context.format) {
        return Ok(None);
    }
    match read_script(alloc, inside) {
        Ok(script) => Ok(Some(script)),
        Err(Refused::Fault(_)) => {
            tell(found, true, span, DocKind::BadScript);
            Ok(None)
        }
        Err(Refused::Memory) => Err(Memory),
    }
}

pub(crate) fn read_tag(
    alloc: Global,
    text: &Text,
    context: Context,
    span: Spanned,
    found: &mut Option<DocFault>,
) -> Result<Expansion, Memory>
    requires { IsShown text.now span }
    ensures { IfOk result (Walked text.now context (w.Tag span) found.old found.new) }
{
    let inside = inside_at(alloc, text, span)?;
    let script = script_of(alloc, context, span, &inside, found)?;
    Ok(Expansion::Tag(TagNode {
        place: span.place,
        text: inside,
        script,
    }))
}
