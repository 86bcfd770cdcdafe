//! Tokens (SRGS 1.0 section 2.1), and keys (appendix E).
ghost use Rattle.std.specs.Prelude.{IfOk};
ghost use Rattle.abnf_parser.specs.declared.written.Written.TheVariants as w;
ghost use Rattle.rule_reader.specs.LeafFaults.{Told, IsBadKey};
ghost use Rattle.rule_reader.specs.Meaning.{IsToken};
ghost use Rattle.rule_reader.specs.code.Walks.{IsShown, IsReadAs, Walked};

use crate::context::Context;
use crate::found::tell;
use crate::places::inside_at;
use abnf_lexer::Spanned;
use grammar_tree::Expansion;
use std::alloc::Global;
use token_forms::{keys_of, words_of};
use vg_base::{DocFault, DocKind, Memory, Mode, Refused, Text};

/// The words of a token, or its keys.
fn token_of(
    alloc: Global,
    context: Context,
    span: Spanned,
    inside: &Text,
    found: &mut Option<DocFault>,
) -> Result<Expansion, Memory>
    ensures { IfOk result (IsReadAs (Told (IsBadKey context inside.now) span DocKind.BadKey)
        (IsToken context inside.now) found.old found.new) }
{
    match context.mode {
        Mode::Voice => Ok(Expansion::Token(words_of(alloc, inside)?)),
        Mode::Dtmf => match keys_of(alloc, inside) {
            Ok(keys) => Ok(Expansion::Token(keys)),
            Err(Refused::Fault(_)) => {
                tell(found, true, span, DocKind::BadKey);
                Ok(Expansion::Null)
            }
            Err(Refused::Memory) => Err(Memory),
        },
    }
}

pub(crate) fn read_token(
    alloc: Global,
    text: &Text,
    context: Context,
    span: Spanned,
    found: &mut Option<DocFault>,
) -> Result<Expansion, Memory>
    requires { IsShown text.now span }
    ensures { IfOk result (Walked text.now context (w.Token span) found.old found.new) }
{
    let inside = inside_at(alloc, text, span)?;
    let token = token_of(alloc, context, span, &inside, found)?;
    Ok(token)
}
