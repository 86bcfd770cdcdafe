//! The faults of declarations (SRGS 1.0 section 4).
ghost use Rattle.std.specs.Prelude.{◌≡◌, [], Some, None, IfOk, OnOk, All, MatchBool};
ghost use Rattle.std.specs.List.{list_any};
ghost use Rattle.abnf_parser.specs.declared.written.Declaration.{Declaration};
ghost use Rattle.uri_links.specs.Faults.{reading_fault};
ghost use Rattle.rule_reader.specs.Context as spec;
ghost use Rattle.rule_reader.specs.DocumentFaults.{NameFaults, ArgumentFaults, DeclarationFaults};
ghost use Rattle.rule_reader.specs.code.Contexts.{names_uri, names_format, stands_among};
ghost use Rattle.rule_reader.specs.code.Walks.{DeclarationShown, Tells};

use crate::context::{argument_of, format_named, once, same};
use crate::found::tell;
use crate::places::inside_at;
use abnf_lexer::Spanned;
use abnf_parser::{BareWord, Declaration};
use std::alloc::Global;
use uri_links::Uri;
use vg_base::{DocFault, DocKind, Memory, Refused, Text};

/// Whether it is a reference.
fn is_readable(alloc: Global, inside: &Text) -> Result<bool, Memory>
    ensures { IfOk result (λ b. MatchBool b (reading_fault inside.now ≡ None) (reading_fault inside.now ≡ None → ⊥)) }
{
    match Uri::read(alloc, inside) {
        Ok(_) => Ok(true),
        Err(Refused::Fault(_)) => Ok(false),
        Err(Refused::Memory) => Err(Memory),
    }
}

fn names_uri(keyword: BareWord) -> bool
    ensures { result ≡ names_uri keyword }
{
    matches!(keyword, BareWord::Base | BareWord::Lexicon)
}

fn names_format(keyword: BareWord) -> bool
    ensures { result ≡ names_format keyword }
{
    matches!(keyword, BareWord::TagFormat)
}

/// Reads what a base, a lexicon or a tag format names.
fn read_named(
    alloc: Global,
    keyword: BareWord,
    span: Spanned,
    inside: &Text,
    found: &mut Option<DocFault>,
) -> Result<(), Memory>
    ensures { OnOk result (Tells (NameFaults keyword span inside.now) found.old found.new) }
{
    if names_uri(keyword) {
        let good = is_readable(alloc, inside)?;
        tell(found, !good, span, DocKind::BadUri);
        return Ok(());
    }
    if names_format(keyword) {
        let bad = format_named(inside).is_none();
        tell(found, bad, span, DocKind::TagFormat);
        return Ok(());
    }
    Ok(())
}

/// Reads what stands behind a keyword.
fn read_argument(
    alloc: Global,
    text: &Text,
    declaration: &Declaration,
    found: &mut Option<DocFault>,
) -> Result<(), Memory>
    requires { DeclarationShown text.now declaration.now }
    ensures { OnOk result (Tells (ArgumentFaults text.now declaration.now.keyword (spec.span_of (spec.argument (Some declaration.now)))) found.old found.new) }
{
    let Some(span) = argument_of(declaration) else {
        return Ok(());
    };
    let inside = inside_at(alloc, text, span)?;
    read_named(alloc, declaration.keyword, span, &inside, found)?;
    Ok(())
}

/// Whether one of its kind stands before it, of which a document has one. The last ones are looked at first: what stands
/// between two of a kind is looked at once for that kind, so all declarations together cost no more than they are.
fn is_twice(before: &[Declaration], declaration: &Declaration) -> bool
    ensures { result ≡ list_any (λ (other : Declaration). spec.same (spec.once other.keyword) (spec.once declaration.now.keyword)) before.now }
{
    match once(declaration.keyword) {
        None => false,
        Some(kind) => is_among(before, kind),
    }
}

/// Whether a declaration of this kind is among these.
#[tactic(auto, using(crate::proofs::Twice::among, crate::proofs::Twice::none_more))]
fn is_among(before: &[Declaration], kind: u32) -> bool
    ensures { result ≡ stands_among (Some kind) before.now }
{
    for back in 0..before.len() {
        let at = before.len() - 1 - back;
        if same(once(before[at].keyword), Some(kind)) {
            return true;
        }
    }
    false
}

/// Reads the declarations of a document.
pub(crate) fn read_declarations(
    alloc: Global,
    text: &Text,
    declarations: &[Declaration],
    found: &mut Option<DocFault>,
) -> Result<(), Memory>
    requires { All (DeclarationShown text.now) declarations.now }
    ensures { OnOk result (Tells (DeclarationFaults text.now [] declarations.now) found.old found.new) }
{
    for at in 0..declarations.len() {
        let declaration = &declarations[at];
        tell(
            found,
            is_twice(&declarations[..at], declaration),
            declaration.span,
            DocKind::DeclaredTwice,
        );
        read_argument(alloc, text, declaration, found)?;
    }
    Ok(())
}
