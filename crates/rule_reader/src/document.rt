//! Reading a whole document.
ghost use Rattle.std.specs.Prelude.{ℕ, List, IfOk};
ghost use Rattle.vg_base.specs.Refusals.{Meets};
ghost use Rattle.rule_reader.specs.DocumentFaults.{RootFaults};
ghost use Rattle.rule_reader.specs.Meaning.{IsThere};
ghost use Rattle.rule_reader.specs.Reading.{IsReading};
ghost use Rattle.rule_reader.specs.code.Walks.{ThereShown, DocumentShown, AreKept, IsReadAs, Answered};

use crate::context::{base_of, context_of, root_of};
use crate::declarations::read_declarations;
use crate::found::tell;
use crate::names::read_names;
use crate::places::inside_at;
use crate::rules::read_rules;
use abnf_lexer::{DocRefused, Spanned};
use abnf_parser::{WrittenDocument, read_written};
use grammar_tree::Doc;
use std::alloc::Global;
use vg_base::{DocFault, DocKind, Memory, Refused, Text, TextMap};

/// What stands there, or nothing where nothing stands.
fn read_there(alloc: Global, text: &Text, span: Option<Spanned>) -> Result<Option<Text>, Memory>
    requires { ThereShown text.now span }
    ensures { IfOk result (IsThere text.now span) }
{
    match span {
        Some(span) => Ok(Some(inside_at(alloc, text, span)?)),
        None => Ok(None),
    }
}

/// The root rule, which one of the rules has to be.
fn read_root(
    alloc: Global,
    text: &Text,
    span: Option<Spanned>,
    names: &TextMap<()>,
    found: &mut Option<DocFault>,
) -> Result<Option<Text>, Memory>
    requires { ThereShown text.now span }
    ensures { IfOk result (λ root. (those : List (List ℕ)) → AreKept those names.now
        → IsReadAs (RootFaults text.now those span) (IsThere text.now span) found.old found.new root) }
{
    let Some(span) = span else {
        return Ok(None);
    };
    let root = inside_at(alloc, text, span)?;
    tell(found, !names.contains(&root), span, DocKind::RootMissing);
    Ok(Some(root))
}

/// What a document means that is written so, or the first of its faults.
fn read_all(
    alloc: Global,
    text: &Text,
    written: &WrittenDocument,
) -> Result<Result<Doc, DocFault>, Memory>
    requires { DocumentShown text.now written.now }
    ensures { IfOk result (Answered text.now written.now) }
{
    let mut found = None;
    let declarations = written.declarations.as_slice();
    let rules = written.rules.as_slice();
    read_declarations(alloc, text, declarations, &mut found)?;
    let names = read_names(alloc, text, rules, &mut found)?;
    let context = context_of(alloc, text, declarations)?;
    let rules = read_rules(alloc, text, context, rules, &mut found)?;
    let root = read_root(alloc, text, root_of(declarations), &names, &mut found)?;
    let base = read_there(alloc, text, base_of(declarations))?;
    match found {
        Some(fault) => Ok(Err(fault)),
        None => Ok(Ok(Doc {
            mode: context.mode,
            root,
            format: context.format,
            base,
            rules,
        })),
    }
}

/// Reads a document, or refuses with its first fault: that of its header, else of its cutting, else
/// of what its lexemes spell, else of what they mean. `Memory` comes where memory is wanted and
/// isn't there; no contract says when that is.
pub fn read_document(alloc: Global, text: &Text) -> Result<Doc, DocRefused>
    ensures { Meets result (IsReading text.now) }
{
    let written = read_written(alloc, text)?;
    match read_all(alloc, text, &written)? {
        Ok(doc) => Ok(doc),
        Err(fault) => Err(Refused::Fault(fault)),
    }
}
