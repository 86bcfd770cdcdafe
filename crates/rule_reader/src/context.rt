//! What the declarations of a document say of its bodies.
ghost use Rattle.std.specs.Prelude.{◌≡◌, Some, IfOk};
ghost use Rattle.std.specs.Option.{option_copied};
ghost use Rattle.rule_reader.specs.Context as spec;
ghost use Rattle.rule_reader.specs.code.Contexts.{is_scripted};
ghost use Rattle.rule_reader.specs.code.Walks.{ThereShown};

use crate::places::inside_at;
use crate::spelled::is;
use abnf_lexer::Spanned;
use abnf_parser::{BareWord, Declaration, Lexeme};
use std::alloc::Global;
use vg_base::{Format, Memory, Mode, Text};

/// What bodies are read by.
#[derive(Clone, Copy, Debug, PartialEq, Eq)]
pub struct Context {
    /// What speaks to the document.
    pub mode: Mode,
    /// What its tags are written in.
    pub format: Option<Format>,
}

/// Whether tags are scripts.
pub(crate) fn is_scripted(format: Option<Format>) -> bool
    ensures { result ≡ is_scripted format }
{
    matches!(format, Some(Format::Script))
}

/// Which of the five declarations that stand once a keyword begins.
pub(crate) fn once(keyword: BareWord) -> Option<u32>
    ensures { result ≡ spec.once keyword }
{
    match keyword {
        BareWord::Language => Some(1),
        BareWord::Mode => Some(2),
        BareWord::Root => Some(3),
        BareWord::TagFormat => Some(4),
        BareWord::Base => Some(5),
        _ => None,
    }
}

/// Whether both keywords begin one such declaration.
pub(crate) fn same(one: Option<u32>, other: Option<u32>) -> bool
    ensures { result ≡ spec.same one other }
{
    match (one, other) {
        (Some(one), Some(other)) => one == other,
        _ => false,
    }
}

/// The lexeme behind the keyword of the first declaration by this keyword.
fn argument_by(keyword: BareWord, declarations: &[Declaration]) -> Option<Lexeme>
    ensures { result ≡ spec.argument (spec.first_by keyword declarations.now) }
{
    for declaration in declarations {
        if same(once(keyword), once(declaration.keyword)) {
            return declaration.others.as_slice().first().copied();
        }
    }
    None
}

/// What speaks to the document: without a declaration, voices.
pub(crate) fn mode_of(declarations: &[Declaration]) -> Mode
    ensures { result ≡ spec.mode_of declarations.now }
{
    match argument_by(BareWord::Mode, declarations) {
        Some(
            Lexeme::Bare {
                word: BareWord::Dtmf,
                ..
            },
        ) => Mode::Dtmf,
        _ => Mode::Voice,
    }
}

fn span_of(lexeme: Option<Lexeme>) -> Option<Spanned>
    ensures { result ≡ spec.span_of lexeme }
{
    match lexeme {
        Some(Lexeme::Name(span)) => Some(span),
        Some(Lexeme::Angle { span, .. }) => Some(span),
        _ => None,
    }
}

/// Where what stands behind the keyword of a declaration stands.
pub(crate) fn argument_of(declaration: &Declaration) -> Option<Spanned>
    ensures { result ≡ spec.span_of (spec.argument (Some declaration.now)) }
{
    span_of(declaration.others.as_slice().first().copied())
}

/// Where the name of the root rule stands.
pub(crate) fn root_of(declarations: &[Declaration]) -> Option<Spanned>
    ensures { result ≡ spec.root_of declarations.now }
{
    span_of(argument_by(BareWord::Root, declarations))
}

/// Where the tag format stands.
fn format_of(declarations: &[Declaration]) -> Option<Spanned>
    ensures { result ≡ spec.format_of declarations.now }
{
    span_of(argument_by(BareWord::TagFormat, declarations))
}

/// Where the base stands.
pub(crate) fn base_of(declarations: &[Declaration]) -> Option<Spanned>
    ensures { result ≡ spec.base_of declarations.now }
{
    span_of(argument_by(BareWord::Base, declarations))
}

/// The tag format of this name (SISR 1.0 section 5).
pub(crate) fn format_named(name: &Text) -> Option<Format>
    ensures { result ≡ spec.format_named name.now }
{
    if is(name, "semantics/1.0") {
        Some(Format::Script)
    } else if is(name, "semantics/1.0-literals") {
        Some(Format::Literal)
    } else {
        None
    }
}

/// What bodies are read by.
pub(crate) fn context_of(
    alloc: Global,
    text: &Text,
    declarations: &[Declaration],
) -> Result<Context, Memory>
    requires { ThereShown text.now (spec.format_of declarations.now) }
    ensures { IfOk result (spec.HasContext text.now declarations.now) }
{
    let mode = mode_of(declarations);
    let format = match format_of(declarations) {
        Some(span) => format_named(&inside_at(alloc, text, span)?),
        None => None,
    };
    Ok(Context { mode, format })
}
