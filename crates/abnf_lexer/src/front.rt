//! What stands at the front of a text.
ghost use Rattle.std.specs.Prelude.{◌≡◌, ◌≤◌, ◌<◌, length, IfSome};
ghost use Rattle.std.specs.List.{prefix_len};
ghost use Rattle.vg_base.specs.Characters.{is_name};
ghost use Rattle.abnf_lexer.specs.Classes as class;
ghost use Rattle.abnf_lexer.specs.code.Front as spec;
ghost use Rattle.abnf_lexer.specs.code.Tally.{FitsIn};

use crate::classes::{is_bare, is_code_character, is_sign};
use crate::codes::reads_code;
use crate::lexemes::{LexKind, PieceKind};
use vg_base::{enclosed_len, is_name, is_name_start, is_space, line_len, space_len};

/// A piece at the front of a text: its kind, and how many characters it has.
#[derive(Clone, Copy, Debug)]
pub(crate) struct Cut {
    pub kind: PieceKind,
    pub len: usize,
}

/// How many characters of a bare word come next.
fn bare_len(text: &[char]) -> usize
    ensures value { result ≡ prefix_len class.is_bare text.now }
    ensures within { result ≤ length text.now }
{
    text.iter().take_while(|c| is_bare(**c)).count()
}

/// How many characters of a name come next.
fn name_len(text: &[char]) -> usize
    ensures value { result ≡ prefix_len is_name text.now }
    ensures within { result ≤ length text.now }
{
    text.iter().take_while(|c| is_name(**c)).count()
}

/// How many letters, digits and hyphens come next.
fn code_len(text: &[char]) -> usize
    ensures value { result ≡ prefix_len class.is_code_character text.now }
    ensures within { result ≤ length text.now }
{
    text.iter().take_while(|c| is_code_character(**c)).count()
}

/// A piece of this kind, as long as was found.
fn cut_at(kind: PieceKind, len: Option<usize>) -> Option<Cut>
    ensures { result ≡ spec.cut_at kind len }
{
    Some(Cut { kind, len: len? })
}

/// How long a media type is that comes next; 0 where none does.
fn media_len(text: &[char]) -> usize
    ensures value { result ≡ spec.media_len text.now }
    ensures within { result ≤ length text.now }
{
    if text.starts_with(&['~', '<']) {
        enclosed_len(2, &['>'], text).unwrap_or(0)
    } else {
        0
    }
}

/// An opening of so many characters, all to the end of the next `>`, and a media type or none.
fn angled(opening: usize, text: &[char]) -> Option<usize>
    requires { opening ≤ length text.now }
    ensures value { result ≡ spec.angled opening text.now }
    ensures within { IfSome result (λ n. n ≤ length text.now) }
{
    let n = enclosed_len(opening, &['>'], text)?;
    Some(n + media_len(&text[n..]))
}

/// What a `$` begins: a reference or a name.
fn dollar(text: &[char]) -> Option<Cut>
    ensures value { result ≡ spec.dollar text.now }
    ensures within { FitsIn result (length text.now) }
{
    match text {
        [_, '<', ..] => cut_at(PieceKind::Lexeme(LexKind::UriRef), angled(2, text)),
        [_, c, rest @ ..] if is_name_start(*c) => Some(Cut {
            kind: PieceKind::Lexeme(LexKind::Name),
            len: 2 + name_len(rest),
        }),
        _ => None,
    }
}

/// What a `/` begins: a comment or a weight.
fn slash(text: &[char]) -> Option<Cut>
    requires { 0 < length text.now }
    ensures value { result ≡ spec.slash text.now }
    ensures within { FitsIn result (length text.now) }
{
    match text {
        [_, '/', rest @ ..] => Some(Cut {
            kind: PieceKind::LineComment,
            len: 2 + line_len(rest),
        }),
        [_, '*', ..] => cut_at(PieceKind::BlockComment, enclosed_len(2, &['*', '/'], text)),
        _ => cut_at(
            PieceKind::Lexeme(LexKind::Weight),
            enclosed_len(1, &['/'], text),
        ),
    }
}

/// What a `!` begins: the code of a language.
fn language(text: &[char]) -> Option<Cut>
    requires { 0 < length text.now }
    ensures value { result ≡ spec.language text.now }
    ensures within { FitsIn result (length text.now) }
{
    let rest = &text[1..];
    let len = code_len(rest);
    if reads_code(&rest[..len]) {
        Some(Cut {
            kind: PieceKind::Lexeme(LexKind::Language),
            len: 1 + len,
        })
    } else {
        None
    }
}

/// What a `{` begins: a tag, whose end its opening tells.
fn tag(text: &[char]) -> Option<Cut>
    requires { 0 < length text.now }
    ensures value { result ≡ spec.tag text.now }
    ensures within { FitsIn result (length text.now) }
{
    let len = match text {
        ['{', '!', '{', ..] => enclosed_len(3, &['}', '!', '}'], text),
        _ => enclosed_len(1, &['}'], text),
    };
    cut_at(PieceKind::Lexeme(LexKind::Tag), len)
}

/// The piece at the front of a text, if one begins there.
#[tactic(auto, unfolding(crate::specs::code::Front::front))]
pub(crate) fn front(text: &[char]) -> Option<Cut>
    ensures value { result ≡ spec.front text.now }
    ensures within { FitsIn result (length text.now) }
{
    let [c, rest @ ..] = text else {
        return None;
    };
    let c = *c;
    if is_bare(c) {
        cut_at(PieceKind::Lexeme(LexKind::Bare), Some(1 + bare_len(rest)))
    } else if is_space(c) {
        cut_at(PieceKind::WhiteSpace, Some(1 + space_len(rest)))
    } else if is_sign(c) {
        cut_at(PieceKind::Lexeme(LexKind::Sign), Some(1))
    } else if c == '"' {
        cut_at(
            PieceKind::Lexeme(LexKind::Quoted),
            enclosed_len(1, &['"'], text),
        )
    } else if c == '$' {
        dollar(text)
    } else if c == '<' {
        cut_at(PieceKind::Lexeme(LexKind::Angle), angled(1, text))
    } else if c == '/' {
        slash(text)
    } else if c == '!' {
        language(text)
    } else if c == '{' {
        tag(text)
    } else {
        None
    }
}
