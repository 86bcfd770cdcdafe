//! Reads a grammar text of the small form.
ghost use Rattle.std.specs.Prelude.{◌≡◌, ◌≢◌, ◌++◌, ◌∷◌, [], ℕ, List, ◌↔◌, IsTrue, MatchOption, IfSome, IfOk, codes};
ghost use Rattle.std.specs.List.{list_all, list_any, Contains};
ghost use Rattle.server_shell.specs.code.TextCuts.{IsWithout, CutAtFirst};
ghost use Rattle.server_shell.specs.first_form.Forms.{IsKey, IsFormName, SpellsForm, SpellsRest, SpellsRule, alternatives_of, is_alternative, is_plain_space, is_letter, is_letter_or, parts_of};

use super::words::{are_same, words_in};
use std::alloc::Global;
use vg_base::{Memory, Text};

const HEAD: [char; 16] = [
    '#', 'A', 'B', 'N', 'F', ' ', '1', '.', '0', ';', 'r', 'o', 'o', 't', ' ', '$',
];

const SCHEME: [char; 7] = ['h', 't', 't', 'p', ':', '/', '/'];

/// A text of the form: its root's name, and its alternatives as they are written.
#[derive(Clone, Copy)]
pub struct Form<'a> {
    pub name: &'a [char],
    pub alternatives: &'a [char],
}

/// What stands behind `front`.
fn strip<'a>(text: &'a [char], front: &[char]) -> Option<&'a [char]>
    ensures { MatchOption result ((rest : List ℕ) → text.now ≢ front.now ++ rest)
        (λ rest. text.now ≡ front.now ++ rest.now) }
{
    text.strip_prefix(front)
}

/// What stands before the first `c` and behind it.
fn split_at_first(text: &[char], c: char) -> Option<(&[char], &[char])>
    ensures { MatchOption result (IsWithout c text.now)
        (λ p. CutAtFirst c text.now p.0.now p.1.now) }
{
    let at = text.iter().position(|x| *x == c)?;
    Some((&text[..at], &text[at + 1..]))
}

fn is_letter(c: char) -> bool
    ensures { result ≡ is_letter c }
{
    c.is_ascii_lowercase()
}

fn all_letters(text: &[char]) -> bool
    ensures { result ≡ list_all is_letter text.now }
{
    text.iter().all(|c| is_letter(*c))
}

fn any_letter(text: &[char]) -> bool
    ensures { result ≡ list_any is_letter text.now }
{
    text.iter().any(|c| is_letter(*c))
}

fn all_letters_or(text: &[char], other: char) -> bool
    ensures { result ≡ list_all (is_letter_or other) text.now }
{
    text.iter().all(|c| is_letter(*c) || *c == other)
}

fn all_spaces(text: &[char]) -> bool
    ensures { result ≡ list_all is_plain_space text.now }
{
    text.iter().all(|c| *c == ' ')
}

fn is_name(name: &[char]) -> bool
    ensures { IsTrue result ↔ IsFormName name.now }
{
    all_letters(name) && !name.is_empty() && name.len() <= 64
}

fn is_alternative(part: &[char]) -> bool
    ensures { result ≡ is_alternative part.now }
{
    all_letters_or(part, ' ') && any_letter(part)
}

fn are_alternatives(text: &[char]) -> bool
    ensures { result ≡ list_all is_alternative (parts_of text.now) }
{
    let mut rest = text;
    while let Some((part, behind)) = split_at_first(rest, '|') {
        if !is_alternative(part) {
            return false;
        }
        rest = behind;
    }
    is_alternative(rest)
}

fn read_rest(text: &[char]) -> Option<&[char]>
    ensures { MatchOption result ((alternatives : List ℕ) → ¬ SpellsRest text.now alternatives)
        (λ alternatives. SpellsRest text.now alternatives.now) }
{
    let Some((spaces, behind)) = split_at_first(text, '=') else {
        return None;
    };
    let Some((last, alternatives)) = behind.split_last() else {
        return None;
    };
    if *last == ';' && all_spaces(spaces) && are_alternatives(alternatives) {
        Some(alternatives)
    } else {
        None
    }
}

fn read_rule(text: &[char]) -> Option<Form<'_>>
    ensures { MatchOption result
        ((name alternatives : List ℕ) → ¬ SpellsRule text.now name alternatives)
        (λ form. SpellsRule text.now form.name.now form.alternatives.now) }
{
    let Some((name, behind)) = split_at_first(text, ';') else {
        return None;
    };
    if !is_name(name) {
        return None;
    }
    let Some(again) = strip(behind, &['$']) else {
        return None;
    };
    let Some(rest) = strip(again, name) else {
        return None;
    };
    match read_rest(rest) {
        Some(alternatives) => Some(Form { name, alternatives }),
        None => None,
    }
}

/// The form of a text, where it has it.
pub fn read_text(text: &[char]) -> Option<Form<'_>>
    ensures { MatchOption result
        ((name alternatives : List ℕ) → ¬ SpellsForm text.now name alternatives)
        (λ form. SpellsForm text.now form.name.now form.alternatives.now) }
{
    match strip(text, &HEAD) {
        Some(rest) => read_rule(rest),
        None => None,
    }
}

/// Whether a text is a key of the form.
pub fn is_key(uri: &[char]) -> bool
    ensures { IsTrue result ↔ IsKey uri.now }
{
    match strip(uri, &SCHEME) {
        Some(rest) => all_letters_or(rest, '/') && !rest.is_empty() && rest.len() <= 64,
        None => false,
    }
}

/// Whether one of the alternatives has exactly these words.
pub fn has_alternative(alloc: Global, alternatives: &[char], words: &[Text]) -> Result<bool, Memory>
    ensures { IfOk result (λ found.
        IsTrue found ↔ Contains (alternatives_of alternatives.now) words.now) }
{
    let mut rest = alternatives;
    while let Some((part, behind)) = split_at_first(rest, '|') {
        if are_same(words_in(alloc, part)?.as_slice(), words) {
            return Ok(true);
        }
        rest = behind;
    }
    Ok(are_same(words_in(alloc, rest)?.as_slice(), words))
}
