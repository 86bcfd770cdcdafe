//! The codes of languages.
ghost use Rattle.std.specs.Prelude.{◌≡◌, ◌↔◌, ◌&&◌, IsTrue, nat_le};
ghost use Rattle.abnf_lexer.specs.Codes.{IsCode};
ghost use Rattle.abnf_lexer.specs.code.Front as spec;

use crate::classes::{is_letter, is_letter_or_digit};

/// Whether so many characters make a part of a code.
fn is_part(len: usize) -> bool
    ensures { result ≡ spec.is_part len }
{
    1 <= len && len <= 8
}

/// Whether the first or a later part of a code may have the character.
fn is_allowed(first: bool, c: char) -> bool
    ensures { result ≡ spec.is_allowed first c }
{
    if first {
        is_letter(c)
    } else {
        is_letter_or_digit(c)
    }
}

/// Whether characters are the code of a language.
#[tactic(auto, using(crate::proofs::CodeForms::code_form, crate::proofs::CodeForms::code_read))]
pub fn is_code(text: &[char]) -> bool
    ensures { IsTrue result ↔ IsCode text.now }
{
    reads_code(text)
}

/// Whether characters go on as the code of a language, part by part.
pub(crate) fn reads_code(text: &[char]) -> bool
    ensures { result ≡ spec.is_code text.now }
{
    let mut first = true;
    let mut len = 0;
    for c in text {
        if *c != '-' {
            if !is_allowed(first, *c) {
                return false;
            }
            len += 1;
        } else {
            if !is_part(len) {
                return false;
            }
            first = false;
            len = 0;
        }
    }
    is_part(len)
}
