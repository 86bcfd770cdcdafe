//! Classes of characters that tell lexemes apart.
ghost use Rattle.std.specs.Prelude.{◌≡◌};
ghost use Rattle.abnf_lexer.specs.Classes as class;

use vg_base::is_space;

pub(crate) fn is_sign(c: char) -> bool
    ensures { result ≡ class.is_sign c }
{
    matches!(c, ';' | '=' | '|' | '(' | ')' | '[' | ']')
}

fn is_special(c: char) -> bool
    ensures { result ≡ class.is_special c }
{
    is_sign(c) || matches!(c, '<' | '>' | '{' | '}' | '/' | '$' | '"' | '!')
}

pub(crate) fn is_bare(c: char) -> bool
    ensures { result ≡ class.is_bare c }
{
    !(is_space(c) || is_special(c))
}

pub(crate) fn is_letter(c: char) -> bool
    ensures { result ≡ class.is_letter c }
{
    matches!(c, 'A'..='Z' | 'a'..='z')
}

pub(crate) fn is_letter_or_digit(c: char) -> bool
    ensures { result ≡ class.is_letter_or_digit c }
{
    matches!(c, 'A'..='Z' | 'a'..='z' | '0'..='9')
}

pub(crate) fn is_code_character(c: char) -> bool
    ensures { result ≡ class.is_code_character c }
{
    is_letter_or_digit(c) || c == '-'
}

pub(crate) fn is_joint(c: char) -> bool
    ensures { result ≡ class.is_joint c }
{
    matches!(c, '.' | ':' | '-')
}

pub(crate) fn is_blank(c: char) -> bool
    ensures { result ≡ class.is_blank c }
{
    matches!(c, ' ' | '\t')
}

pub(crate) fn is_field(c: char) -> bool
    ensures { result ≡ class.is_field c }
{
    !(is_space(c) || c == ';')
}
