//! Which characters the parts of a reference may have (RFC 3986 section 2 and appendix A).
ghost use Rattle.std.specs.Prelude.{◌≡◌};
ghost use Rattle.std.specs.Option.{option_copied};
ghost use Rattle.std.specs.List.{list_all};
ghost use Rattle.uri_links.specs.code.Seen.{seen};
ghost use Rattle.uri_links.specs.Allowed.{are_good, is_scheme, is_scheme_character, is_allowed, begins_hexadecimal, are_allowed, is_absent_or, is_reference};

use crate::parts::{Parts, split};

const MARKS: &[u8] = b"-._~!$&'()*+,;=:@";

/// Whether a text is a reference.
#[tactic(auto, unfolding(crate::specs::Allowed::is_reference))]
pub(crate) fn is_reference(text: &str) -> bool
    ensures { result ≡ is_reference text.now }
{
    are_good(&split(text))
}

/// Whether each part has allowed characters alone.
fn are_good(parts: &Parts) -> bool
    ensures { result ≡ are_good (seen parts.now) }
{
    is_absent_or_scheme(parts.scheme)
        && is_absent_or_allowed(parts.authority, b"[]")
        && are_allowed(parts.path.as_bytes(), b"/")
        && is_absent_or_allowed(parts.query, b"/?")
        && is_absent_or_allowed(parts.fragment, b"/?")
}

fn is_absent_or_scheme(part: Option<&str>) -> bool
    ensures { result ≡ is_absent_or is_scheme (option_copied part.entry) }
{
    match part {
        Some(part) => is_scheme(part.as_bytes()),
        None => true,
    }
}

fn is_scheme(text: &[u8]) -> bool
    ensures { result ≡ is_scheme text.now }
{
    match text.split_first() {
        Some((first, others)) => first.is_ascii_alphabetic() && are_scheme_characters(others),
        None => false,
    }
}

fn are_scheme_characters(text: &[u8]) -> bool
    ensures { result ≡ list_all is_scheme_character text.now }
{
    text.iter().all(|c| is_scheme_character(*c))
}

fn is_scheme_character(c: u8) -> bool
    ensures { result ≡ is_scheme_character c }
{
    c.is_ascii_alphanumeric() || b"+-.".contains(&c)
}

fn is_absent_or_allowed(part: Option<&str>, also: &[u8]) -> bool
    ensures { result ≡ is_absent_or (are_allowed also.now) (option_copied part.entry) }
{
    match part {
        Some(part) => are_allowed(part.as_bytes(), also),
        None => true,
    }
}

/// Whether each character is allowed, or is a `%` with two hexadecimal digits behind it.
fn are_allowed(text: &[u8], also: &[u8]) -> bool
    ensures { result ≡ are_allowed also.now text.now }
{
    let mut rest = text;
    while let Some((c, others)) = rest.split_first() {
        if !is_allowed(*c, also) && !(*c == b'%' && begins_hexadecimal(others)) {
            return false;
        }
        rest = others;
    }
    true
}

fn is_allowed(c: u8, also: &[u8]) -> bool
    ensures { result ≡ is_allowed also.now c }
{
    c.is_ascii_alphanumeric() || MARKS.contains(&c) || also.contains(&c)
}

fn begins_hexadecimal(text: &[u8]) -> bool
    ensures { result ≡ begins_hexadecimal text.now }
{
    match text {
        [a, b, ..] => a.is_ascii_hexdigit() && b.is_ascii_hexdigit(),
        _ => false,
    }
}
