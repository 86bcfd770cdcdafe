//! The parts of a reference (RFC 3986 appendix B), and how they are put together (section 5.3).
ghost use Rattle.std.specs.Prelude.{◌≡◌, ◌<◌, IfOk};
ghost use Rattle.std.specs.Option.{option_copied};
ghost use Rattle.std.specs.String.{string_bytes};
ghost use Rattle.uri_links.specs.Split.{before, from, after, slash};
ghost use Rattle.uri_links.specs.Parts.{parts, recompose, scheme_of, after_scheme, authority_of, path_of};
ghost use Rattle.uri_links.specs.code.Seen.{seen};

use std::alloc::{AllocError, Global};

/// The parts of a reference, as slices of its text.
#[derive(Clone, Copy)]
pub(crate) struct Parts<'a> {
    pub(crate) scheme: Option<&'a str>,
    pub(crate) authority: Option<&'a str>,
    pub(crate) path: &'a str,
    pub(crate) query: Option<&'a str>,
    pub(crate) fragment: Option<&'a str>,
}

pub(crate) fn split(text: &str) -> Parts<'_>
    ensures { seen result ≡ parts text.now }
{
    let (front, fragment) = split_at_mark(text, '#');
    let (body, query) = split_at_mark(front, '?');
    let (scheme, hier) = split_scheme(body);
    let (authority, path) = split_authority(hier);
    Parts {
        scheme,
        authority,
        path,
        query,
        fragment,
    }
}

/// A text before and after its first such character.
pub(crate) fn split_at_mark(text: &str, mark: char) -> (&str, Option<&str>)
    requires { mark < 128 }
    ensures front { result.0.now ≡ before mark text.now }
    ensures back { option_copied result.1 ≡ after mark text.now }
{
    match text.split_once(mark) {
        Some((front, back)) => (front, Some(back)),
        None => (text, None),
    }
}

fn split_scheme(body: &str) -> (Option<&str>, &str)
    ensures scheme { option_copied result.0 ≡ scheme_of body.now }
    ensures hier { result.1.now ≡ after_scheme body.now }
{
    match body.split_once(':') {
        Some((scheme, hier)) => {
            if scheme.contains('/') {
                (None, body)
            } else {
                (Some(scheme), hier)
            }
        }
        None => (None, body),
    }
}

fn split_authority(hier: &str) -> (Option<&str>, &str)
    ensures authority { option_copied result.0 ≡ authority_of hier.now }
    ensures path { result.1.now ≡ path_of hier.now }
{
    match hier.strip_prefix("//") {
        Some(inner) => {
            let (authority, path) = split_before_slash(inner);
            (Some(authority), path)
        }
        None => (None, hier),
    }
}

/// A text before its first slash, and from it on.
pub(crate) fn split_before_slash(text: &str) -> (&str, &str)
    ensures front { result.0.now ≡ before slash text.now }
    ensures back { result.1.now ≡ from slash text.now }
{
    match text.find('/') {
        Some(at) => text.split_at(at),
        None => (text, ""),
    }
}

/// The parts put together.
pub(crate) fn joined(alloc: Global, parts: &Parts) -> Result<String, AllocError>
    ensures { IfOk result (λ text. string_bytes text ≡ recompose (seen parts.now)) }
{
    let mut text = String::new(alloc);
    if let Some(scheme) = parts.scheme {
        text.push_str(scheme)?;
        text.push_str(":")?;
    }
    if let Some(authority) = parts.authority {
        text.push_str("//")?;
        text.push_str(authority)?;
    }
    text.push_str(parts.path)?;
    if let Some(query) = parts.query {
        text.push_str("?")?;
        text.push_str(query)?;
    }
    if let Some(fragment) = parts.fragment {
        text.push_str("#")?;
        text.push_str(fragment)?;
    }
    Ok(text)
}
