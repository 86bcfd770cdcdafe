//! Dot segments are taken out of a path (RFC 3986 section 5.2.4).
ghost use Rattle.std.specs.Prelude.{◌≡◌, IfOk};
ghost use Rattle.std.specs.String.{string_bytes};
ghost use Rattle.uri_links.specs.Split.{before_last, slash};
ghost use Rattle.uri_links.specs.code.Kinds.{IsKind, or_slash, behind_slash};
ghost use Rattle.uri_links.specs.Dots.{first_segment, after_segment, remove_dot_segments};

use crate::parts::split_before_slash;
use std::alloc::{AllocError, Global};

/// What a segment is, with the slash before it if it has one.
enum Kind {
    /// `.` or `..`
    Bare,
    /// `/.`
    Here,
    /// `/..`
    Up,
    /// any other
    Plain,
}

/// A path without its dot segments.
pub(crate) fn without_dot_segments(alloc: Global, path: &str) -> Result<String, AllocError>
    ensures { IfOk result (λ output. string_bytes output ≡ remove_dot_segments path.now) }
{
    let mut output = String::new(alloc);
    let mut rest = path;
    while !rest.is_empty() {
        let (segment, after) = split_segment(rest);
        match kind_of(segment) {
            Kind::Bare => rest = behind_slash(after),
            Kind::Here => rest = or_slash(after),
            Kind::Up => {
                drop_segment(&mut output);
                rest = or_slash(after);
            }
            Kind::Plain => {
                output.push_str(segment)?;
                rest = after;
            }
        }
    }
    Ok(output)
}

fn kind_of(segment: &str) -> Kind
    ensures { IsKind result segment.now }
{
    match segment {
        "." | ".." => Kind::Bare,
        "/." => Kind::Here,
        "/.." => Kind::Up,
        _ => Kind::Plain,
    }
}

/// The first segment of a path with the slash before it, and what comes after it.
fn split_segment(path: &str) -> (&str, &str)
    ensures segment { result.0.now ≡ first_segment path.now }
    ensures after { result.1.now ≡ after_segment path.now }
{
    match path.strip_prefix('/') {
        Some(inner) => match inner.find('/') {
            Some(at) => path.split_at(at + 1),
            None => (path, ""),
        },
        None => split_before_slash(path),
    }
}

/// A slash, where nothing is left of a path.
fn or_slash(rest: &str) -> &str
    ensures { result.now ≡ or_slash rest.now }
{
    if rest.is_empty() { "/" } else { rest }
}

/// What comes after a slash, where the path begins with one.
fn behind_slash(path: &str) -> &str
    ensures { result.now ≡ behind_slash path.now }
{
    path.strip_prefix('/').unwrap_or(path)
}

/// Takes the last segment away, with the slash before it.
fn drop_segment(output: &mut String)
    ensures { string_bytes output.new ≡ before_last slash (string_bytes output.old) }
{
    let end = output.rfind('/').unwrap_or(0);
    output.truncate(end);
}
