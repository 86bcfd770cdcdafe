//! Resolution of a reference against a base (RFC 3986 section 5.2, strict).
ghost use Rattle.std.specs.Prelude.{◌≡◌, true, IfOk, IsSome, None};
ghost use Rattle.std.specs.String.{string_bytes};
ghost use Rattle.uri_links.specs.Allowed.{are_good};
ghost use Rattle.uri_links.specs.Parts.{parts, recompose};
ghost use Rattle.uri_links.specs.Resolution.{merge, resolve, target, target_path};
ghost use Rattle.uri_links.specs.code.Seen.{seen};
ghost use Rattle.uri_links.specs.Split.{before, up_to_last, slash, hash};

use crate::parts::{Parts, split, split_at_mark};
use crate::uri::{Uri, made, put_together, without_dots};
use std::alloc::{AllocError, Global};
use vg_base::{Memory, Text};

/// The URI that a reference means where the base stands.
pub fn resolve(alloc: Global, base: &Uri, reference: &Uri) -> Result<Uri, Memory>
    requires { IsSome (parts base.now).scheme }
    ensures resolved { IfOk result (λ uri. uri ≡ resolve base.now reference.now) }
    ensures scheme { IfOk result (λ uri. IsSome (parts uri).scheme) }
{
    target(alloc, &split(base.as_str()), &split(reference.as_str()))
}

/// The parts of the target (section 5.2.2), put together.
fn target<'a>(alloc: Global, base: &Parts<'a>, reference: &Parts<'a>) -> Result<Uri, Memory>
    requires good_base { are_good (seen base.now) ≡ true }
    requires good_reference { are_good (seen reference.now) ≡ true }
    requires scheme { IsSome (seen base.now).scheme }
    ensures { IfOk result (λ uri. uri ≡ recompose (target (seen base.now) (seen reference.now))) }
{
    if reference.scheme.is_some() {
        return without_dots(alloc, reference);
    }
    if reference.authority.is_some() {
        return without_dots(
            alloc,
            &Parts {
                scheme: base.scheme,
                ..*reference
            },
        );
    }
    if reference.path.is_empty() {
        return put_together(
            alloc,
            &Parts {
                query: reference.query.or(base.query),
                fragment: reference.fragment,
                ..*base
            },
        );
    }
    let path = target_path(alloc, base, reference.path)?;
    without_dots(
        alloc,
        &Parts {
            path: path.as_str(),
            query: reference.query,
            fragment: reference.fragment,
            ..*base
        },
    )
}

/// The reference's path where it begins with a slash, and else the merged path.
fn target_path(alloc: Global, base: &Parts, path: &str) -> Result<String, AllocError>
    ensures { IfOk result (λ target. string_bytes target ≡ target_path (seen base.now) path.now) }
{
    if path.starts_with('/') {
        String::from_str(alloc, path)
    } else {
        merged(alloc, base, path)
    }
}

/// The reference's path in place of what stands behind the last slash of the base's (section 5.2.3).
fn merged(alloc: Global, base: &Parts, path: &str) -> Result<String, AllocError>
    ensures { IfOk result (λ merged. string_bytes merged ≡ merge (seen base.now) path.now) }
{
    let mut merged = String::new(alloc);
    if base.authority.is_some() && base.path.is_empty() {
        merged.push_str("/")?;
    } else {
        merged.push_str(up_to_last_slash(base.path))?;
    }
    merged.push_str(path)?;
    Ok(merged)
}

fn up_to_last_slash(path: &str) -> &str
    ensures { result.now ≡ up_to_last slash path.now }
{
    match path.rfind('/') {
        Some(at) => path.split_at(at + 1).0,
        None => "",
    }
}

/// The URI before the `#`, and the fragment after it.
pub fn split_fragment(alloc: Global, uri: &Uri) -> Result<(Uri, Option<Text>), Memory>
    ensures front { IfOk result (λ found. found.0 ≡ before hash uri.now) }
    ensures fragment { IfOk result (λ found. found.1 ≡ (parts uri.now).fragment) }
    ensures others { IfOk result (λ found. parts found.0 ≡ record (parts uri.now) { fragment = None }) }
{
    let (front, fragment) = split_at_mark(uri.as_str(), '#');
    let front = made(alloc, front)?;
    match fragment {
        Some(fragment) => Ok((front, Some(Text::of(alloc, fragment)?))),
        None => Ok((front, None)),
    }
}
