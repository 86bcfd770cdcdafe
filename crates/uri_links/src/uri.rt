//! References: a text, as it stands or as a key.
ghost use Rattle.std.specs.Prelude.{◌≡◌, true, is_some, IfOk, IsSome, None};
ghost use Rattle.vg_base.specs.Refusals.{Gives};
ghost use Rattle.uri_links.specs.Allowed.{are_good, is_reference};
ghost use Rattle.uri_links.specs.Dots.{remove_dot_segments};
ghost use Rattle.uri_links.specs.Faults.{reading_fault, key_fault, unless};
ghost use Rattle.uri_links.specs.Parts.{parts, recompose};
ghost use Rattle.uri_links.specs.Resolution.{is_absolute, key};
ghost use Rattle.uri_links.specs.code.Seen.{seen};

use crate::allowed::is_reference;
use crate::dots::without_dot_segments;
use crate::fault::{UriFault, UriRefused};
use crate::parts::{Parts, joined, split};
use std::alloc::Global;
use std::marker::Model;
use vg_base::limits::URI_BYTES;
use vg_base::{Memory, Refused, Text};

/// A reference: a URI, or one that has to be resolved (RFC 3986 section 4.1). It is its text; what is resolved
/// may be longer than what is read.
#[derive(Debug, Drop, PartialEq, Eq)]
pub struct Uri {
    text: Text,
}

impl Model for Uri {
    ghost use Rattle.std.specs.Prelude.{◌≡◌, true, List, ℕ};
    ghost use Rattle.uri_links.specs.Allowed.{is_reference};

    ghost Value = { List ℕ };

    ghost view = { λ u. u.text };

    ghost inverse = { λ d. record { text = d } };

    ghost invariant = { λ u. is_reference u.text ≡ true };
}

impl Uri {
    /// Reads a reference.
    pub fn read(alloc: Global, text: &Text) -> Result<Uri, UriRefused>
        ensures { Gives result (unless (reading_fault text.now) text.now) }
    {
        if let Some(fault) = reading_fault(text) {
            return Err(Refused::Fault(fault));
        }
        Ok(made(alloc, text.as_str())?)
    }

    /// Reads the key of a document: a URI with a scheme and without a fragment, whose dot segments are taken out.
    pub fn read_key(alloc: Global, text: &Text) -> Result<Uri, UriRefused>
        ensures answer { Gives result (unless (key_fault text.now) (key text.now)) }
        ensures absolute { IfOk result (λ uri. is_absolute uri ≡ true) }
        ensures readable { IfOk result (λ uri. reading_fault uri ≡ None) }
    {
        if let Some(fault) = key_fault(text) {
            return Err(Refused::Fault(fault));
        }
        Ok(without_dots(alloc, &split(text.as_str()))?)
    }

    pub fn text(&self) -> &Text
        ensures same { result.now ≡ self.now }
        ensures reference { is_reference self.now ≡ true }
    {
        &self.text
    }

    pub fn copy(&self) -> Result<Uri, Memory>
        ensures { IfOk result (λ uri. uri ≡ self.now) }
    {
        Ok(Uri {
            text: self.text.copy()?,
        })
    }

    /// Whether it has a scheme, so that others can be resolved against it.
    pub fn has_scheme(&self) -> bool
        ensures { result ≡ is_some (parts self.now).scheme }
    {
        split(self.as_str()).scheme.is_some()
    }

    /// Its bytes, which are its characters: a reference is of ASCII.
    pub(crate) fn as_str(&self) -> &str
        ensures same { result.now ≡ self.now }
        ensures reference { is_reference self.now ≡ true }
    {
        self.text.as_str()
    }
}

fn reading_fault(text: &Text) -> Option<UriFault>
    ensures { result ≡ reading_fault text.now }
{
    let text = text.as_str();
    if text.len() as u64 > URI_BYTES {
        Some(UriFault::UriLong)
    } else if is_reference(text) {
        None
    } else {
        Some(UriFault::NotUri)
    }
}

fn key_fault(text: &Text) -> Option<UriFault>
    ensures { result ≡ key_fault text.now }
{
    if let Some(fault) = reading_fault(text) {
        return Some(fault);
    }
    if is_absolute(text.as_str()) {
        None
    } else {
        Some(UriFault::NotAbsolute)
    }
}

#[tactic(auto, unfolding(crate::specs::Resolution::is_absolute))]
fn is_absolute(text: &str) -> bool
    ensures { result ≡ is_absolute text.now }
{
    let parts = split(text);
    parts.scheme.is_some() && parts.fragment.is_none()
}

pub(crate) fn made(alloc: Global, text: &str) -> Result<Uri, Memory>
    requires { is_reference text.now ≡ true }
    ensures { IfOk result (λ uri. uri ≡ text.now) }
{
    Ok(Uri {
        text: Text::of(alloc, text)?,
    })
}

pub(crate) fn put_together(alloc: Global, parts: &Parts) -> Result<Uri, Memory>
    requires good { are_good (seen parts.now) ≡ true }
    requires scheme { IsSome (seen parts.now).scheme }
    ensures { IfOk result (λ uri. uri ≡ recompose (seen parts.now)) }
{
    Ok(Uri {
        text: Text::from_string(joined(alloc, parts)?),
    })
}

/// The parts put together, with the path's dot segments taken out.
pub(crate) fn without_dots(alloc: Global, parts: &Parts) -> Result<Uri, Memory>
    requires good { are_good (seen parts.now) ≡ true }
    requires scheme { IsSome (seen parts.now).scheme }
    ensures { IfOk result (λ uri. let p = seen parts.now in uri ≡ recompose (record p { path = remove_dot_segments p.path })) }
{
    let path = without_dot_segments(alloc, parts.path)?;
    put_together(
        alloc,
        &Parts {
            path: path.as_str(),
            ..*parts
        },
    )
}
