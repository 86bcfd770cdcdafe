//! Which documents a document refers to.
ghost use Rattle.std.specs.Prelude.{◌≡◌, ◌↔◌, ◌++◌, ℕ, List, [], true, IfOk, OnOk, map, Contains};
ghost use Rattle.std.specs.Map.Iter.{deref};
ghost use Rattle.std.specs.List.{flat_map, AllByRecursion};
ghost use Rattle.uri_links.specs.Resolution.{is_absolute};
ghost use Rattle.rule_reader.specs.Imports.{HasScheme, IsReadable, IsReadableBase, IsResolvable, base_uri, extended, imported, imported_once, uri_of, uris_in, uris_of};

use grammar_tree::{Doc, Expansion, Goal, Rule};
use indexmap::IndexSet;
use std::alloc::Global;
use uri_links::{Uri, resolve, split_fragment};
use vg_base::{Memory, Refused, Text};

/// The keys of the documents to which the document under `key` refers, in order, each once.
///
/// A reference is resolved against the base of the document, and that against the key (SRGS 1.0 section 4.9; RFC 3986
/// section 5.2). A document may refer to itself.
pub fn imports(alloc: Global, doc: &Doc, key: &Uri) -> Result<Vec<Text>, Memory>
    requires resolvable { IsResolvable doc.now }
    requires key { is_absolute key.now ≡ true }
    ensures { IfOk result (λ keys. keys.items ≡ imported_once doc.now key.now) }
{
    Ok(imported_keys(alloc, doc, key)?.into_iter().collect(alloc)?)
}

/// The same as a set, in which a key is found at once.
pub fn imported_keys(alloc: Global, doc: &Doc, key: &Uri) -> Result<IndexSet<Text>, Memory>
    requires resolvable { IsResolvable doc.now }
    requires key { is_absolute key.now ≡ true }
    ensures once { IfOk result (λ found. found.keys ≡ imported_once doc.now key.now) }
    ensures same { IfOk result (λ found. (other : List ℕ) → Contains found.keys other
        ↔ Contains (imported doc.now key.now) other) }
{
    let keys = keys_once(alloc, doc, key)?;
    Ok(keys)
}

fn keys_once(alloc: Global, doc: &Doc, key: &Uri) -> Result<IndexSet<Text>, Memory>
    requires resolvable { IsResolvable doc.now }
    requires key { is_absolute key.now ≡ true }
    ensures { IfOk result (λ found. found.keys ≡ imported_once doc.now key.now) }
{
    let mut uris = Vec::new(alloc);
    add_uris_of(doc.rules.as_slice(), &mut uris)?;
    let base = base_uri(alloc, key, &doc.base)?;
    resolved(alloc, &base, &uris)
}

/// The URI against which the references of the document under `key` are resolved: the key, or the base that is declared,
/// resolved against the key, without fragment (SRGS 1.0 section 4.9).
#[tactic(auto, unfolding(uri_links::specs::Resolution::is_absolute))]
pub fn base_uri(alloc: Global, key: &Uri, base: &Option<Text>) -> Result<Uri, Memory>
    requires readable { IsReadableBase base.now }
    requires key { is_absolute key.now ≡ true }
    ensures value { IfOk result (λ uri. uri ≡ base_uri key.now base.now) }
    ensures scheme { IfOk result (λ uri. HasScheme uri) }
{
    match base {
        None => key.copy(),
        Some(base) => {
            let base = resolve(alloc, key, &read(alloc, base)?)?;
            Ok(split_fragment(alloc, &base)?.0)
        }
    }
}

fn read(alloc: Global, text: &Text) -> Result<Uri, Memory>
    requires { IsReadable text.now }
    ensures { IfOk result (λ uri. uri ≡ text.now) }
{
    match Uri::read(alloc, text) {
        Ok(uri) => Ok(uri),
        Err(Refused::Memory) => Err(Memory),
        Err(Refused::Fault(_)) => unreachable!(),
    }
}

/// The keys that these references mean, each once.
fn resolved(alloc: Global, base: &Uri, uris: &[&Text]) -> Result<IndexSet<Text>, Memory>
    requires readable { AllByRecursion IsReadable (map deref uris.now) }
    requires scheme { HasScheme base.now }
    ensures { IfOk result (λ found. found.keys ≡ extended base.now [] (map deref uris.now)) }
{
    let mut keys: IndexSet<Text> = IndexSet::new(alloc);
    for uri in uris {
        let key = resolve(alloc, base, &read(alloc, uri)?)?;
        keys.insert(key.text().copy()?)?;
    }
    Ok(keys)
}

/// Adds the references by URI of rules, in order.
fn add_uris_of<'a>(rules: &'a [Rule], uris: &mut Vec<&'a Text>) -> Result<(), Memory>
    ensures { OnOk result (map deref uris.new.items ≡ map deref uris.old.items ++ uris_of rules.now) }
{
    for rule in rules {
        add_uris_in(&rule.body, uris)?;
    }
    Ok(())
}

/// Adds the references by URI in the expansion.
#[cycle(add)]
#[tactic(auto, using(crate::proofs::UriLemmas::of_parts))]
fn add_uris_in<'a>(e: &'a Expansion, uris: &mut Vec<&'a Text>) -> Result<(), Memory>
    ensures { OnOk result (map deref uris.new.items ≡ map deref uris.old.items ++ uris_in e.now) }
{
    match e {
        Expansion::Seq(parts) | Expansion::Alt(parts) => add_uris_in_all(parts.as_slice(), uris),
        Expansion::Rep { inner, .. } => add_uris_in(inner.get(), uris),
        Expansion::Ref(reference) => add_uri_of(&reference.goal, uris),
        _ => Ok(()),
    }
}

#[cycle(add)]
fn add_uris_in_all<'a>(parts: &'a [Expansion], uris: &mut Vec<&'a Text>) -> Result<(), Memory>
    ensures { OnOk result (map deref uris.new.items ≡ map deref uris.old.items ++ flat_map uris_in parts.now) }
{
    for part in parts {
        add_uris_in(part, uris)?;
    }
    Ok(())
}

fn add_uri_of<'a>(goal: &'a Goal, uris: &mut Vec<&'a Text>) -> Result<(), Memory>
    ensures { OnOk result (map deref uris.new.items ≡ map deref uris.old.items ++ uri_of goal.now) }
{
    match goal {
        Goal::Local(_) => {}
        Goal::Named { uri, .. } | Goal::Root { uri } => uris.push(uri)?,
    }
    Ok(())
}
