//! A document whose references are followed.
ghost use Rattle.std.specs.Prelude.{◌≡◌, ◌<◌, ℕ, List, Option, Some, IfOk, length, slice_get};
ghost use Rattle.std.specs.Option.{option_copied};
ghost use Rattle.grammar_tree.specs.declared.document.Doc.{Doc};
ghost use Rattle.grammar_tree.specs.declared.document.ReadDoc.{ReadDoc};
ghost use Rattle.uri_links.specs.Resolution.{resolve};
ghost use Rattle.rule_reader.specs.Imports.{HasScheme, IsReadable};
ghost use Rattle.linker.specs.Readings.{Readings};
ghost use Rattle.linker.specs.Targets as targets;
ghost use Rattle.linker.specs.code.Tables.{IsKnown, IsTable};
ghost use Rattle.linker.specs.code.Scopes.{IsScope, IsReadableGoal};

use crate::tables::Known;
use crate::target::Target;
use grammar_tree::{DocSet, Goal};
use sqlite_items::at;
use std::alloc::Global;
use std::marker::Model;
use uri_links::{Uri, resolve};
use vg_base::{LinkKind, Memory, Mode, Refused, Text};

/// A URI against which references are resolved: it has a scheme.
#[derive(Debug, Drop)]
pub struct Base {
    uri: Uri,
}

impl Model for Base {
    ghost use Rattle.std.specs.Prelude.{List, ℕ};
    ghost use Rattle.rule_reader.specs.Imports.{HasScheme};

    ghost Value = { List ℕ };

    ghost view = { λ b. b.uri };

    ghost invariant = { λ b. HasScheme b.uri };
}

impl Base {
    pub(crate) fn new(uri: Uri) -> Base
        requires { HasScheme uri }
        ensures { result ≡ uri }
    {
        Base { uri }
    }

    pub(crate) fn uri(&self) -> &Uri
        ensures same { result.now ≡ self.now }
        ensures scheme { HasScheme self.now }
    {
        &self.uri
    }
}

/// A document of a set, by its place, with what is known of it and of the others.
#[derive(Clone, Copy)]
pub struct Scope<'a> {
    pub set: &'a DocSet,
    pub tables: &'a [Option<Known>],
    pub place: usize,
    pub key: &'a Text,
    pub own: &'a Known,
    pub base: &'a Base,
}

/// What a reference means in the document.
pub(crate) fn target(alloc: Global, scope: &Scope<'_>, goal: &Goal) -> Result<Target, Memory>
    ensures { IfOk result (λ target. (docs : Readings) (own : Doc) → IsScope docs own scope.now
        → IsReadableGoal goal.now → target ≡ targets.target docs scope.now.set.now scope.now.place scope.now.key.now own goal.now) }
{
    match goal {
        Goal::Local(name) => Ok(to_named(scope.own, name)),
        Goal::Named { uri, rule } => at_uri(alloc, scope, uri, Some(rule)),
        Goal::Root { uri } => at_uri(alloc, scope, uri, None),
    }
}

/// What stands where a reference by URI leads. A reference that can't be read leads nowhere.
fn at_uri(
    alloc: Global,
    scope: &Scope<'_>,
    uri: &Text,
    name: Option<&Text>,
) -> Result<Target, Memory>
    ensures { IfOk result (λ target. (docs : Readings) (own : Doc) → IsScope docs own scope.now
        → IsReadable uri.now → target ≡ targets.at_key docs scope.now.set.now scope.now.place own (resolve scope.now.base.now uri.now) (option_copied name.entry)) }
{
    let reference = match Uri::read(alloc, uri) {
        Ok(reference) => reference,
        Err(Refused::Memory) => return Err(Memory),
        Err(Refused::Fault(_)) => return Ok(Target::Untold),
    };
    let key = resolve(alloc, scope.base.uri(), &reference)?;
    match scope.set.position(key.text()) {
        None => Ok(Target::Fault(LinkKind::NoDocument)),
        Some(place) if place == scope.place => Ok(within(scope.own, name)),
        Some(place) => Ok(outside(scope, place, name)),
    }
}

/// In another document, at this place. There are as many tables as documents.
fn outside(scope: &Scope<'_>, place: usize, name: Option<&Text>) -> Target
    ensures { (docs : Readings) (own : Doc) → IsScope docs own scope.now → place < length scope.now.set.now
        → result ≡ targets.across docs own.mode place (slice_get docs place) (option_copied name.entry) }
{
    match at(scope.tables, place) {
        Some(other) => across(scope.own.mode, other, name),
        None => Target::Untold,
    }
}

/// By name, within the same document (SRGS 1.0 section 2.2.1).
fn to_named(known: &Known, name: &Text) -> Target
    ensures { (docs : Readings) (y : ℕ) (doc : Doc) → IsKnown (targets.rules_before docs y) doc known.now → result ≡ targets.to_named docs y doc name.now }
{
    match known.names.get(name) {
        Some(found) => Target::Rule(found.rule),
        None => Target::Fault(LinkKind::NoRule),
    }
}

fn to_root(known: &Known) -> Target
    ensures { (docs : Readings) (y : ℕ) (doc : Doc) → IsKnown (targets.rules_before docs y) doc known.now → result ≡ targets.to_root docs y doc }
{
    match known.root {
        Some(rule) => Target::Rule(rule),
        None => Target::Fault(LinkKind::NoRoot),
    }
}

/// By name, from another document: the rule must be public (section 3.2).
fn to_public(known: &Known, name: &Text) -> Target
    ensures { (docs : Readings) (y : ℕ) (doc : Doc) → IsKnown (targets.rules_before docs y) doc known.now → result ≡ targets.to_public docs y doc name.now }
{
    match known.names.get(name) {
        Some(found) if found.public => Target::Rule(found.rule),
        Some(_) => Target::Fault(LinkKind::NotPublic),
        None => Target::Fault(LinkKind::NoRule),
    }
}

fn within(known: &Known, name: Option<&Text>) -> Target
    ensures { (docs : Readings) (y : ℕ) (doc : Doc) → IsKnown (targets.rules_before docs y) doc known.now → result ≡ targets.within docs y doc (option_copied name.entry) }
{
    match name {
        Some(name) => to_named(known, name),
        None => to_root(known),
    }
}

/// From a document of this mode to another one, which has a table where it has no fault.
fn across(own: Mode, other: &Option<Known>, name: Option<&Text>) -> Target
    ensures { (docs : Readings) (y : ℕ) (reading : Option ReadDoc) → IsTable (targets.rules_before docs y) reading other.now
        → result ≡ targets.across docs own y (Some reading) (option_copied name.entry) }
{
    let Some(known) = other else {
        return Target::Untold;
    };
    if known.mode != own {
        return Target::Fault(LinkKind::ModeDiffers);
    }
    match name {
        Some(name) => to_public(known, name),
        None => to_root(known),
    }
}
