//! Copies of documents, of linked nodes' contents and of parse trees, each equal to what it was made from.

ghost use Rattle.std.specs.Prelude.{◌≡◌, IfOk};

use crate::document::{Doc, ReadDoc, Rule};
use crate::expansion::{Expansion, Goal, Reference, TagNode};
use crate::parse_tree::ParseTree;
use sqlite_items::{Boxed, Items};
use std::alloc::Global;
use vg_base::{Memory, Script, Text, Word};

impl Goal {
    pub fn copy(&self) -> Result<Goal, Memory>
        ensures { IfOk result (λ copy. copy ≡ self.now) }
    {
        match self {
            Goal::Local(rule) => Ok(Goal::Local(rule.copy()?)),
            Goal::Named { uri, rule } => Ok(Goal::Named {
                uri: uri.copy()?,
                rule: rule.copy()?,
            }),
            Goal::Root { uri } => Ok(Goal::Root { uri: uri.copy()? }),
        }
    }
}

impl Reference {
    pub fn copy(&self) -> Result<Reference, Memory>
        ensures { IfOk result (λ copy. copy ≡ self.now) }
    {
        Ok(Reference {
            place: self.place,
            goal: self.goal.copy()?,
        })
    }
}

impl TagNode {
    pub fn copy(&self, alloc: Global) -> Result<TagNode, Memory>
        ensures { IfOk result (λ copy. copy ≡ self.now) }
    {
        Ok(TagNode {
            place: self.place,
            text: self.text.copy()?,
            script: copy_script(alloc, &self.script)?,
        })
    }
}

fn copy_script(alloc: Global, script: &Option<Script>) -> Result<Option<Script>, Memory>
    ensures { IfOk result (λ copy. copy ≡ script.now) }
{
    match script {
        None => Ok(None),
        Some(script) => Ok(Some(script.copy(alloc)?)),
    }
}

fn copy_text(text: &Option<Text>) -> Result<Option<Text>, Memory>
    ensures { IfOk result (λ copy. copy ≡ text.now) }
{
    match text {
        None => Ok(None),
        Some(text) => Ok(Some(text.copy()?)),
    }
}

/// The words of a token.
pub fn copy_words(alloc: Global, words: &[Word]) -> Result<Items<Word>, Memory>
    ensures { IfOk result (λ copy. copy ≡ words.now) }
{
    let mut copy = Items::new(alloc);
    for word in words {
        copy.push(word.copy()?)?;
    }
    Ok(copy)
}

#[cycle(copy_expansion)]
fn copy_parts(alloc: Global, parts: &[Expansion]) -> Result<Items<Expansion>, Memory>
    ensures { IfOk result (λ copy. copy ≡ parts.now) }
{
    let mut copy = Items::new(alloc);
    for part in parts {
        copy.push(part.copy(alloc)?)?;
    }
    Ok(copy)
}

impl Expansion {
    #[cycle(copy_expansion)]
    pub fn copy(&self, alloc: Global) -> Result<Expansion, Memory>
        ensures { IfOk result (λ copy. copy ≡ self.now) }
    {
        match self {
            Expansion::Token(words) => Ok(Expansion::Token(copy_words(alloc, words.as_slice())?)),
            Expansion::Seq(parts) => Ok(Expansion::Seq(copy_parts(alloc, parts.as_slice())?)),
            Expansion::Alt(parts) => Ok(Expansion::Alt(copy_parts(alloc, parts.as_slice())?)),
            Expansion::Rep { least, most, inner } => Ok(Expansion::Rep {
                least: *least,
                most: *most,
                inner: Boxed::new(alloc, inner.get().copy(alloc)?)?,
            }),
            Expansion::Ref(reference) => Ok(Expansion::Ref(reference.copy()?)),
            Expansion::Tag(tag) => Ok(Expansion::Tag(tag.copy(alloc)?)),
            Expansion::Null => Ok(Expansion::Null),
            Expansion::Void => Ok(Expansion::Void),
            Expansion::Garbage => Ok(Expansion::Garbage),
        }
    }
}

impl Rule {
    pub fn copy(&self, alloc: Global) -> Result<Rule, Memory>
        ensures { IfOk result (λ copy. copy ≡ self.now) }
    {
        Ok(Rule {
            place: self.place,
            public: self.public,
            name: self.name.copy()?,
            body: self.body.copy(alloc)?,
        })
    }
}

fn copy_rules(alloc: Global, rules: &[Rule]) -> Result<Items<Rule>, Memory>
    ensures { IfOk result (λ copy. copy ≡ rules.now) }
{
    let mut copy = Items::new(alloc);
    for rule in rules {
        copy.push(rule.copy(alloc)?)?;
    }
    Ok(copy)
}

impl Doc {
    pub fn copy(&self, alloc: Global) -> Result<Doc, Memory>
        ensures { IfOk result (λ copy. copy ≡ self.now) }
    {
        Ok(Doc {
            mode: self.mode,
            root: copy_text(&self.root)?,
            format: self.format,
            base: copy_text(&self.base)?,
            rules: copy_rules(alloc, self.rules.as_slice())?,
        })
    }
}

impl ReadDoc {
    pub fn copy(&self, alloc: Global) -> Result<ReadDoc, Memory>
        ensures { IfOk result (λ copy. copy ≡ self.now) }
    {
        match self {
            ReadDoc::Good(doc) => Ok(ReadDoc::Good(doc.copy(alloc)?)),
            ReadDoc::Bad(fault) => Ok(ReadDoc::Bad(*fault)),
        }
    }
}

#[cycle(copy_tree)]
fn copy_trees(alloc: Global, trees: &[ParseTree]) -> Result<Items<ParseTree>, Memory>
    ensures { IfOk result (λ copy. copy ≡ trees.now) }
{
    let mut copy = Items::new(alloc);
    for tree in trees {
        copy.push(tree.copy(alloc)?)?;
    }
    Ok(copy)
}

impl ParseTree {
    #[cycle(copy_tree)]
    pub fn copy(&self, alloc: Global) -> Result<ParseTree, Memory>
        ensures { IfOk result (λ copy. copy ≡ self.now) }
    {
        match self {
            ParseTree::Token(words) => Ok(ParseTree::Token(copy_words(alloc, words.as_slice())?)),
            ParseTree::Seq(trees) => Ok(ParseTree::Seq(copy_trees(alloc, trees.as_slice())?)),
            ParseTree::Alt { taken, inner } => Ok(ParseTree::Alt {
                taken: *taken,
                inner: Boxed::new(alloc, inner.get().copy(alloc)?)?,
            }),
            ParseTree::Rep(trees) => Ok(ParseTree::Rep(copy_trees(alloc, trees.as_slice())?)),
            ParseTree::Rule { rule, inner } => Ok(ParseTree::Rule {
                rule: *rule,
                inner: Boxed::new(alloc, inner.get().copy(alloc)?)?,
            }),
            ParseTree::Tag(node) => Ok(ParseTree::Tag(*node)),
            ParseTree::Null => Ok(ParseTree::Null),
            ParseTree::Garbage(words) => Ok(ParseTree::Garbage(copy_words(
                alloc,
                words.as_slice(),
            )?)),
        }
    }
}
