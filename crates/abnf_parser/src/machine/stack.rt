//! What is open while a document is read.
ghost use Rattle.std.specs.Prelude.{◌≡◌, [], ◌∷◌, OnOk, MatchOption};

use crate::written::{Declaration, Written, WrittenRule};
use abnf_lexer::Spanned;
use std::alloc::Global;
use std::marker::Model;
use vg_base::{Items, Memory};

/// A `Vec` that contracts see as the list of its elements, the last one first.
#[derive(Drop)]
pub struct Stack<T> {
    items: Vec<T>,
}

impl<T> Model for Stack<T> {
    ghost use Rattle.std.specs.Prelude.{List, reverse};
    ghost use Rattle.std.specs.Coded.{coded_list};

    ghost Value = { List T };

    ghost coded = { coded_list T.code };

    ghost view = { λ s. reverse s.items.items };
}

impl<T> Stack<T> {
    pub fn new(alloc: Global) -> Stack<T>
        ensures { result ≡ [] }
    {
        Stack {
            items: Vec::new(alloc),
        }
    }

    pub fn pop(&mut self) -> Option<T>
        ensures { MatchOption result ((self.old ≡ []) × (self.new ≡ []))
            (λ x. self.old ≡ x ∷ self.new) }
    {
        self.items.pop()
    }
}

impl<T: Drop> Stack<T> {
    pub fn push(&mut self, item: T) -> Result<(), Memory>
        ensures { OnOk result (self.new ≡ item ∷ self.old) }
    {
        self.items.push(item)?;
        Ok(())
    }
}

/// What was read of the alternatives in a bracket, or of a rule's.
#[derive(Drop)]
pub struct Frame {
    /// The alternatives before this one.
    pub done: Items<Written>,
    /// The weight of this one.
    pub weight: Option<Spanned>,
    /// Its items so far.
    pub items: Items<Written>,
}

/// Which bracket is open.
#[derive(Clone, Copy, Debug, PartialEq, Eq)]
pub enum Around {
    Round,
    Square,
}

/// An open bracket, and what was read before it.
#[derive(Drop)]
pub struct Outer {
    pub around: Around,
    pub frame: Frame,
}

/// Where reading stands in alternatives.
#[derive(Drop)]
pub enum Point {
    /// Before an alternative.
    Start,
    /// Before the first item of an alternative.
    First,
    /// Behind `(`.
    Opened,
    /// Behind an item that takes nothing more.
    Items,
    /// Behind an atom.
    Atom(Written),
    /// Behind an atom and its language.
    Spoken(Written),
    /// Behind an atom and its repeat.
    Repeated(Written),
}

/// The body of a rule that is being read.
#[derive(Drop)]
pub struct Body {
    pub outer: Stack<Outer>,
    pub frame: Frame,
    pub point: Point,
}

/// What a lexeme does to a body.
#[derive(Drop)]
pub enum Turn {
    On(Body),
    /// The body ended before it, which is the `;` of the rule.
    Ended(Written),
    Unfit,
}

/// What a declaration waits for.
#[derive(Clone, Copy, Debug, PartialEq, Eq)]
pub enum Expected {
    Code,
    ModeName,
    RuleName,
    Untyped,
    Angle,
    MetaName,
    Is,
    Content,
    Semicolon,
}

/// Where reading stands in a document.
#[derive(Drop)]
pub enum Phase {
    /// Before a declaration or a rule.
    Declarations,
    /// Before a rule.
    Rules,
    /// In a declaration.
    Declaring {
        declaration: Declaration,
        expected: Expected,
    },
    /// Behind `public` or `private`.
    Scoped {
        public: bool,
    },
    /// Behind a rule's name.
    Named {
        public: bool,
        name: Spanned,
    },
    /// Behind its `=`.
    Inside {
        public: bool,
        name: Spanned,
        body: Body,
    },
}

/// A document that is being read.
#[derive(Drop)]
pub struct Reader {
    pub declarations: Items<Declaration>,
    pub rules: Items<WrittenRule>,
    pub phase: Phase,
}
