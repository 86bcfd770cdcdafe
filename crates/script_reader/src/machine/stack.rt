//! What is open while a script is read.
ghost use Rattle.std.specs.Prelude.{◌≡◌, [], ◌∷◌, OnOk, MatchOption, length};

use sqlite_items::Items;
use std::alloc::Global;
use std::marker::Model;
use vg_base::{AssignOp, BinOp, Expr, Key, Memory, Root, Stmt, Text, UnOp};

/// A `Vec` that contracts see as the list of its elements, the last one first.
#[derive(Drop)]
pub struct Stack<T> {
    items: Vec<T>,
}

impl<T> Model for Stack<T> {
    ghost use Rattle.std.specs.Prelude.{List, reverse};
    ghost use Rattle.std.specs.Coded.{coded_list};

    ghost Value = { List T };

    ghost coded = { coded_list T.code };

    ghost view = { λ s. reverse s.items.items };
}

impl<T> Stack<T> {
    pub fn new(alloc: Global) -> Stack<T>
        ensures { result ≡ [] }
    {
        Stack {
            items: Vec::new(alloc),
        }
    }

    pub fn len(&self) -> usize
        ensures { result ≡ length self.now }
    {
        self.items.len()
    }

    pub fn pop(&mut self) -> Option<T>
        ensures { MatchOption result ((self.old ≡ []) × (self.new ≡ [])) (λ x. self.old ≡ x ∷ self.new) }
    {
        self.items.pop()
    }
}

impl<T: Drop> Stack<T> {
    pub fn push(&mut self, item: T) -> Result<(), Memory>
        ensures { OnOk result (self.new ≡ item ∷ self.old) }
    {
        self.items.push(item)?;
        Ok(())
    }
}

/// An operand that was read, and that `.word` and `[index]` may go on.
#[derive(Drop)]
pub enum View {
    Value(Expr),
    /// At the start of a statement: `out` or a name with its steps, to which something may be assigned.
    Target { root: Root, path: Items<Key> },
    /// `rules.latest`, which is a call where `(` follows.
    Latest,
}

/// Whose text `meta` tells.
#[derive(Drop)]
pub enum Source {
    Rule(Text),
    Latest,
    Current,
}

/// Where reading stands in an expression.
#[derive(Drop)]
pub enum Now {
    /// Before an operand; `first` where a statement begins with it.
    Start {
        first: bool,
    },
    /// After an operand.
    View(View),
    /// After `.`.
    Dot(View),
    /// After the `[` of a list, which stands where `outside` more levels are left.
    ListStart {
        outside: u32,
    },
    /// Before a record's key.
    Members {
        done: Items<(Text, Expr)>,
        outside: u32,
    },
    /// After a record's key.
    Keyed {
        done: Items<(Text, Expr)>,
        key: Text,
        outside: u32,
    },
    /// After `rules`.
    Rules,
    /// After `rules.`.
    RulesDot,
    /// After `rules.latest(`.
    RuleCall,
    /// After `meta`.
    Meta,
    /// After `meta.`.
    MetaDot,
    /// After `meta.name`, `meta.latest()` or `meta.current()`.
    Source(Source),
    /// After `meta.latest(` or `meta.current(`.
    SourceCall(Source),
    /// Before the word `text`.
    SourceDot(Source),
}

/// What waits for an expression.
#[derive(Drop)]
pub enum Frame {
    Round,
    /// `view[`.
    Index(View),
    /// `[` and the values before this one.
    List(Items<Expr>),
    /// `{` and the members before this one, and its key.
    Member {
        done: Items<(Text, Expr)>,
        key: Text,
    },
    /// A sign before its operand.
    Signed(UnOp),
    /// The left operand and the operator.
    Left {
        value: Expr,
        op: BinOp,
    },
    /// `test ?`.
    ChooseYes(Expr),
    /// `test ? yes :`.
    ChooseNo {
        test: Expr,
        yes: Expr,
    },
}

/// What waits for an expression, and how many more levels of nesting were left where it stands.
#[derive(Drop)]
pub struct Open {
    pub frame: Frame,
    pub room: u32,
}

/// An expression that is being read.
#[derive(Drop)]
pub struct Inside {
    pub frames: Stack<Open>,
    pub room: u32,
    pub now: Now,
}

/// A value that ends here, and what waits for it.
#[derive(Drop)]
pub struct Whole {
    pub frames: Stack<Open>,
    pub room: u32,
    pub value: Expr,
}

/// What a lexeme does to an expression.
#[derive(Drop)]
pub enum Turn {
    On(Inside),
    /// The expression ended before it.
    Ended(Expr),
    Unfit,
}

/// What an expression of a statement is for.
#[derive(Drop)]
pub enum Purpose {
    Plain,
    Var(Text),
    Assign {
        root: Root,
        path: Items<Key>,
        op: AssignOp,
    },
    /// The test of an `if`, within which `inside` more levels are left.
    Test {
        inside: u32,
    },
}

/// Where reading stands in a statement.
#[derive(Drop)]
pub enum Phase {
    /// Before a statement.
    Start,
    /// After a statement that needs nothing more.
    Done(Stmt),
    /// After `var`.
    Var,
    /// After `var name`.
    VarName(Text),
    /// After `if`, within which `inside` more levels are left.
    If { inside: u32 },
    Value { purpose: Purpose, inside: Inside },
}

/// What waits for a statement.
#[derive(Drop)]
pub enum Part {
    /// `{` and the statements before this one.
    Block(Items<Stmt>),
    /// `if (test)`.
    IfYes(Expr),
    /// `if (test) yes else`.
    IfElse { test: Expr, yes: Stmt },
}

/// What waits for a statement, and how many more levels of nesting were left where it stands.
#[derive(Drop)]
pub struct Outer {
    pub part: Part,
    pub room: u32,
}

/// A script that is being read.
#[derive(Drop)]
pub struct State {
    /// The script's statements so far.
    pub body: Items<Stmt>,
    pub outer: Stack<Outer>,
    /// How many more levels of nesting there may be here.
    pub room: u32,
    pub phase: Phase,
}

/// A statement that ends here, and what waits for it.
#[derive(Drop)]
pub struct Closing {
    pub outer: Stack<Outer>,
    pub room: u32,
    pub statement: Stmt,
}
