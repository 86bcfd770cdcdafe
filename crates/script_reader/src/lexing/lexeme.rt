//! Lexemes: what a script's text is cut into.
ghost use Rattle.std.specs.Prelude.{◌≡◌};
ghost use Rattle.script_reader.specs.Signs as signs;
ghost use Rattle.script_reader.specs.code.Marks as marks;

use vg_base::{AssignOp, BinOp, Text, UnOp};

/// A punctuator.
#[derive(Clone, Copy, PartialEq, Eq)]
pub enum Sign {
    Or,
    And,
    Same,
    NotSame,
    Equal,
    NotEqual,
    Less,
    LessEqual,
    Greater,
    GreaterEqual,
    Plus,
    Minus,
    Times,
    Over,
    Rem,
    Not,
    Set,
    AddTo,
    TakeFrom,
    Question,
    Colon,
    Semicolon,
    Comma,
    Dot,
    RoundOpen,
    RoundClose,
    SquareOpen,
    SquareClose,
    CurlyOpen,
    CurlyClose,
}

/// A lexeme, with what it stands for.
#[derive(Drop)]
pub enum Lexeme {
    /// A name or a reserved word.
    Word(Text),
    Number { value: i64, digits: Text },
    /// A string, its escapes decoded.
    Str(Text),
    Sign(Sign),
    /// A number that is too large, which fits no script.
    Bad,
}

/// The operator that a sign between two operands is.
pub fn operator_of(sign: Sign) -> Option<BinOp>
    ensures { result ≡ signs.operator_of sign }
{
    match sign {
        Sign::Or => Some(BinOp::Or),
        Sign::And => Some(BinOp::And),
        Sign::Equal | Sign::Same => Some(BinOp::Eq),
        Sign::NotEqual | Sign::NotSame => Some(BinOp::Ne),
        Sign::Less => Some(BinOp::Lt),
        Sign::LessEqual => Some(BinOp::Le),
        Sign::Greater => Some(BinOp::Gt),
        Sign::GreaterEqual => Some(BinOp::Ge),
        Sign::Plus => Some(BinOp::Add),
        Sign::Minus => Some(BinOp::Sub),
        Sign::Times => Some(BinOp::Mul),
        Sign::Over => Some(BinOp::Div),
        Sign::Rem => Some(BinOp::Rem),
        _ => None,
    }
}

/// The operator that a sign before its operand is.
pub fn prefix_of(sign: Sign) -> Option<UnOp>
    ensures { result ≡ marks.prefix_of sign }
{
    match sign {
        Sign::Minus => Some(UnOp::Neg),
        Sign::Plus => Some(UnOp::Plus),
        Sign::Not => Some(UnOp::Not),
        _ => None,
    }
}

/// What the sign of an assignment does.
pub fn assignment_of(sign: Sign) -> Option<AssignOp>
    ensures { result ≡ marks.assignment_of sign }
{
    match sign {
        Sign::Set => Some(AssignOp::Set),
        Sign::AddTo => Some(AssignOp::Add),
        Sign::TakeFrom => Some(AssignOp::Sub),
        _ => None,
    }
}

/// How tightly an operator holds its operands: `||` least, `*` most.
pub fn level(op: BinOp) -> u32
    ensures { result ≡ signs.level op }
{
    match op {
        BinOp::Or => 1,
        BinOp::And => 2,
        BinOp::Eq | BinOp::Ne => 3,
        BinOp::Lt | BinOp::Le | BinOp::Gt | BinOp::Ge => 4,
        BinOp::Add | BinOp::Sub => 5,
        BinOp::Mul | BinOp::Div | BinOp::Rem => 6,
    }
}
