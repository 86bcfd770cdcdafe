//! Operators by how they take their operands.
ghost use Rattle.std.specs.Prelude.{◌≡◌};
ghost use Rattle.tag_script.specs.Operators as spec;
ghost use Rattle.tag_script.specs.code.Operators as code;

use vg_base::BinOp;

/// An operator whose operands are both evaluated, and which only looks at them.
#[derive(Clone, Copy, Debug, PartialEq, Eq)]
pub(crate) enum Strict {
    Eq,
    Ne,
    Lt,
    Le,
    Gt,
    Ge,
    Sub,
    Mul,
    Div,
    Rem,
}

/// `||` and `&&` evaluate the right operand only where they need it; `+` may go on in the text of its left operand.
#[derive(Clone, Copy, Debug, PartialEq, Eq)]
pub(crate) enum Operator {
    Or,
    And,
    Add,
    Strict(Strict),
}

impl Operator {
    pub(crate) fn of(operator: BinOp) -> Operator
        ensures { result ≡ spec.operator_of operator }
    {
        match operator {
            BinOp::Or => Operator::Or,
            BinOp::And => Operator::And,
            BinOp::Add => Operator::Add,
            BinOp::Eq => Operator::Strict(Strict::Eq),
            BinOp::Ne => Operator::Strict(Strict::Ne),
            BinOp::Lt => Operator::Strict(Strict::Lt),
            BinOp::Le => Operator::Strict(Strict::Le),
            BinOp::Gt => Operator::Strict(Strict::Gt),
            BinOp::Ge => Operator::Strict(Strict::Ge),
            BinOp::Sub => Operator::Strict(Strict::Sub),
            BinOp::Mul => Operator::Strict(Strict::Mul),
            BinOp::Div => Operator::Strict(Strict::Div),
            BinOp::Rem => Operator::Strict(Strict::Rem),
        }
    }

    /// Whether it gives one of its operands, tested.
    pub(crate) fn is_lazy(self) -> bool
        ensures { result ≡ code.is_lazy self }
    {
        matches!(self, Operator::Or | Operator::And)
    }
}
