//! Whether two parse trees are equal.

ghost use Rattle.std.specs.Prelude.{◌≡◌, ◌↔◌, IsTrue};

use crate::parse_tree::ParseTree;

/// Whether two trees are equal. It takes no memory, and calls itself level by level, as deep as the trees are.
/// `compare` tells trees of one node apart; this tells any two.
#[cycle(is_same)]
pub fn is_same(one: &ParseTree, other: &ParseTree) -> bool
    ensures { IsTrue result ↔ (one.now ≡ other.now) }
{
    match one {
        ParseTree::Token(own) => match other {
            ParseTree::Token(others) => own.as_slice() == others.as_slice(),
            _ => false,
        },
        ParseTree::Seq(own) => match other {
            ParseTree::Seq(others) => are_same(own.as_slice(), others.as_slice()),
            _ => false,
        },
        ParseTree::Alt { taken, inner } => match other {
            ParseTree::Alt {
                taken: other_taken,
                inner: other_inner,
            } => taken == other_taken && is_same(inner.get(), other_inner.get()),
            _ => false,
        },
        ParseTree::Rep(own) => match other {
            ParseTree::Rep(others) => are_same(own.as_slice(), others.as_slice()),
            _ => false,
        },
        ParseTree::Rule { rule, inner } => match other {
            ParseTree::Rule {
                rule: other_rule,
                inner: other_inner,
            } => rule.0 == other_rule.0 && is_same(inner.get(), other_inner.get()),
            _ => false,
        },
        ParseTree::Tag(own) => match other {
            ParseTree::Tag(others) => own.0 == others.0,
            _ => false,
        },
        ParseTree::Null => matches!(other, ParseTree::Null),
        ParseTree::Garbage(own) => match other {
            ParseTree::Garbage(others) => own.as_slice() == others.as_slice(),
            _ => false,
        },
    }
}

/// Whether the lists are equally long, with equal trees at each place.
#[cycle(is_same)]
fn are_same(own: &[ParseTree], others: &[ParseTree]) -> bool
    ensures { IsTrue result ↔ (own.now ≡ others.now) }
{
    if own.len() != others.len() {
        return false;
    }
    for k in 0..own.len() {
        if !is_same(&own[k], &others[k]) {
            return false;
        }
    }
    true
}
