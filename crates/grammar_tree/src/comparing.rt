//! Which of two trees comes first by its choices, without their lists.

ghost use Rattle.std.specs.Prelude.{◌≡◌};
ghost use Rattle.grammar_tree.specs.Comparing.{ComparesTrees, ComparesFronts};

use crate::parse_tree::ParseTree;
use std::cmp::Ordering;

/// Compares the choices of two trees of one node over fronts of one list of words, in the lexicographic order,
/// by going through both trees at once. It takes no memory. Of other pairs of trees the answer says nothing.
#[cycle(compare)]
pub fn compare(one: &ParseTree, other: &ParseTree) -> Ordering
    ensures { ComparesTrees one.now other.now result }
{
    match one {
        ParseTree::Seq(own) => match other {
            ParseTree::Seq(others) => compare_fronts(own.as_slice(), others.as_slice()),
            _ => Ordering::Equal,
        },
        ParseTree::Alt { taken, inner } => match other {
            ParseTree::Alt {
                taken: other_taken,
                inner: other_inner,
            } => {
                if taken == other_taken {
                    compare(inner.get(), other_inner.get())
                } else {
                    taken.cmp(other_taken)
                }
            }
            _ => Ordering::Equal,
        },
        ParseTree::Rep(own) => match other {
            ParseTree::Rep(others) => match compare_fronts(own.as_slice(), others.as_slice()) {
                Ordering::Equal => others.len().cmp(&own.len()),
                decided => decided,
            },
            _ => Ordering::Equal,
        },
        ParseTree::Rule { rule: _, inner } => match other {
            ParseTree::Rule {
                rule: _,
                inner: other_inner,
            } => compare(inner.get(), other_inner.get()),
            _ => Ordering::Equal,
        },
        ParseTree::Garbage(own) => match other {
            ParseTree::Garbage(others) => own.len().cmp(&others.len()),
            _ => Ordering::Equal,
        },
        _ => Ordering::Equal,
    }
}

/// Compares the trees one by one, as far as both lists go.
#[cycle(compare)]
fn compare_fronts(own: &[ParseTree], others: &[ParseTree]) -> Ordering
    ensures { ComparesFronts own.now others.now result }
{
    let shared = own.len().min(others.len());
    for k in 0..shared {
        match compare(&own[k], &others[k]) {
            Ordering::Equal => {}
            decided => return decided,
        }
    }
    Ordering::Equal
}
