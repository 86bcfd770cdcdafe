//! How large a rule is once its repeats are written out.

ghost use Rattle.std.specs.Prelude.{◌≡◌, ◌+◌, ◌*◌, ◌≤◌, min};
ghost use Rattle.grammar_tree.specs.Size.{size_of, total_size, turns_of};

use crate::expansion::Expansion;

/// Here the counting stops: one more than the largest size of the rules that are published together.
const PAST: u64 = 65_537;

/// How many nodes the expansion has, with bounded repeats multiplied out: `most` turns, at least one, or one more
/// than `least` where there is no most. The answer is at most 65,537.
#[cycle(size)]
pub fn size(e: &Expansion) -> u64
    ensures { result ≡ min (size_of e.now) 65537 }
{
    match e {
        Expansion::Seq(parts) | Expansion::Alt(parts) => size_of_parts(parts.as_slice()),
        Expansion::Rep { least, most, inner } => times(turns(*least, most), size(inner.get())),
        _ => 1,
    }
}

/// One for the level, and the sizes of its parts.
#[cycle(size)]
fn size_of_parts(parts: &[Expansion]) -> u64
    ensures { result ≡ min (1 + total_size parts.now) 65537 }
{
    let mut all: u64 = 1;
    for part in parts {
        all = (all + size(part)).min(PAST);
    }
    all
}

fn turns(least: u32, most: &Option<u32>) -> u64
    ensures { result ≡ turns_of least most.now }
{
    match most {
        None => u64::from(least) + 1,
        Some(most) => u64::from(*most).max(1),
    }
}

fn times(turns: u64, one: u64) -> u64
    requires { one ≤ 65537 }
    ensures { result ≡ min (1 + turns * one) 65537 }
{
    turns.saturating_mul(one).saturating_add(1).min(PAST)
}
