//! Where words lead: the scanner.

ghost use Rattle.std.specs.Prelude.{◌≡◌, ◌≤◌, ◌+◌, ◌++◌, ◌↔◌, IsTrue, length, if◌then◌else◌};
ghost use Rattle.grammar_tree.specs.Derives.{Words};
ghost use Rattle.earley_chart.specs.Places.{Holds};
ghost use Rattle.earley_chart.specs.code.Reads.{Reads, IsPlace};

use crate::places::Places;
use grammar_tree::Linked;
use vg_base::{RuleIx, Word};

/// The words of a line, which end there, or go on by at least one word.
#[derive(Clone, Copy)]
pub struct Reading<'a> {
    pub words: &'a [Word],
    pub goes_on: bool,
}

/// What is run: a rule of linked rules, over a line.
#[derive(Clone, Copy)]
pub struct Task<'a> {
    pub linked: &'a Linked,
    pub rule: RuleIx,
    pub reading: Reading<'a>,
}

impl Reading<'_> {
    /// The last place: behind the last word, or past all that may follow it.
    pub fn last(&self) -> u32
        requires { length self.now.words.now ≤ 64 }
        ensures { result ≡ length self.now.words.now + (if self.now.goes_on then 1 else 0) }
    {
        let end = self.words.len() as u32;
        if self.goes_on { end + 1 } else { end }
    }

    /// Where a token's words lead from a place.
    pub fn token(&self, own: &[Word], start: u32) -> Places
        requires few { length self.now.words.now ≤ 64 }
        requires place { IsPlace self.now.words.now self.now.goes_on start }
        ensures { Holds result (Reads self.now.words.now self.now.goes_on start own.now) }
    {
        let end = self.words.len() as u32;
        if start > end {
            return Places::one(start);
        }
        let ahead = &self.words[start as usize..];
        if begins(ahead, own) {
            Places::one(start + own.len() as u32)
        } else if self.goes_on && begins(own, ahead) {
            Places::one(end + 1)
        } else {
            Places::none()
        }
    }

    /// Where any words lead from a place.
    pub fn garbage(&self, start: u32) -> Places
        requires few { length self.now.words.now ≤ 64 }
        requires place { IsPlace self.now.words.now self.now.goes_on start }
        ensures { Holds result (λ j. (us : Words) × Reads self.now.words.now self.now.goes_on start us j) }
    {
        Places::range(start, self.last())
    }
}

/// Whether the words begin with these.
fn begins(words: &[Word], front: &[Word]) -> bool
    ensures { IsTrue result ↔ ((rest : Words) × (words.now ≡ front.now ++ rest)) }
{
    words.starts_with(front)
}
