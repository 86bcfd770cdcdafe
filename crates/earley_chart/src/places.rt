//! Sets of the places of a line, as bits.

ghost use Rattle.std.specs.Prelude.{◌≡◌, ℕ, ◌<◌, ◌≤◌, ◌^◌, ◌⊎◌, bit_or, ◌↔◌, IsTrue};
ghost use Rattle.std.specs.Int.{bit_at};
ghost use Rattle.earley_chart.specs.Places.{Has, Holds};

/// A set of places. A line of at most 64 words has the places 0 to 64, before and behind each word;
/// place 65 stands for all that may follow its end. Place j is bit j, so that one step moves a
/// whole set.
#[derive(Clone, Copy, Debug, PartialEq, Eq)]
pub struct Places(u128);

impl Places {
    /// No place.
    pub fn none() -> Places
        ensures { result ≡ record { 0 = 0 } }
    {
        Places(0)
    }

    /// One place alone.
    pub fn one(place: u32) -> Places
        requires { place < 128 }
        ensures { Holds result (λ j. j ≡ place) }
    {
        Places(1u128 << place)
    }

    /// Every place from `first` to `last`.
    pub fn range(first: u32, last: u32) -> Places
        requires order { first ≤ last }
        requires below { last < 127 }
        ensures { Holds result (λ j. (first ≤ j) × (j ≤ last)) }
    {
        Places((1u128 << (last + 1)) - (1u128 << first))
    }

    pub fn has(self, place: u32) -> bool
        requires { place < 128 }
        ensures { IsTrue result ↔ Has self place }
    {
        (self.0 >> place) & 1 == 1
    }

    /// The places of both sets.
    pub fn with(self, other: Places) -> Places
        ensures both { Holds result (λ j. Has self j ⊎ Has other j) }
        ensures rises { self.0 ≤ result.0 }
        ensures small { result.0 < 2 ^ 128 }
    {
        Places(both(self.0, other.0))
    }

    /// The places that are in both sets.
    pub fn shared(self, other: Places) -> Places
        ensures { Holds result (λ j. Has self j × Has other j) }
    {
        Places(self.0 & other.0)
    }

    pub fn is_empty(self) -> bool
        ensures none { IsTrue result → (j : ℕ) → Has self j → ⊥ }
        ensures some { (IsTrue result → ⊥) → (j : ℕ) × Has self j }
    {
        is_zero(self.0)
    }
}

/// Whether no bit is set.
fn is_zero(bits: u128) -> bool
    ensures none { IsTrue result → (j : ℕ) → bit_at bits j ≡ 1 → ⊥ }
    ensures some { (IsTrue result → ⊥) → (j : ℕ) × (bit_at bits j ≡ 1) }
{
    bits == 0
}

/// The bits of both numbers.
fn both(mine: u128, others: u128) -> u128
    ensures value { result ≡ bit_or mine others }
    ensures small { result < 2 ^ 128 }
{
    mine | others
}
