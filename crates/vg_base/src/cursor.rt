//! A walk over the characters of a text that counts lines, columns and bytes.
ghost use Rattle.std.specs.Prelude.{◌≡◌, ◌≤◌, [], ◌∷◌, ◌++◌, take, drop, length, IfSome, IfNone};
ghost use Rattle.vg_base.specs.Characters.{byte_len};
ghost use Rattle.vg_base.specs.Places.{place_after};

use crate::place::{Place, place_past};
use std::marker::Model;

/// A walk over the characters of a text, from the first to the last, which knows at which place and byte it stands.
/// Contracts see it as the characters that it passed and those that are left.
#[derive(Debug, Drop)]
pub struct Cursor<'a> {
    characters: &'a [char],
    at: usize,
    byte: u64,
    place: Place,
}

impl<'a> Model for Cursor<'a> {
    ghost use Rattle.vg_base.specs.Places.{Walked};

    ghost Value = { Walked };

    ghost use Rattle.vg_base.specs.Walking.{walked, IsWalk};

    ghost view = { walked };

    ghost invariant = { IsWalk };
}

impl<'a> Cursor<'a> {
    /// A cursor before the first character.
    pub fn new(characters: &'a [char]) -> Cursor<'a>
        ensures passed { result.passed ≡ [] }
        ensures rest { result.rest ≡ characters.now }
    {
        Cursor {
            characters,
            at: 0,
            byte: 0,
            place: Place { line: 1, column: 1 },
        }
    }

    /// The place of the next character, or just past the last one.
    pub fn place(&self) -> Place
        ensures { result ≡ place_after self.now.passed }
    {
        self.place
    }

    /// How many bytes were passed.
    pub fn byte(&self) -> u64
        ensures { result ≡ byte_len self.now.passed }
    {
        self.byte
    }

    /// The characters that are left.
    pub fn rest(&self) -> &'a [char]
        ensures { result.now ≡ self.now.rest }
    {
        &self.characters[self.at..]
    }

    /// Passes the next character, and gives it.
    pub fn step(&mut self) -> Option<char>
        ensures next { IfSome result (λ c. self.old.rest ≡ c ∷ self.new.rest) }
        ensures passed { IfSome result (λ c. self.new.passed ≡ self.old.passed ++ c ∷ []) }
        ensures end { IfNone result (self.old.rest ≡ []) }
        ensures unchanged { IfNone result (self.new ≡ self.old) }
    {
        let c = *self.characters.get(self.at)?;
        self.place = place_past(self.characters[..self.at].last().copied(), self.place, c);
        self.byte += c.len_utf8() as u64;
        self.at += 1;
        Some(c)
    }

    /// Passes so many characters.
    pub fn go(&mut self, count: usize)
        requires { count ≤ length self.old.rest }
        ensures passed { self.new.passed ≡ self.old.passed ++ take count self.old.rest }
        ensures rest { self.new.rest ≡ drop count self.old.rest }
    {
        for _turn in 0..count {
            self.step();
        }
    }
}

/// The place just past these characters at the start of a text.
pub fn place_after(front: &[char]) -> Place
    ensures { result ≡ place_after front.now }
{
    let mut cursor = Cursor::new(front);
    cursor.go(front.len());
    cursor.place()
}
