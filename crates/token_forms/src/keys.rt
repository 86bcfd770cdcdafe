//! The keys that a text spells.
ghost use Rattle.std.specs.Prelude.{◌≡◌, ◌≤◌, ◌+◌, ◌++◌, ◌⊎◌, ℕ, List, [], ◌∷◌, true, IfOk, IfSome, IfNone, length};
ghost use Rattle.vg_base.specs.Cut.{Piece, IsCut, BeginsNone};
ghost use Rattle.vg_base.specs.Refusals.{Meets};
ghost use Rattle.token_forms.specs.Keys.{is_key, Sign, IsSign, spelling, HasForm, keys_in, AreKeys, IsBadKeyAt, Spells, SpellsSoMany};
ghost use Rattle.token_forms.specs.code.Taken.{TakesSign};

use std::alloc::Global;
use thiserror::Error;
use vg_base::{Items, Memory, Refused, Text, Word, is_space};

/// The place, in characters from 0, of the first that begins no key.
#[derive(Clone, Copy, Debug, PartialEq, Eq, Error)]
#[error("character {at} begins no key")]
pub struct BadKey {
    pub at: u64,
}

/// Why a text gives no keys.
pub type KeyRefused = Refused<BadKey>;

/// Whether a character is a key: a digit, `*`, `#` or one of `A` to `D`.
pub fn is_key(c: char) -> bool
    ensures { result ≡ is_key c }
{
    matches!(c, '0'..='9' | '*' | '#' | 'A'..='D')
}

/// The keys that a text spells, one word a key: by their own characters, by `star` and by `pound`,
/// with white space between them or not.
pub fn keys_of(alloc: Global, text: &Text) -> Result<Items<Word>, KeyRefused>
    ensures { Meets result (Spells text.now) }
{
    if let Err(bad) = count_keys(text) {
        return Err(Refused::Fault(bad));
    }
    Ok(spelled(alloc, text.as_str().as_bytes())?)
}

/// How many keys a text spells, each of which is one byte, or where it stops to spell keys.
/// It takes no memory.
pub fn count_keys(text: &Text) -> Result<u64, BadKey>
    ensures { SpellsSoMany text.now result }
{
    let bytes = text.as_str().as_bytes();
    let (number, rest) = unspelled(bytes);
    if rest.is_empty() {
        Ok(number)
    } else {
        let at = (bytes.len() - rest.len()) as u64;
        Err(BadKey { at })
    }
}

/// How many keys a text begins with, and what is left behind them.
fn unspelled(text: &[u8]) -> (u64, &[u8])
    ensures { (signs : List (Piece Sign)) × IsCut HasForm text.now signs result.1.now
        × (result.0 ≡ length (keys_in signs)) }
{
    let mut number = 0;
    let mut rest = text;
    while let Some((key, after)) = first_sign(rest) {
        number += u64::from(key.is_some());
        rest = after;
    }
    (number, rest)
}

/// The keys of a text up to where it stops to spell keys.
fn spelled(alloc: Global, text: &[u8]) -> Result<Items<Word>, Memory>
    ensures { IfOk result (λ keys. (signs : List (Piece Sign)) × (rest : List ℕ)
        × IsCut HasForm text.now signs rest × (keys ≡ keys_in signs)) }
{
    let mut keys = Items::new(alloc);
    let mut rest = text;
    while let Some((key, after)) = first_sign(rest) {
        if let Some(key) = key {
            keys.push(word_of(alloc, key)?)?;
        }
        rest = after;
    }
    Ok(keys)
}

/// The sign that a text begins with, as the key that it stands for, and what comes after it.
fn first_sign(text: &[u8]) -> Option<(Option<char>, &[u8])>
    ensures sign { IfSome result (λ found. TakesSign text.now found.0 found.1.now) }
    ensures none { IfNone result (BeginsNone HasForm text.now) }
{
    if let Some(rest) = text.strip_prefix(b"star") {
        return Some((Some('*'), rest));
    }
    if let Some(rest) = text.strip_prefix(b"pound") {
        return Some((Some('#'), rest));
    }
    let (first, rest) = text.split_first()?;
    let c = char::from(*first);
    if is_key(c) {
        Some((Some(c), rest))
    } else if is_space(c) {
        Some((None, rest))
    } else {
        None
    }
}

/// A key as a word.
fn word_of(alloc: Global, key: char) -> Result<Word, Memory>
    requires { is_key key ≡ true }
    ensures { IfOk result (λ word. word ≡ key ∷ []) }
{
    let mut text = Text::new(alloc);
    text.push(key)?;
    Ok(Word::of(text))
}

/// No spelling of a sign begins another, so a text has one list of keys, or else one place where it stops
/// to spell keys.
pub fn keys_are_one()
    ensures some { (text : List ℕ) → ((keys : List (List ℕ)) × AreKeys keys text)
        ⊎ ((at : ℕ) × IsBadKeyAt at text) }
    ensures apart { (this that : Sign) (more : List ℕ) → IsSign this → IsSign that
        → spelling that ≡ spelling this ++ more → this ≡ that }
    ensures keys { (text : List ℕ) (these those : List (List ℕ)) → AreKeys these text → AreKeys those text
        → these ≡ those }
    ensures place { (text : List ℕ) (here there : ℕ) → IsBadKeyAt here text → IsBadKeyAt there text
        → here ≡ there }
    ensures either { (text : List ℕ) (keys : List (List ℕ)) (at : ℕ) → AreKeys keys text
        → ¬ IsBadKeyAt at text }
{}
