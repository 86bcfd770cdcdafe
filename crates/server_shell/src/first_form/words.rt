//! Words of texts.
ghost use Rattle.std.specs.Prelude.{◌≡◌, ◌++◌, ◌∷◌, [], ◌+◌, ◌<◌, ◌^◌, ◌↔◌, IfOk, OnOk, IsTrue, MatchOption, ℕ, true, false, min};
ghost use Rattle.std.specs.List.{All, filter, join_with_byte};
ghost use Rattle.vg_base.specs.Characters.{is_space};
ghost use Rattle.server_shell.specs.first_form.Words.{bytes_in, has_character, words_in, words_of};

use sqlite_items::Items;
use std::alloc::Global;
use vg_base::{Memory, Text, is_space};

/// Adds a part of a text, where it has a character.
fn push_part(words: &mut Items<Text>, alloc: Global, part: &[char]) -> Result<(), Memory>
    ensures { OnOk result (words.new ≡ words.old ++ filter has_character (part.now ∷ [])) }
{
    if !part.is_empty() {
        words.push(Text::from_characters(alloc, part)?)?;
    }
    Ok(())
}

/// What stands before the first white space and behind it.
fn split_at_space(text: &[char]) -> Option<(&[char], &[char])>
    ensures { MatchOption result (All (λ x. is_space x ≡ false) text.now)
        (λ p. All (λ x. is_space x ≡ false) p.0.now
        × ((y : ℕ) × (is_space y ≡ true) × (text.now ≡ p.0.now ++ y ∷ p.1.now))) }
{
    let at = text.iter().position(|c| is_space(*c))?;
    Some((&text[..at], &text[at + 1..]))
}

/// Adds the words of a text.
fn push_words(words: &mut Items<Text>, alloc: Global, text: &[char]) -> Result<(), Memory>
    ensures { OnOk result (words.new ≡ words.old ++ words_in text.now) }
{
    let mut rest = text;
    while let Some((part, behind)) = split_at_space(rest) {
        push_part(words, alloc, part)?;
        rest = behind;
    }
    push_part(words, alloc, rest)?;
    Ok(())
}

/// The words of a text.
pub fn words_in(alloc: Global, text: &[char]) -> Result<Items<Text>, Memory>
    ensures { IfOk result (λ words. words ≡ words_in text.now) }
{
    let mut words = Items::new(alloc);
    push_words(&mut words, alloc, text)?;
    Ok(words)
}

/// The words of several texts, one text after another.
pub fn words_of(alloc: Global, texts: &[Text]) -> Result<Items<Text>, Memory>
    ensures { IfOk result (λ words. words ≡ words_of texts.now) }
{
    let mut words = Items::new(alloc);
    for text in texts {
        push_words(&mut words, alloc, &text.characters(alloc)?)?;
    }
    Ok(words)
}

/// How many bytes the words take, or one more than `most` where they take more.
pub fn bytes_in(words: &[Text], most: u64) -> u64
    requires { most < 2 ^ 63 }
    ensures { result ≡ min (bytes_in words.now) (most + 1) }
{
    let mut all: u64 = 0;
    for word in words {
        all = all.saturating_add(word.as_str().len() as u64).min(most + 1);
    }
    all
}

/// The words with one space between them.
pub fn joined(alloc: Global, words: &[Text]) -> Result<Text, Memory>
    ensures { IfOk result (λ text. text ≡ join_with_byte 32 words.now) }
{
    let mut text = Text::new(alloc);
    let mut is_first = true;
    for word in words {
        if !is_first {
            text.push(' ')?;
        }
        text.push_str(word.as_str())?;
        is_first = false;
    }
    Ok(text)
}

/// Whether two lists have the same words.
pub fn are_same(ones: &[Text], others: &[Text]) -> bool
    ensures { IsTrue result ↔ (ones.now ≡ others.now) }
{
    ones == others
}
