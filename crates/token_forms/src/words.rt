//! The words of texts.
ghost use Rattle.std.specs.Prelude.{◌≡◌, ◌<◌, ◌++◌, ◌∷◌, [], ℕ, List, IfOk, OnOk, length};
ghost use Rattle.vg_base.specs.Characters.{IsWord};
ghost use Rattle.token_forms.specs.Words.{AreWords, AreWordsOf};
ghost use Rattle.token_forms.specs.code.Taken.{Adds};

use std::alloc::Global;
use std::mem;
use vg_base::{Items, Memory, Text, Word, is_space};

/// The words of a text, in order.
pub fn words_of(alloc: Global, text: &Text) -> Result<Items<Word>, Memory>
    ensures { IfOk result (λ words. AreWords words text.now) }
{
    let mut words = Items::new(alloc);
    add_words(alloc, &mut words, text)?;
    Ok(words)
}

/// The words of several texts, of one text after another.
pub fn words_of_all(alloc: Global, texts: &[Text]) -> Result<Items<Word>, Memory>
    ensures { IfOk result (λ words. AreWordsOf words texts.now) }
{
    let mut words = Items::new(alloc);
    for text in texts {
        add_words(alloc, &mut words, text)?;
    }
    Ok(words)
}

/// Puts the words of a text behind those that are there.
fn add_words(alloc: Global, words: &mut Items<Word>, text: &Text) -> Result<(), Memory>
    ensures { OnOk result (Adds words.old words.new text.now) }
{
    let mut word = Text::new(alloc);
    for c in text.as_str().chars() {
        if is_space(c) {
            end_word(words, mem::replace(&mut word, Text::new(alloc)))?;
        } else {
            word.push(c)?;
        }
    }
    end_word(words, word)?;
    Ok(())
}

/// Puts a word behind the others, unless it is empty.
fn end_word(words: &mut Items<Word>, word: Text) -> Result<(), Memory>
    requires { IsWord word }
    ensures empty { OnOk result (word ≡ [] → words.new ≡ words.old) }
    ensures one { OnOk result (0 < length word → words.new ≡ words.old ++ word ∷ []) }
{
    if !word.as_str().is_empty() {
        words.push(Word::of(word))?;
    }
    Ok(())
}

/// A text has a list of words, and no other.
pub fn words_are_one()
    ensures some { (text : List ℕ) → (words : List (List ℕ)) × AreWords words text }
    ensures one { (text : List ℕ) (these those : List (List ℕ)) → AreWords these text → AreWords those text
        → these ≡ those }
{}

/// So have several texts.
pub fn words_of_all_are_one()
    ensures some { (texts : List (List ℕ)) → (words : List (List ℕ)) × AreWordsOf words texts }
    ensures one { (texts these those : List (List ℕ)) → AreWordsOf these texts → AreWordsOf those texts
        → these ≡ those }
{}
