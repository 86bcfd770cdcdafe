//! How many words there are, told without memory.
ghost use Rattle.std.specs.Prelude.{◌≡◌, ◌+◌, ◌<◌, ◌⊎◌, ◌↔◌, ℕ, List, IsTrue, IfSome, IfNone, MatchOption};
ghost use Rattle.token_forms.specs.Counts.{Amounts, IsWithin};
ghost use Rattle.token_forms.specs.Words.{AreWords, AreWordsOf};
ghost use Rattle.token_forms.specs.code.Taken.{Leaves, byte_cost, word_cost};

use vg_base::{Text, is_space};

/// A number of words, and the bytes of all of them.
#[derive(Clone, Copy, Debug, PartialEq, Eq)]
pub struct Amount {
    pub words: u64,
    pub bytes: u64,
}

/// How many words a text has, and of how many bytes. It takes no memory.
pub fn count_words(text: &Text) -> Amount
    ensures { (words : List (List ℕ)) → AreWords words text.now → Amounts result words }
{
    let len = text.byte_len();
    let most = Amount {
        words: len,
        bytes: len,
    };
    match spend(most, text) {
        Some(left) => Amount {
            words: len - left.words,
            bytes: len - left.bytes,
        },
        None => unreachable!("no more words than bytes"),
    }
}

/// Whether the words of all these texts are at most so many, of at most so many bytes in all.
/// It takes no memory, and stops as soon as there are more.
pub fn words_fit(most: Amount, texts: &[Text]) -> bool
    ensures { (words : List (List ℕ)) → AreWordsOf words texts.now
        → (IsTrue result ↔ IsWithin most words) }
{
    let mut left = most;
    for text in texts {
        let Some(after) = spend(left, text) else {
            return false;
        };
        left = after;
    }
    true
}

/// What is left of an allowance behind the words of a text, or None where they are more.
fn spend(most: Amount, text: &Text) -> Option<Amount>
    ensures { (words : List (List ℕ)) → AreWords words text.now
        → MatchOption result (¬ IsWithin most words) (λ left. Leaves most left words) }
{
    let mut left = most;
    let mut in_word = false;
    for c in text.as_str().chars() {
        let Some(after) = pay(left, in_word, c) else {
            return None;
        };
        left = after;
        in_word = !is_space(c);
    }
    Some(left)
}

/// What is left of an allowance behind one more character, within a word or not.
fn pay(left: Amount, in_word: bool, c: char) -> Option<Amount>
    ensures some { IfSome result (λ after. (after.words + word_cost in_word c ≡ left.words)
        × (after.bytes + byte_cost c ≡ left.bytes)) }
    ensures none { IfNone result ((left.words < word_cost in_word c) ⊎ (left.bytes < byte_cost c)) }
{
    if is_space(c) {
        return Some(left);
    }
    let words = left.words.checked_sub(u64::from(!in_word))?;
    let bytes = left.bytes.checked_sub(c.len_utf8() as u64)?;
    Some(Amount { words, bytes })
}
