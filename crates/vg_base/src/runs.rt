//! Searches over the characters of a text: runs of a class, and what stands between an opening and a closing.
ghost use Rattle.std.specs.Prelude.{◌≡◌, ◌<◌, ◌≤◌, ◌+◌, ◌++◌, ℕ, Bool, List, length, take, drop, IfSome, Some, None};
ghost use Rattle.std.specs.List.{prefix_len};
ghost use Rattle.vg_base.specs.Characters.{is_space};
ghost use Rattle.vg_base.specs.Places.{is_within_line};
ghost use Rattle.vg_base.specs.Runs.{IsRun, ReachesFirst, ClosesAt, ClosesNowhere};
ghost use Rattle.vg_base.specs.Runs as spec;

use crate::characters::is_space;

/// A character within a line: neither a carriage return nor a line feed.
pub fn is_within_line(c: char) -> bool
    ensures { result ≡ is_within_line c }
{
    !matches!(c, '\r' | '\n')
}

/// How many characters of white space come next.
pub fn space_len(text: &[char]) -> usize
    ensures value { result ≡ prefix_len is_space text.now }
    ensures within { result ≤ length text.now }
{
    text.iter().take_while(|c| is_space(**c)).count()
}

/// How many characters there are to the end of the line.
pub fn line_len(text: &[char]) -> usize
    ensures value { result ≡ prefix_len is_within_line text.now }
    ensures within { result ≤ length text.now }
{
    text.iter().take_while(|c| is_within_line(**c)).count()
}

/// How many characters there are to the end of the next closing.
pub fn closing_end(close: &[char], text: &[char]) -> Option<usize>
    ensures value { result ≡ spec.closing_end close.now text.now }
    ensures within { IfSome result (λ n. n ≤ length text.now) }
{
    for at in 0..text.len() {
        if text[at..].starts_with(close) {
            return Some(at + close.len());
        }
    }
    None
}

/// How many characters an opening of this length has, and all behind it to the end of the next closing.
pub fn enclosed_len(opening: usize, close: &[char], text: &[char]) -> Option<usize>
    requires { opening ≤ length text.now }
    ensures value { result ≡ spec.enclosed_len opening close.now text.now }
    ensures within { IfSome result (λ n. n ≤ length text.now) }
{
    let n = closing_end(close, &text[opening..])?;
    Some(opening + n)
}

/// A run that is counted is a longest run, and each longest run is counted.
pub fn runs_are_counted()
    ensures run { (p : ℕ → Bool) (text : List ℕ) → IsRun p (take (prefix_len p text) text) (drop (prefix_len p text) text) }
    ensures counted { (p : ℕ → Bool) (run rest : List ℕ) → IsRun p run rest → prefix_len p (run ++ rest) ≡ length run }
{}

/// The next closing is found where one stands.
pub fn closings_are_found()
    ensures first { (close text : List ℕ) (n : ℕ) → spec.closing_end close text ≡ Some n → ClosesAt close text n }
    ensures none { (close text : List ℕ) → 0 < length close → spec.closing_end close text ≡ None → ClosesNowhere close text }
    ensures each { (close inside rest : List ℕ) → 0 < length close → ReachesFirst close inside
        → spec.closing_end close (inside ++ (close ++ rest)) ≡ Some (length inside + length close) }
{}
