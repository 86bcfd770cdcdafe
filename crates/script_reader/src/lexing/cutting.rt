//! What stands at the front of a text: a lexeme, or what stands between lexemes.
ghost use Rattle.std.specs.Prelude.{◌≡◌, ◌≤◌, ◌<◌, ◌^◌, ◌-◌, ◌&&◌, ◌||◌, ◌==◌, ◌∷◌, IfOk, IfSome, length, drop, take};
ghost use Rattle.std.specs.List.{prefix_len};
ghost use Rattle.script_reader.specs.code.Front as spec;

use crate::lexing::lexeme::{Lexeme, Sign};
use crate::lexing::strings::string_at;
use std::alloc::Global;
use vg_base::{Memory, Text, is_name, is_name_start, is_space, limits};

/// What stands at the front of a text.
#[derive(Drop)]
pub enum Cut {
    End,
    /// White space or a comment, of so many characters.
    Gap(usize),
    /// A lexeme of so many characters.
    Whole(Lexeme, usize),
    /// What no lexeme begins.
    Stop,
}

#[derive(Clone, Copy)]
enum Class {
    Space,
    Word,
    Digit,
    WithinLine,
}

fn is_in(class: Class, c: char) -> bool
    ensures { result ≡ spec.is_in class c }
{
    match class {
        Class::Space => is_space(c),
        Class::Word => is_name(c) || c == '$',
        Class::Digit => is_digit(c),
        Class::WithinLine => !(c == '\r' || c == '\n'),
    }
}

fn is_digit(c: char) -> bool
    ensures { result ≡ spec.is_digit c }
{
    '0' <= c && c <= '9'
}

fn is_word_start(c: char) -> bool
    ensures { result ≡ spec.is_word_start c }
{
    is_name_start(c) || c == '$'
}

/// How many characters of a class stand at the front.
fn run_len(class: Class, text: &[char]) -> usize
    ensures value { result ≡ prefix_len (spec.is_in class) text.now }
    ensures within { result ≤ length text.now }
{
    let mut n = 0;
    while n < text.len() && is_in(class, text[n]) {
        n += 1;
    }
    n
}

fn is_close(a: char, b: char) -> bool
    ensures { result ≡ (a == 42 && b == 47) }
{
    a == '*' && b == '/'
}

/// The length up to and with the next `*/`.
fn block_len(text: &[char]) -> Option<usize>
    ensures value { result ≡ spec.block_len text.now }
    ensures within { IfSome result (λ n. n ≤ length text.now) }
{
    let mut n = 0;
    while n + 1 < text.len() {
        if is_close(text[n], text[n + 1]) {
            return Some(n + 2);
        }
        n += 1;
    }
    None
}

fn after_slash(text: &[char]) -> Cut
    requires { length text.now < 2 ^ 63 }
    ensures { result ≡ spec.slash text.now }
{
    match text {
        ['/', rest @ ..] => Cut::Gap(2 + run_len(Class::WithinLine, rest)),
        ['*', rest @ ..] => match block_len(rest) {
            Some(n) => Cut::Gap(2 + n),
            None => Cut::Stop,
        },
        _ => Cut::Whole(Lexeme::Sign(Sign::Over), 1),
    }
}

fn three(a: char, b: char, c: char) -> Option<Sign>
    ensures { result ≡ spec.three a b c }
{
    if b == '=' && c == '=' {
        match a {
            '=' => Some(Sign::Same),
            '!' => Some(Sign::NotSame),
            _ => None,
        }
    } else {
        None
    }
}

fn two(a: char, b: char) -> Option<Sign>
    ensures { result ≡ spec.two a b }
{
    if b == '=' {
        match a {
            '=' => Some(Sign::Equal),
            '!' => Some(Sign::NotEqual),
            '<' => Some(Sign::LessEqual),
            '>' => Some(Sign::GreaterEqual),
            '+' => Some(Sign::AddTo),
            '-' => Some(Sign::TakeFrom),
            _ => None,
        }
    } else if a == '|' && b == '|' {
        Some(Sign::Or)
    } else if a == '&' && b == '&' {
        Some(Sign::And)
    } else {
        None
    }
}

fn one(a: char) -> Option<Sign>
    ensures { result ≡ spec.one a }
{
    match a {
        '<' => Some(Sign::Less),
        '>' => Some(Sign::Greater),
        '+' => Some(Sign::Plus),
        '-' => Some(Sign::Minus),
        '*' => Some(Sign::Times),
        '%' => Some(Sign::Rem),
        '!' => Some(Sign::Not),
        '=' => Some(Sign::Set),
        '?' => Some(Sign::Question),
        ':' => Some(Sign::Colon),
        ';' => Some(Sign::Semicolon),
        ',' => Some(Sign::Comma),
        '.' => Some(Sign::Dot),
        '(' => Some(Sign::RoundOpen),
        ')' => Some(Sign::RoundClose),
        '[' => Some(Sign::SquareOpen),
        ']' => Some(Sign::SquareClose),
        '{' => Some(Sign::CurlyOpen),
        '}' => Some(Sign::CurlyClose),
        _ => None,
    }
}

fn signed(sign: Sign, len: usize) -> Cut
    ensures { result ≡ spec.signed sign len }
{
    Cut::Whole(Lexeme::Sign(sign), len)
}

fn one_sign(a: char) -> Cut
    ensures { result ≡ spec.one_sign a }
{
    match one(a) {
        Some(sign) => signed(sign, 1),
        None => Cut::Stop,
    }
}

fn two_signs(a: char, b: char) -> Cut
    ensures { result ≡ spec.two_signs a b }
{
    match two(a, b) {
        Some(sign) => signed(sign, 2),
        None => one_sign(a),
    }
}

fn three_signs(a: char, b: char, c: char) -> Cut
    ensures { result ≡ spec.three_signs a b c }
{
    match three(a, b, c) {
        Some(sign) => signed(sign, 3),
        None => two_signs(a, b),
    }
}

/// The longest sign at the front.
fn sign_at(text: &[char]) -> Cut
    ensures { result ≡ spec.sign_at text.now }
{
    match text {
        [a, b, c, ..] => three_signs(*a, *b, *c),
        [a, b] => two_signs(*a, *b),
        [a] => one_sign(*a),
        [] => Cut::End,
    }
}

/// The value of digits, unless it is over the greatest number, 2^53 - 1.
fn number_of(digits: &[char]) -> Option<i64>
    ensures { result ≡ spec.number_of digits.now }
{
    let mut value = 0u64;
    for c in digits {
        value = value * 10 + digit_of(*c);
        if value > limits::SCRIPT_NUMBER {
            return None;
        }
    }
    Some(value as i64)
}

fn digit_of(c: char) -> u64
    ensures value { result ≡ spec.digit_of c }
    ensures bound { result < 2 ^ 21 }
{
    if '0' <= c { c as u64 - 48 } else { 0 }
}

fn number(alloc: Global, digits: &[char]) -> Result<Cut, Memory>
    ensures { IfOk result (λ f. f ≡ spec.number digits.now) }
{
    match number_of(digits) {
        Some(value) => {
            let len = digits.len();
            let digits = Text::from_characters(alloc, digits)?;
            Ok(Cut::Whole(Lexeme::Number { value, digits }, len))
        }
        None => Ok(Cut::Whole(Lexeme::Bad, digits.len())),
    }
}

/// The digits at the front of a text that begins with one: a zero stands alone.
fn digits_at(text: &[char]) -> &[char]
    ensures { result.now ≡ take (spec.digits_len text.now) text.now }
{
    if text.starts_with(&['0']) {
        &text[..1]
    } else {
        &text[..run_len(Class::Digit, text)]
    }
}

fn word(alloc: Global, text: &[char]) -> Result<Cut, Memory>
    ensures { IfOk result (λ f. f ≡ spec.word text.now) }
{
    let len = run_len(Class::Word, text);
    let word = Text::from_characters(alloc, &text[..len])?;
    Ok(Cut::Whole(Lexeme::Word(word), len))
}

fn string(alloc: Global, quote: char, text: &[char]) -> Result<Cut, Memory>
    requires { length text.now < 2 ^ 63 }
    ensures { IfOk result (λ f. f ≡ spec.string quote text.now) }
{
    match string_at(alloc, quote, text)? {
        Some((decoded, len)) => Ok(Cut::Whole(Lexeme::Str(decoded), 1 + len)),
        None => Ok(Cut::Stop),
    }
}

/// What stands at the front.
#[tactic(auto, unfolding(crate::specs::code::Front::front))]
fn front(alloc: Global, text: &[char]) -> Result<Cut, Memory>
    requires { length text.now < 2 ^ 63 }
    ensures { IfOk result (λ f. f ≡ spec.front text.now) }
{
    let [c, rest @ ..] = text else {
        return Ok(Cut::End);
    };
    let c = *c;
    if is_space(c) {
        Ok(Cut::Gap(run_len(Class::Space, text)))
    } else if is_word_start(c) {
        word(alloc, text)
    } else {
        other_front(alloc, c, rest, text)
    }
}

/// What stands at the front of a text that begins neither with white space nor with a word.
#[tactic(auto, unfolding(crate::specs::code::Front::other_front))]
fn other_front(alloc: Global, c: char, rest: &[char], text: &[char]) -> Result<Cut, Memory>
    requires whole { text.now ≡ c ∷ rest.now }
    requires small { length rest.now < 2 ^ 63 }
    ensures { IfOk result (λ f. f ≡ spec.other_front c rest.now) }
{
    if is_digit(c) {
        number(alloc, digits_at(text))
    } else if is_quote(c) {
        string(alloc, c, rest)
    } else if c == '/' {
        Ok(after_slash(rest))
    } else {
        Ok(sign_at(text))
    }
}

fn is_quote(c: char) -> bool
    ensures { result ≡ (c == 34 || c == 39) }
{
    c == '"' || c == '\''
}

/// What stands at a place.
pub fn front_at(alloc: Global, text: &[char], at: usize) -> Result<Cut, Memory>
    requires small { length text.now < 2 ^ 63 }
    requires within { at ≤ length text.now }
    ensures { IfOk result (λ f. f ≡ spec.front (drop at text.now)) }
{
    front(alloc, &text[at..])
}
