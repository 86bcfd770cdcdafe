//! Strings: what stands between their quotes, and what it means.
ghost use Rattle.std.specs.Prelude.{◌≡◌, false, ◌≤◌, ◌<◌, ◌^◌, length, IfSome, IfOk};
ghost use Rattle.script_reader.specs.Strings as strings;
ghost use Rattle.script_reader.specs.code.Decoding as spec;

use std::alloc::Global;
use vg_base::{Memory, Text};

/// A character of a string, and how many characters spell it.
#[derive(Clone, Copy)]
struct Spelled {
    character: char,
    len: usize,
}

/// The value of a hexadecimal digit.
fn hex(c: char) -> Option<u32>
    ensures value { result ≡ strings.hex c }
    ensures bound { IfSome result (λ d. d < 16) }
{
    match c {
        '0'..='9' => Some(c as u32 - 48),
        'a'..='f' => Some(c as u32 - 87),
        'A'..='F' => Some(c as u32 - 55),
        _ => None,
    }
}

/// The value of four hexadecimal digits.
fn unit(a: char, b: char, c: char, d: char) -> Option<u32>
    ensures value { result ≡ strings.unit a b c d }
    ensures bound { IfSome result (λ v. v < 65536) }
{
    let a = hex(a)?;
    let b = hex(b)?;
    let c = hex(c)?;
    let d = hex(d)?;
    Some(a * 4096 + b * 256 + c * 16 + d)
}

/// What a character behind a backslash stands for.
fn escape(c: char) -> Option<char>
    ensures { result ≡ strings.escape c }
{
    match c {
        '\\' | '"' | '\'' | '/' => Some(c),
        'n' => Some('\n'),
        'r' => Some('\r'),
        't' => Some('\t'),
        _ => None,
    }
}

/// The character of a pair of surrogates.
fn paired(high: u32, low: u32) -> Option<Spelled>
    ensures { result ≡ spec.paired high low }
{
    if 0xDC00 <= low && low < 0xE000 && 0xD800 <= high && high < 0xDC00 {
        let code = 0x10000 + (high - 0xD800) * 0x400 + (low - 0xDC00);
        let character = char::from_u32(code)?;
        Some(Spelled { character, len: 12 })
    } else {
        None
    }
}

fn is_high(code: u32) -> bool
    ensures { result ≡ strings.is_high code }
{
    0xD800 <= code && code < 0xDC00
}

/// The character of one code unit, which is no high surrogate.
fn single(code: u32) -> Option<Spelled>
    requires small { code < 65536 }
    requires not_high { strings.is_high code ≡ false }
    ensures { result ≡ spec.single code }
{
    let character = char::from_u32(code)?;
    Some(Spelled { character, len: 6 })
}

/// A high surrogate, and what follows its escape.
fn after_high(high: u32, rest: &[char]) -> Option<Spelled>
    ensures { result ≡ spec.after_high high rest.now }
{
    match rest {
        ['\\', 'u', a, b, c, d, ..] => paired(high, unit(*a, *b, *c, *d)?),
        _ => None,
    }
}

/// Behind `\u`.
fn after_u(rest: &[char]) -> Option<Spelled>
    ensures { result ≡ spec.after_u rest.now }
{
    let [a, b, c, d, more @ ..] = rest else {
        return None;
    };
    let code = unit(*a, *b, *c, *d)?;
    if is_high(code) {
        after_high(code, more)
    } else {
        single(code)
    }
}

fn after_backslash(rest: &[char]) -> Option<Spelled>
    ensures { result ≡ spec.after_backslash rest.now }
{
    let [c, more @ ..] = rest else {
        return None;
    };
    if *c == 'u' {
        return after_u(more);
    }
    let character = escape(*c)?;
    Some(Spelled { character, len: 2 })
}

/// Whether a character ends a string, or can't stand in one.
fn is_end(quote: char, c: char) -> bool
    ensures { result ≡ spec.is_end quote c }
{
    c == quote || c == '\n' || c == '\r'
}

/// The first character that a text between these quotes spells.
#[tactic(auto, unfolding(crate::specs::code::Decoding::first))]
fn first(quote: char, text: &[char]) -> Option<Spelled>
    ensures { result ≡ spec.first quote text.now }
{
    let [c, rest @ ..] = text else {
        return None;
    };
    let c = *c;
    if c == '\\' {
        after_backslash(rest)
    } else if is_end(quote, c) {
        None
    } else {
        Some(Spelled {
            character: c,
            len: 1,
        })
    }
}

/// Whether the quote stands at the front.
fn is_closed(quote: char, text: &[char]) -> bool
    ensures { result ≡ spec.is_closed quote text.now }
{
    match text {
        [c, ..] => *c == quote,
        [] => false,
    }
}

/// What stands before the closing quote, decoded, and how many characters there are up to and with that quote.
pub fn string_at(alloc: Global, quote: char, text: &[char]) -> Result<Option<(Text, usize)>, Memory>
    requires { length text.now < 2 ^ 63 }
    ensures value { IfOk result (λ o. o ≡ spec.string_of quote text.now) }
    ensures within { IfOk result (λ o. IfSome o (λ f. f.1 ≤ length text.now)) }
{
    let mut decoded = Text::new(alloc);
    let mut at = 0usize;
    while let Some(spelled) = first(quote, &text[at..]) {
        decoded.push(spelled.character)?;
        at += spelled.len;
    }
    if is_closed(quote, &text[at..]) {
        Ok(Some((decoded, at + 1)))
    } else {
        Ok(None)
    }
}
