//! Names of rules in percent form (RFC 3986 section 2.1; SRGS 1.0 section 2.2.2).
ghost use Rattle.std.specs.Prelude.{◌≡◌, ◌≤◌, ◌+◌, ◌*◌, true, false, [], ℕ, List, Some, IfOk, IfSome, IfNone, MatchOption, codes, chars};
ghost use Rattle.std.specs.Char.{is_ascii_hexdigit};
ghost use Rattle.std.specs.List.{list_all};
ghost use Rattle.vg_base.specs.Characters.{is_name};
ghost use Rattle.uri_links.specs.Allowed.{are_allowed, begins_hexadecimal};
ghost use Rattle.rule_reader.specs.References.{hexadecimal, unescaped, IsFragment};
ghost use Rattle.rule_reader.specs.code.Escapes.{escaped, first_byte, is_rule_name};

use std::alloc::Global;
use std::str;
use vg_base::{Memory, Text, is_name, is_name_start};

/// The number that a hexadecimal digit is.
fn hexadecimal(digit: char) -> u32
    requires { is_ascii_hexdigit digit ≡ true }
    ensures value { result ≡ hexadecimal digit }
    ensures bound { result ≤ 15 }
{
    let code = digit as u32;
    if code < 58 {
        code - 48
    } else if code < 71 {
        code - 55
    } else {
        code - 87
    }
}

/// The byte that two hexadecimal digits are.
fn byte_of(high: char, low: char) -> u8
    requires high { is_ascii_hexdigit high ≡ true }
    requires low { is_ascii_hexdigit low ≡ true }
    ensures { result ≡ hexadecimal high * 16 + hexadecimal low }
{
    (hexadecimal(high) * 16 + hexadecimal(low)) as u8
}

/// The byte that stands behind a `%`, and what stands behind it.
fn escaped(digits: &[char]) -> Option<(u8, &[char])>
    requires { begins_hexadecimal digits.now ≡ true }
    ensures some { IfSome result (λ found. escaped digits.now ≡ Some (found.0, found.1.now)) }
    ensures none { IfNone result ⊥ }
{
    let (high, behind) = digits.split_first()?;
    let (low, after) = behind.split_first()?;
    Some((byte_of(*high, *low), after))
}

/// The first byte of a fragment, and what stands behind it.
fn first_byte(rest: &[char]) -> Option<(u8, &[char])>
    requires { are_allowed (codes "/?") rest.now ≡ true }
    ensures some { IfSome result (λ found. first_byte rest.now ≡ Some (found.0, found.1.now)) }
    ensures none { IfNone result (rest.now ≡ []) }
{
    let (first, after) = rest.split_first()?;
    if *first == '%' {
        escaped(after)
    } else {
        Some((*first as u8, after))
    }
}

/// The bytes that a fragment is.
fn unescaped(alloc: Global, fragment: &[char]) -> Result<Vec<u8>, Memory>
    requires { are_allowed (codes "/?") fragment.now ≡ true }
    ensures { IfOk result (λ v. v.items ≡ unescaped fragment.now) }
{
    let mut bytes = Vec::new(alloc);
    let mut rest = fragment;
    while let Some((byte, after)) = first_byte(rest) {
        bytes.push(byte)?;
        rest = after;
    }
    Ok(bytes)
}

fn are_names(others: &[char]) -> bool
    ensures { result ≡ list_all is_name others.now }
{
    others.iter().all(|c| is_name(*c))
}

fn is_rule_name(name: &[char]) -> bool
    ensures { result ≡ is_rule_name name.now }
{
    match name {
        [first, others @ ..] => is_name_start(*first) && are_names(others),
        [] => false,
    }
}

/// The text, where it is the name of a rule.
fn rule_name(alloc: Global, text: &str) -> Result<Option<Text>, Memory>
    ensures { IfOk result (λ o. MatchOption o (is_rule_name (chars text.now) ≡ false)
        (λ t. (is_rule_name (chars text.now) ≡ true) × (t ≡ chars text.now))) }
{
    let name = Text::of(alloc, text)?;
    let characters = name.characters(alloc)?;
    if is_rule_name(characters.as_slice()) {
        Ok(Some(name))
    } else {
        Ok(None)
    }
}

/// The name of a rule that a fragment is.
pub(crate) fn name_of(alloc: Global, fragment: &Text) -> Result<Option<Text>, Memory>
    requires { are_allowed (codes "/?") fragment.now ≡ true }
    ensures { IfOk result (λ o. MatchOption o ((name : List ℕ) → IsFragment fragment.now name → ⊥)
        (λ name. IsFragment fragment.now name)) }
{
    let characters = fragment.characters(alloc)?;
    let bytes = unescaped(alloc, characters.as_slice())?;
    match str::from_utf8(bytes.as_slice()) {
        Ok(text) => {
            let name = rule_name(alloc, text)?;
            Ok(name)
        }
        Err(_) => Ok(None),
    }
}
