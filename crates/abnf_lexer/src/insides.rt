//! What stands between the marks of a lexeme.
ghost use Rattle.std.specs.Prelude.{◌≡◌, MatchOption};
ghost use Rattle.std.specs.Option.{option_map, option_copied};
ghost use Rattle.abnf_lexer.specs.Insides.{IsInside, HasNoInside};
ghost use Rattle.abnf_lexer.specs.code.Insides as spec;
ghost use Rattle.abnf_lexer.specs.code.Repeats as parts;

use crate::between::{Enclosed, between};
use crate::lexemes::LexKind;

/// The inside of a lexeme: the characters between its marks, and of an Angle or a reference its media type or none.
#[derive(Clone, Copy, Debug)]
pub struct Inside<'a> {
    pub characters: &'a [char],
    pub media: Option<&'a [char]>,
}

/// The inside of a slice of this kind. It takes no memory, and each lexeme has one.
pub fn inside_of(kind: LexKind, slice: &[char]) -> Option<Inside<'_>>
    ensures { MatchOption result (HasNoInside kind slice.now)
        (λ i. IsInside kind i.characters.now (option_copied i.media) slice.now) }
{
    found(kind, slice)
}

fn found(kind: LexKind, slice: &[char]) -> Option<Inside<'_>>
    ensures { option_map spec.shown result ≡ spec.inside kind slice.now }
{
    match kind {
        LexKind::Bare => Some(plain(slice)),
        LexKind::Quoted => alone(between(&['"'], &['"'], slice)),
        LexKind::Name => behind_dollar(slice),
        LexKind::UriRef => angled(between(&['$', '<'], &['>'], slice)),
        LexKind::Angle => angled(between(&['<'], &['>'], slice)),
        LexKind::Weight => alone(between(&['/'], &['/'], slice)),
        LexKind::Language => behind_bang(slice),
        LexKind::Tag => in_tag(slice),
        LexKind::Sign => Some(plain(slice)),
    }
}

/// These characters, and no media type.
fn plain(characters: &[char]) -> Inside<'_>
    ensures { spec.shown result ≡ spec.plain characters.now }
{
    Inside {
        characters,
        media: None,
    }
}

/// What is enclosed, where nothing follows it.
fn alone(enclosed: Option<Enclosed<'_>>) -> Option<Inside<'_>>
    ensures { option_map spec.shown result ≡ spec.alone (option_map parts.parts_of enclosed.entry) }
{
    let Enclosed { inside, behind } = enclosed?;
    if behind.is_empty() {
        Some(plain(inside))
    } else {
        None
    }
}

/// The name of a rule.
fn behind_dollar(slice: &[char]) -> Option<Inside<'_>>
    ensures { option_map spec.shown result ≡ spec.behind_mark 36 slice.now }
{
    match slice {
        ['$', name @ ..] => Some(plain(name)),
        _ => None,
    }
}

/// The code of a language.
fn behind_bang(slice: &[char]) -> Option<Inside<'_>>
    ensures { option_map spec.shown result ≡ spec.behind_mark 33 slice.now }
{
    match slice {
        ['!', code @ ..] => Some(plain(code)),
        _ => None,
    }
}

/// What is enclosed in angles, and the media type that follows it or none.
fn angled(enclosed: Option<Enclosed<'_>>) -> Option<Inside<'_>>
    ensures { option_map spec.shown result ≡ spec.angled (option_map parts.parts_of enclosed.entry) }
{
    let Enclosed { inside, behind } = enclosed?;
    with_media(inside, behind)
}

fn with_media<'a>(characters: &'a [char], behind: &'a [char]) -> Option<Inside<'a>>
    ensures { option_map spec.shown result ≡ spec.with_media characters.now behind.now }
{
    if behind.is_empty() {
        return Some(plain(characters));
    }
    let Some(media) = between(&['~', '<'], &['>'], behind) else {
        return None;
    };
    if media.behind.is_empty() {
        Some(Inside {
            characters,
            media: Some(media.inside),
        })
    } else {
        None
    }
}

/// What a tag has between its marks, which its opening tells.
fn in_tag(slice: &[char]) -> Option<Inside<'_>>
    ensures { option_map spec.shown result ≡ spec.in_tag slice.now }
{
    if slice.starts_with(&['{', '!', '{']) {
        alone(between(&['{', '!', '{'], &['}', '!', '}'], slice))
    } else {
        alone(between(&['{'], &['}'], slice))
    }
}
