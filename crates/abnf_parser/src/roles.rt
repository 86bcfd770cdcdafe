//! Which lexeme of a document a slice of its text is.
ghost use Rattle.std.specs.Prelude.{◌≡◌, ℕ, List, IfOk, nat_eq, chars};
ghost use Rattle.std.specs.Cmp.Lexicographic.{pointwise};
ghost use Rattle.std.specs.Option.{option_copied};
ghost use Rattle.abnf_lexer.specs.declared.lexemes.PieceKind.TheVariants as piece;
ghost use Rattle.abnf_lexer.specs.declared.lexemes.LexKind.TheVariants as kind;
ghost use Rattle.abnf_lexer.specs.Forms.{HasForm};
ghost use Rattle.abnf_lexer.specs.Repeats.{IsNoRepeat};
ghost use Rattle.abnf_parser.specs.Roles as spec;

use crate::lexeme::{AngleForm, BareWord, Lexeme, Sign};
use abnf_lexer::{LexKind, Spanned, inside_of, is_code, read_repeat};
use std::alloc::Global;
use vg_base::Memory;

fn is(slice: &[char], keyword: &[char]) -> bool
    ensures { result ≡ pointwise nat_eq slice.now keyword.now }
{
    slice == keyword
}

/// The keyword that the characters are.
fn keyword_of(slice: &[char]) -> Option<BareWord>
    ensures { result ≡ spec.found_in spec.keywords slice.now }
{
    if is(slice, &['l', 'a', 'n', 'g', 'u', 'a', 'g', 'e']) {
        Some(BareWord::Language)
    } else if is(slice, &['m', 'o', 'd', 'e']) {
        Some(BareWord::Mode)
    } else if is(slice, &['v', 'o', 'i', 'c', 'e']) {
        Some(BareWord::Voice)
    } else if is(slice, &['d', 't', 'm', 'f']) {
        Some(BareWord::Dtmf)
    } else if is(slice, &['r', 'o', 'o', 't']) {
        Some(BareWord::Root)
    } else if is(slice, &['t', 'a', 'g', '-', 'f', 'o', 'r', 'm', 'a', 't']) {
        Some(BareWord::TagFormat)
    } else if is(slice, &['b', 'a', 's', 'e']) {
        Some(BareWord::Base)
    } else if is(slice, &['l', 'e', 'x', 'i', 'c', 'o', 'n']) {
        Some(BareWord::Lexicon)
    } else if is(slice, &['m', 'e', 't', 'a']) {
        Some(BareWord::Meta)
    } else if is(slice, &['h', 't', 't', 'p', '-', 'e', 'q', 'u', 'i', 'v']) {
        Some(BareWord::HttpEquiv)
    } else if is(slice, &['i', 's']) {
        Some(BareWord::Is)
    } else if is(slice, &['p', 'u', 'b', 'l', 'i', 'c']) {
        Some(BareWord::Public)
    } else if is(slice, &['p', 'r', 'i', 'v', 'a', 't', 'e']) {
        Some(BareWord::Private)
    } else {
        None
    }
}

/// What a bare word is.
fn word_of(slice: &[char]) -> BareWord
    ensures { spec.IsBareWord result slice.now }
{
    match keyword_of(slice) {
        Some(keyword) => keyword,
        None => {
            if is_code(slice) {
                BareWord::Code
            } else {
                BareWord::Other
            }
        }
    }
}

/// What an Angle holds that is no repeat.
fn media_form(slice: &[char]) -> AngleForm
    ensures { (rest : List ℕ) → HasForm (piece.Lexeme kind.Angle) slice.now rest
        → IsNoRepeat slice.now → spec.HasAngleForm result slice.now }
{
    match inside_of(LexKind::Angle, slice) {
        Some(inside) => form_of(inside.media),
        None => AngleForm::Plain,
    }
}

/// An Angle that is no repeat, by its media type.
fn form_of(media: Option<&[char]>) -> AngleForm
    ensures { result ≡ spec.form_of (option_copied media.entry) }
{
    match media {
        Some(_) => AngleForm::Typed,
        None => AngleForm::Plain,
    }
}

/// What an Angle holds.
fn angle_form(slice: &[char]) -> AngleForm
    ensures { (rest : List ℕ) → HasForm (piece.Lexeme kind.Angle) slice.now rest
        → spec.HasAngleForm result slice.now }
{
    match read_repeat(slice) {
        Some(_) => AngleForm::Repeat,
        None => media_form(slice),
    }
}

/// The sign that the characters are.
fn sign_of(slice: &[char]) -> Option<Sign>
    ensures { result ≡ spec.found_in spec.signs slice.now }
{
    if is(slice, &[';']) {
        Some(Sign::Semicolon)
    } else if is(slice, &['=']) {
        Some(Sign::Equals)
    } else if is(slice, &['|']) {
        Some(Sign::Bar)
    } else if is(slice, &['(']) {
        Some(Sign::RoundOpen)
    } else if is(slice, &[')']) {
        Some(Sign::RoundClose)
    } else if is(slice, &['[']) {
        Some(Sign::SquareOpen)
    } else if is(slice, &[']']) {
        Some(Sign::SquareClose)
    } else {
        None
    }
}

/// The lexeme of a sign.
fn sign_lexeme(span: Spanned, slice: &[char]) -> Lexeme
    ensures { (rest : List ℕ) → HasForm (piece.Lexeme kind.Sign) slice.now rest
        → spec.StandsAs kind.Sign span slice.now result }
{
    match sign_of(slice) {
        Some(sign) => Lexeme::Sign(sign),
        None => Lexeme::Tag(span),
    }
}

#[tactic(auto, using(std::proofs::lemmas::Str::chars_from_encodes))]
fn characters_of(alloc: Global, slice: &str) -> Result<Vec<char>, Memory>
    ensures { IfOk result (λ v. v.items ≡ chars slice.now) }
{
    let characters: Vec<char> = slice.chars().collect(alloc)?;
    Ok(characters)
}

/// The lexeme of a slice that stands there.
pub(crate) fn lexeme_of(alloc: Global, span: Spanned, slice: &str) -> Result<Lexeme, Memory>
    ensures { IfOk result (λ x. (rest : List ℕ)
        → HasForm (piece.Lexeme span.kind) (chars slice.now) rest
        → spec.Stands span (chars slice.now) x) }
{
    match span.kind {
        LexKind::Quoted => Ok(Lexeme::Quoted(span)),
        LexKind::Name => Ok(Lexeme::Name(span)),
        LexKind::UriRef => Ok(Lexeme::UriRef(span)),
        LexKind::Weight => Ok(Lexeme::Weight(span)),
        LexKind::Language => Ok(Lexeme::Language(span)),
        LexKind::Tag => Ok(Lexeme::Tag(span)),
        LexKind::Bare => {
            let characters = characters_of(alloc, slice)?;
            let word = word_of(characters.as_slice());
            Ok(Lexeme::Bare { word, span })
        }
        LexKind::Angle => {
            let characters = characters_of(alloc, slice)?;
            let form = angle_form(characters.as_slice());
            Ok(Lexeme::Angle { form, span })
        }
        LexKind::Sign => {
            let characters = characters_of(alloc, slice)?;
            Ok(sign_lexeme(span, characters.as_slice()))
        }
    }
}
