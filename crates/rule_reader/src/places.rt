//! What stands where a lexeme stands.
ghost use Rattle.std.specs.Prelude.{◌≡◌, IfOk};
ghost use Rattle.std.specs.Str.{chars};
ghost use Rattle.rule_reader.specs.Leaves.{HasSlice, HasInside};
ghost use Rattle.rule_reader.specs.code.Walks.{IsShown};

use abnf_lexer::{Spanned, inside_of};
use std::alloc::Global;
use vg_base::{Memory, Text};

#[tactic(auto, using(std::proofs::lemmas::Str::chars_from_encodes))]
fn characters_of(alloc: Global, slice: &str) -> Result<Vec<char>, Memory>
    ensures { IfOk result (λ v. v.items ≡ chars slice.now) }
{
    Ok(slice.chars().collect(alloc)?)
}

/// The characters of the lexeme there.
pub(crate) fn slice_at(alloc: Global, text: &Text, span: Spanned) -> Result<Vec<char>, Memory>
    requires { IsShown text.now span }
    ensures { IfOk result (λ v. HasSlice text.now span v.items) }
{
    characters_of(alloc, text.slice(span.from as usize, span.to as usize))
}

/// The characters between the marks of the lexeme there.
pub(crate) fn inside_at(alloc: Global, text: &Text, span: Spanned) -> Result<Text, Memory>
    requires { IsShown text.now span }
    ensures { IfOk result (λ t. HasInside text.now span t) }
{
    let slice = slice_at(alloc, text, span)?;
    match inside_of(span.kind, slice.as_slice()) {
        Some(inside) => Text::from_characters(alloc, inside.characters),
        None => Ok(Text::new(alloc)),
    }
}
