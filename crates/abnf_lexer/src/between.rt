//! What stands between an opening and the next closing.
ghost use Rattle.std.specs.Prelude.{◌≡◌, ◌<◌, length};
ghost use Rattle.std.specs.Option.{option_map};
ghost use Rattle.abnf_lexer.specs.code.Repeats as spec;

use vg_base::closing_end;

/// What is enclosed, and what is left behind it.
#[derive(Clone, Copy, Debug)]
pub(crate) struct Enclosed<'a> {
    pub inside: &'a [char],
    pub behind: &'a [char],
}

/// What stands between the opening, with which the text must begin, and the next closing; and what is left behind that.
pub(crate) fn between<'a>(
    opening: &[char],
    close: &[char],
    text: &'a [char],
) -> Option<Enclosed<'a>>
    ensures { option_map spec.parts_of result ≡ spec.between opening.now close.now text.now }
{
    if !text.starts_with(opening) {
        return None;
    }
    let rest = &text[opening.len()..];
    let Some(end) = closing_end(close, rest) else {
        return None;
    };
    Some(Enclosed {
        inside: &rest[..end.saturating_sub(close.len())],
        behind: &rest[end..],
    })
}
