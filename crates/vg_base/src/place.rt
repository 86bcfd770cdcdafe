//! Places in a text: lines and columns.
ghost use Rattle.std.specs.Prelude.{◌≡◌, ℕ, ◌-◌, ◌^◌, ◌≤◌, ◌==◌, ◌&&◌, not, List, [], ◌∷◌, ◌++◌, length, slice_get};
ghost use Rattle.std.specs.Option.{is_none, unwrap_or};
ghost use Rattle.vg_base.specs.Places.{ends_line, is_within_line, place_after};

use crate::text::Text;

/// A line and a column, both counted from 1, the column in characters.
#[derive(Clone, Copy, Debug, PartialEq, Eq, PartialOrd, Ord)]
pub struct Place {
    pub line: u64,
    pub column: u64,
}

/// Whether a character ends a line, where `last` stands before it.
fn ends_line(last: Option<char>, c: char) -> bool
    ensures { result ≡ ends_line (unwrap_or last 0) c }
{
    c == '\r' || (c == '\n' && last != Some('\r'))
}

/// Whether a character takes a column of its line, where `last` stands before it.
fn takes_column(last: Option<char>, c: char) -> bool
    ensures { result ≡ (is_within_line c && not (c == 0xFEFF && is_none last)) }
{
    !matches!(c, '\r' | '\n') && (c != '\u{FEFF}' || last.is_some())
}

/// The place after one more character, where `last` is the last one before it.
pub(crate) fn place_past(last: Option<char>, place: Place, c: char) -> Place
    requires line { place.line ≤ 2 ^ 63 }
    requires column { place.column ≤ 2 ^ 63 }
    ensures { (front : List ℕ) → last ≡ slice_get front (length front - 1) → place ≡ place_after front
        → result ≡ place_after (front ++ c ∷ []) }
{
    let Place { line, column } = place;
    if ends_line(last, c) {
        Place {
            line: line + 1,
            column: 1,
        }
    } else if takes_column(last, c) {
        Place {
            line,
            column: column + 1,
        }
    } else {
        place
    }
}

/// The place just past a text. It walks the text once, and takes no memory.
pub fn place_at_end(text: &Text) -> Place
    ensures { result ≡ place_after text.now }
{
    let mut place = Place { line: 1, column: 1 };
    let mut last = None;
    for c in text.as_str().chars() {
        place = place_past(last, place, c);
        last = Some(c);
    }
    place
}
