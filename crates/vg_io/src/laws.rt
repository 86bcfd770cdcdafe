//! What a line is, as laws of the definitions.
ghost use Rattle.std.specs.Prelude.{◌≡◌, ℕ, List, ◌++◌};
ghost use Rattle.std.specs.List.{All};
ghost use Rattle.vg_io.specs.Lines.{lines_of, whole_lines_of, HasNoFeed, with_feeds, last_line};

/// All bytes are whole lines, each with its line feed, and a rest that has no line feed. The lines
/// are those, and the rest where it has a byte.
pub fn lines_are_cut_at_feeds()
    ensures cut { (bytes : List ℕ) → (rest : List ℕ) × HasNoFeed rest
        × All HasNoFeed (whole_lines_of bytes)
        × (bytes ≡ with_feeds (whole_lines_of bytes) ++ rest) }
    ensures whole { (lines : List (List ℕ)) (rest : List ℕ) → All HasNoFeed lines → HasNoFeed rest
        → whole_lines_of (with_feeds lines ++ rest) ≡ lines }
    ensures all { (lines : List (List ℕ)) (rest : List ℕ) → All HasNoFeed lines → HasNoFeed rest
        → lines_of (with_feeds lines ++ rest) ≡ lines ++ last_line rest }
{}
