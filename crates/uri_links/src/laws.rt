//! What holds of the definitions alone.
ghost use Rattle.std.specs.Prelude.{◌≡◌, ℕ, List, [], length, IsSome, None};
ghost use Rattle.uri_links.specs.Dots.{steps, remove_dot_segments};
ghost use Rattle.uri_links.specs.Faults.{key_fault};
ghost use Rattle.uri_links.specs.Parts.{Parts, parts, recompose, AreParts};
ghost use Rattle.uri_links.specs.Resolution.{key, resolve};

/// A text has its parts, and no others; put together they are the text (RFC 3986 section 5.3).
pub fn parts_are_one()
    ensures recomposed { (text : List ℕ) → recompose (parts text) ≡ text }
    ensures are { (text : List ℕ) → AreParts (parts text) text }
    ensures only { (text : List ℕ) (p : Parts) → AreParts p text → p ≡ parts text }
{}

/// The steps of section 5.2.4 come to an end, and taking out the dot segments twice is taking them out once.
pub fn dots_are_gone()
    ensures ended { (path : List ℕ) → (steps (length path) (record { input = path; output = [] })).input ≡ [] }
    ensures once { (path : List ℕ) → remove_dot_segments (remove_dot_segments path) ≡ remove_dot_segments path }
{}

/// A reference with a scheme doesn't depend on the base (section 5.2.2, strict).
pub fn schemes_ignore_bases()
    ensures { (base other reference : List ℕ) → IsSome (parts reference).scheme
        → resolve base reference ≡ resolve other reference }
{}

/// The key of a text that may be one is a key, and its own.
pub fn keys_are_keys()
    ensures own { (text : List ℕ) → key_fault text ≡ None → key (key text) ≡ key text }
    ensures key { (text : List ℕ) → key_fault text ≡ None → key_fault (key text) ≡ None }
{}
