//! Notes in a row: copies of them, and what one row learns of another.
ghost use Rattle.std.specs.Prelude.{◌≡◌, ℕ, ◌<◌, ◌≤◌, map, length, IfOk, Some, None, slice_index_or};
ghost use Rattle.version_shelf.specs.Known.{KnowsAt, KeepsFacts, facts};

use once_cell::race::Note;
use std::alloc::{AllocError, Global};

/// A copy of each note.
pub(crate) fn copies<X>(alloc: Global, notes: &mut Vec<Note<X>>) -> Result<Vec<Note<X>>, AllocError>
    ensures same { notes.new.items ≡ notes.old.items }
    ensures copies { IfOk result (λ v. v.items ≡ notes.old.items) }
{
    let mut out = Vec::new(alloc);
    for i in 0..notes.len() {
        out.push(notes[i].again())?;
    }
    Ok(out)
}

/// One note learns what another of its cell knows.
fn learn<X>(mine: &mut Note<X>, theirs: &mut Note<X>)
    requires cell { theirs.old.cell ≡ mine.old.cell }
    requires knows { (x : X) × (theirs.old.known ≡ Some x) }
    ensures same { theirs.new ≡ theirs.old }
    ensures takes { (mine.new.cell ≡ mine.old.cell) × (mine.new.known ≡ theirs.old.known) }
    ensures agrees { (y : X) → mine.old.known ≡ Some y → theirs.old.known ≡ Some y }
{
    mine.compare(theirs.again());
    *mine = theirs.again();
}

/// The first notes learn what those of another know.
pub(crate) fn learn_all<X>(mine: &mut Vec<Note<X>>, theirs: &mut Vec<Note<X>>, count: usize)
    requires names { map (λ m. m.cell) mine.old.items ≡ map (λ m. m.cell) theirs.old.items }
    requires known { (k : ℕ) → k < count → (x : X) × KnowsAt theirs.old.items k x }
    requires few { count ≤ length mine.old.items }
    ensures same { theirs.new.items ≡ theirs.old.items }
    ensures names { map (λ m. m.cell) mine.new.items ≡ map (λ m. m.cell) mine.old.items }
    ensures keeps { KeepsFacts mine.old.items mine.new.items }
    ensures learnt { (k : ℕ) → k < count
        → slice_index_or (facts mine.new.items) k None
        ≡ slice_index_or (facts theirs.old.items) k None }
    ensures others { (k : ℕ) → count ≤ k
        → slice_index_or (facts mine.new.items) k None
        ≡ slice_index_or (facts mine.old.items) k None }
{
    for k in 0..count {
        learn(&mut mine[k], &mut theirs[k]);
    }
}
