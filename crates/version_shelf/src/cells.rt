//! Cells in a row, each with the note of what it is known to hold.
ghost use Rattle.std.specs.Prelude.{◌≡◌, ◌<◌, ◌≤◌, map, length, vec_len, replicate, IfOk, Some, None, MatchResult, MatchOption, slice_set, slice_index_or};
ghost use Rattle.once_cell.specs.Once.{cell_name, Agrees};
ghost use Rattle.version_shelf.specs.Known.{KnowsAt, facts};

use once_cell::race::{Note, OnceBox};
use std::alloc::{AllocError, AllocFailed, Global};
use std::sync::Arc;

/// Empty cells, and a note of each.
pub(crate) fn empty_cells<V: Drop>(
    alloc: Global,
    count: usize,
) -> Result<(Vec<OnceBox<Arc<V>>>, Vec<Note<Arc<V>>>), AllocError>
    ensures { IfOk result (λ r. (vec_len r.0 ≡ count)
        × (map (λ m. m.cell) r.1.items ≡ map cell_name r.0.items)
        × (facts r.1.items ≡ replicate count None)) }
{
    let mut cells = Vec::new(alloc);
    let mut notes = Vec::new(alloc);
    for _ in 0..count {
        let cell: OnceBox<Arc<V>> = OnceBox::new(alloc);
        let note = cell.note();
        cells.push(cell)?;
        notes.push(note)?;
    }
    Ok((cells, notes))
}

/// Puts the value into the cell. It comes back where there is no memory, or the cell holds another.
fn fill<V: Drop>(
    alloc: Global,
    cell: &OnceBox<Arc<V>>,
    mut note: Note<Arc<V>>,
    value: Arc<V>,
) -> Result<Note<Arc<V>>, Arc<V>>
    requires { note.cell ≡ cell_name cell.now }
    ensures { MatchResult result
        (λ n. (n.cell ≡ note.cell) × (n.known ≡ Some value)) (λ v. v ≡ value) }
{
    let boxed = match Box::new(alloc, value) {
        Ok(boxed) => boxed,
        Err(AllocFailed { value }) => return Err(value),
    };
    match cell.set_as(boxed, &mut note) {
        Ok(()) => Ok(note),
        Err(back) => Err(Box::into_inner(back)),
    }
}

/// Fills the cell at k, and lets the note there know the value.
pub(crate) fn fill_at<V: Drop>(
    alloc: Global,
    cells: &Vec<OnceBox<Arc<V>>>,
    notes: &mut Vec<Note<Arc<V>>>,
    k: usize,
    value: Arc<V>,
) -> Result<(), Arc<V>>
    requires { (k < length cells.now.items)
        × (map (λ m. m.cell) notes.old.items ≡ map cell_name cells.now.items) }
    ensures names { map (λ m. m.cell) notes.new.items ≡ map (λ m. m.cell) notes.old.items }
    ensures known { MatchResult result
        (λ _. facts notes.new.items ≡ slice_set (facts notes.old.items) k (Some value))
        (λ v. (v ≡ value) × (facts notes.new.items ≡ facts notes.old.items)) }
{
    let note = notes[k].again();
    match fill(alloc, &cells[k], note, value) {
        Ok(note) => {
            notes[k] = note;
            Ok(())
        }
        Err(value) => Err(value),
    }
}

/// What the cell at k holds, which the note there knows from then on.
fn look<'a, X>(cells: &'a Vec<OnceBox<X>>, notes: &mut Vec<Note<X>>, k: usize) -> Option<&'a X>
    requires { (k < length cells.now.items)
        × (map (λ m. m.cell) notes.old.items ≡ map cell_name cells.now.items) }
    ensures names { map (λ m. m.cell) notes.new.items ≡ map (λ m. m.cell) notes.old.items }
    ensures value { MatchOption result
        ((slice_index_or (facts notes.old.items) k None ≡ None)
        × (facts notes.new.items ≡ facts notes.old.items))
        (λ r. Agrees (slice_index_or (facts notes.old.items) k None) r.now
        × (facts notes.new.items ≡ slice_set (facts notes.old.items) k (Some r.now))) }
{
    cells[k].get_as(&mut notes[k])
}

/// The newest value from the place `top` down to `last`, whose value is known.
pub(crate) fn newest<'a, X>(
    cells: &'a Vec<OnceBox<X>>,
    notes: &mut Vec<Note<X>>,
    last: usize,
    top: usize,
) -> (usize, &'a X)
    requires places { (last ≤ top) × (top < length cells.now.items) }
    requires names { map (λ m. m.cell) notes.old.items ≡ map cell_name cells.now.items }
    requires known { (x : X) × KnowsAt notes.old.items last x }
    ensures places { (last ≤ result.0) × (result.0 ≤ top) }
    ensures names { map (λ m. m.cell) notes.new.items ≡ map (λ m. m.cell) notes.old.items }
    ensures known { facts notes.new.items
        ≡ slice_set (facts notes.old.items) result.0 (Some result.1.now) }
    ensures agrees { Agrees (slice_index_or (facts notes.old.items) result.0 None) result.1.now }
{
    let mut at = top;
    while at > last {
        if let Some(value) = look(cells, notes, at) {
            return (at, value);
        }
        at -= 1;
    }
    match look(cells, notes, last) {
        Some(value) => (last, value),
        None => unreachable!(),
    }
}
