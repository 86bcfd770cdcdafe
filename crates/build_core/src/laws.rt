//! Laws of every order of events.
ghost use Rattle.std.specs.Prelude.{ℕ, ◌*◌, ◌≤◌, List, length, nat_eq};
ghost use Rattle.std.specs.List.{IsDistinct};
ghost use Rattle.vg_base.specs.declared.numbers.DocIx.{DocIx};
ghost use Rattle.build_core.specs.declared.event.DocState.{DocState};
ghost use Rattle.build_core.specs.declared.event.Event.{Event};
ghost use Rattle.build_core.specs.Rows.{ByRows};
ghost use Rattle.build_core.specs.Core.{after_all, claims, Core, DoneIsClosure, Finished, IsRun, Opening, Sound};

/// Every run from the opening state, whatever the order of its events and whatever cycles the imports have: it claims
/// each document at most once, has at most three events a document, leaves a sound state, and where it leaves a finished
/// one, the documents that are done are those that are reached from the entries.
pub fn every_run()
    ensures claimed_once { (rows : List (List DocIx)) (entries : List DocIx)
        (c : Core) (events : List Event) → Opening (length rows) entries c.docs
        → IsRun (ByRows rows) c events
        → IsDistinct nat_eq (claims events) }
    ensures few { (rows : List (List DocIx)) (entries : List DocIx)
        (c : Core) (events : List Event) → Opening (length rows) entries c.docs
        → IsRun (ByRows rows) c events
        → length events ≤ 3 * length rows }
    ensures sound { (rows : List (List DocIx)) (entries : List DocIx)
        (c : Core) (events : List Event) → Opening (length rows) entries c.docs
        → IsRun (ByRows rows) c events
        → Sound (ByRows rows) entries (after_all c events).docs }
    ensures closure { (rows : List (List DocIx)) (entries : List DocIx)
        (c : Core) (events : List Event) → Opening (length rows) entries c.docs
        → IsRun (ByRows rows) c events
        → Finished (after_all c events).docs
        → DoneIsClosure (ByRows rows) entries (after_all c events).docs }
{}

/// A sound state at its end: the documents that are done are those that are reached from the entries.
pub fn done_is_closure()
    ensures { (rows : List (List DocIx)) (entries : List DocIx) (docs : List DocState)
        → Sound (ByRows rows) entries docs → Finished docs
        → DoneIsClosure (ByRows rows) entries docs }
{}
