//! Laws of the definitions, each the contract of a function that does nothing.
ghost use Rattle.std.specs.Prelude.{◌≡◌, ℕ, List, ◌∷◌, ◌++◌, true, false, Some, None};
ghost use Rattle.std.specs.Ordering.{is_gt};
ghost use Rattle.std.specs.declared.cmp.Ordering.TheVariants.{Less, Equal};
ghost use Rattle.vg_base.specs.Characters.{byte_len, IsPlace};
ghost use Rattle.vg_base.specs.Places.{moves_on, place_after, place_order};
ghost use Rattle.vg_base.specs.Faults.{doc_fault_order, link_fault_order};
ghost use Rattle.vg_base.specs.First.{IsFirst};
ghost use Rattle.vg_base.specs.declared.place.Place.{Place};
ghost use Rattle.vg_base.specs.declared.doc_fault.DocFault.{DocFault};
ghost use Rattle.vg_base.specs.declared.link_fault.LinkFault.{LinkFault};

use crate::doc_fault::DocFault;
use crate::link_fault::LinkFault;
use crate::place::Place;

/// Each front of a text ends at a place.
pub fn fronts_end_at_places()
    ensures { (front back : List ℕ) → IsPlace (front ++ back) (byte_len front) }
{}

/// A place lies before no place of a shorter front, and behind each character that moves on it is later.
pub fn places_rise()
    ensures not_back { (front more : List ℕ) → is_gt (place_order (place_after front) (place_after (front ++ more))) ≡ false }
    ensures later { (front more : List ℕ) (c : ℕ) → moves_on front c ≡ true
        → place_order (place_after front) (place_after (front ++ c ∷ more)) ≡ Less }
{}

/// What `cmp` answers at places and faults.
pub fn orders_of_faults()
    ensures places { (p q : Place) → ⟦<Place as Ord>⟧.cmp p q ≡ place_order p q }
    ensures documents { (f g : DocFault) → ⟦<DocFault as Ord>⟧.cmp f g ≡ doc_fault_order f g }
    ensures sets { (f g : LinkFault) → ⟦<LinkFault as Ord>⟧.cmp f g ≡ link_fault_order f g }
{}

/// Two firsts of one list stand alike.
pub fn one_first<F: Ord>()
    ensures { (fs : List F) (f g : F) → IsFirst F.cmp fs (Some f) → IsFirst F.cmp fs (Some g) → F.cmp f g ≡ Equal }
{}
