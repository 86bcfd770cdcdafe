//! What the batches of a list are, as laws of the definitions.
ghost use Rattle.std.specs.Prelude.{◌≡◌, List, ◌++◌};
ghost use Rattle.std.specs.List.{All};
ghost use Rattle.server_shell.specs.Batching.{Division, IsBatch, IsOpen, batches_of, items_of, last_batch, whole_batches_of};

/// A list is batches that their own last item ended, and a rest that none of its items ended, and
/// it is so in one way alone. Its batches are those, and the rest where it has an item, so no item
/// is lost.
pub fn batches_are_cut_at_ends<C, X>()
    ensures cut { (d : Division C X) (xs : List X) → (rest : List X) × IsOpen d d.first rest
        × All (IsBatch d d.first) (whole_batches_of d d.first xs)
        × (xs ≡ items_of (whole_batches_of d d.first xs) ++ rest) }
    ensures whole { (d : Division C X) (batches : List (List X)) (rest : List X)
        → All (IsBatch d d.first) batches → IsOpen d d.first rest
        → whole_batches_of d d.first (items_of batches ++ rest) ≡ batches }
    ensures all { (d : Division C X) (batches : List (List X)) (rest : List X)
        → All (IsBatch d d.first) batches → IsOpen d d.first rest
        → batches_of d d.first (items_of batches ++ rest) ≡ batches ++ last_batch rest }
    ensures items { (d : Division C X) (xs : List X) → items_of (batches_of d d.first xs) ≡ xs }
{}
