//! Laws of what a publisher and a reader know, each the contract of a function that does nothing.
ghost use Rattle.std.specs.Prelude.{◌≡◌, ℕ, ◌+◌, ◌≤◌, ◌↔◌, List, All};
ghost use Rattle.std.specs.List.{Contains};
ghost use Rattle.std.specs.List.Sorted.{IsStrictlyIncreasing};
ghost use Rattle.std.specs.Map.{keys_of};
ghost use Rattle.std.specs.declared.sync.Arc.{Arc};
ghost use Rattle.std.specs.declared.alloc.Global.{Global};
ghost use Rattle.once_cell.specs.declared.race.note.Note.{Note};
ghost use Rattle.version_shelf.specs.declared.publisher.Publisher.{Publisher};
ghost use Rattle.version_shelf.specs.declared.reader.Reader.{Reader};
ghost use Rattle.version_shelf.specs.declared.shelf.Shelf.{Shelf};
ghost use Rattle.version_shelf.specs.Ends.{Answered, IsPublisherOf, IsReaderOf, base_number, last_number, publisher_known, reached, reader_known, shown};
ghost use Rattle.version_shelf.specs.Known.{Keeps, KnowsAt, known};

/// The pairs of a row of notes are what the notes know, each at its cell's number.
pub fn known_is_what_notes_know<V>()
    ensures pairs { (notes : List (Note (Arc V Global))) (number k : ℕ) (x : V)
        → Contains (known number notes) (number + k, x)
        ↔ ((a : Arc V Global) × KnowsAt notes k a × (a.value ≡ x)) }
    ensures least { (notes : List (Note (Arc V Global))) (number : ℕ)
        → All (λ p. number ≤ p.0) (known number notes) }
{}

/// The pairs that a publisher or a reader knows stand in rising order of numbers, each number once.
pub fn known_rises<V>()
    ensures publisher { (p : Publisher V) → IsStrictlyIncreasing (keys_of (publisher_known p)) }
    ensures reader { (r : Reader V) → IsStrictlyIncreasing (keys_of (reader_known r)) }
{}

/// Where the numbers rise, each has one value.
pub fn numbers_stand_once<X>()
    ensures { (pairs : List (ℕ × X)) (n : ℕ) (x y : X) → IsStrictlyIncreasing (keys_of pairs)
        → Contains pairs (n, x) → Contains pairs (n, y) → x ≡ y }
{}

/// A shelf's publisher knows the numbers from the base's to its last, each of them and no other.
pub fn publisher_knows_each<V>()
    ensures { (s : Shelf V) (p : Publisher V) → IsPublisherOf s p → (n : ℕ)
        → ((x : V) × Contains (publisher_known p) (n, x))
        ↔ ((base_number s ≤ n) × (n ≤ last_number p)) }
{}

/// What a shelf's reader has reached is a number from the base's to the count that it was shown, and it knows the value
/// there. It knows no number outside of these.
pub fn reader_is_within<V>()
    ensures reached { (s : Shelf V) (r : Reader V) → IsReaderOf s r
        → (base_number s ≤ reached r) × (reached r ≤ shown r) }
    ensures value { (s : Shelf V) (r : Reader V) → IsReaderOf s r
        → (x : V) × Contains (reader_known r) (reached r, x) }
    ensures known { (s : Shelf V) (r : Reader V) → IsReaderOf s r
        → All (λ p. (base_number s ≤ p.0) × (p.0 ≤ shown r)) (reader_known r) }
{}

/// Of two answers of one reader the later one has no lower number, and where both have one number they have one value,
/// whatever the reader met in between.
pub fn answers_agree<V>()
    ensures later { (a b c d : Reader V) (m n : ℕ) (x y : V)
        → Answered a b m x → reached b ≤ reached c → Answered c d n y → m ≤ n }
    ensures value { (a b c d : Reader V) (n : ℕ) (x y : V)
        → Answered a b n x → Keeps (reader_known b) (reader_known c) → Answered c d n y → x ≡ y }
{}
