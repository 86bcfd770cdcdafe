//! Laws of the definitions, each the contract of a function that does nothing.
ghost use Rattle.std.specs.Prelude.{◌≡◌, ℕ, true, Bool, List, [], Result};
ghost use Rattle.vg_base.specs.declared.doc_fault.DocFault.{DocFault};
ghost use Rattle.abnf_parser.specs.Expansions.{Alternatives, alternatives_spelled, alternatives_meant};
ghost use Rattle.grammar_tree.specs.declared.doc_set.DocText.{DocText};
ghost use Rattle.grammar_tree.specs.declared.document.Doc.{Doc};
ghost use Rattle.rule_reader.specs.Leaves.{Leaf};
ghost use Rattle.rule_reader.specs.Imports.{IsResolvable};
ghost use Rattle.rule_reader.specs.Sets.{AreRows, IsClosure};
ghost use Rattle.vg_base.specs.declared.numbers.DocIx.{DocIx};
ghost use Rattle.rule_reader.specs.Reading.{Reads, IsFirstFault, IsReading};
ghost use Rattle.rule_reader.specs.Standing.{All, Of};

/// What holds of each lexeme of a body holds of each leaf of its tree.
pub fn leaves_are_lexemes()
    ensures { (p : Leaf → Bool) (inner : Alternatives) → All (λ leaf. p leaf ≡ true) (alternatives_spelled inner [])
        → Of (λ leaf. p leaf ≡ true) (alternatives_meant inner) }
{}

/// Each text reads as one document, or has one first fault, and not both.
pub fn texts_have_one_answer()
    ensures document { (text : List ℕ) (a b : Doc) → Reads text a → Reads text b → a ≡ b }
    ensures either { (text : List ℕ) (doc : Doc) (fault : DocFault) → Reads text doc
        → IsFirstFault text fault → ⊥ }
    ensures fault { (text : List ℕ) (f g : DocFault) → IsFirstFault text f → IsFirstFault text g
        → f ≡ g }
    ensures some { (text : List ℕ) → (answer : Result Doc DocFault) × IsReading text answer }
{}

/// The references by URI and the base of a document that was read can be resolved.
pub fn references_can_be_resolved()
    ensures { (text : List ℕ) (doc : Doc) → Reads text doc → IsResolvable doc }
{}

/// A set has one list of rows.
pub fn rows_are_one()
    ensures some { (set : List DocText) → (rows : List (List DocIx)) × AreRows set rows }
    ensures one { (set : List DocText) (one other : List (List DocIx)) → AreRows set one → AreRows set other
        → one ≡ other }
{}

/// A set has one closure of its entries.
pub fn closures_are_one()
    ensures { (set : List DocText) (entries one other : List DocIx) → IsClosure set entries one
        → IsClosure set entries other → one ≡ other }
{}
