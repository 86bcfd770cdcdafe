//! Laws of the definitions, each the contract of a function that does nothing.
ghost use Rattle.std.specs.Prelude.{◌≡◌, ℕ, List};
ghost use Rattle.grammar_tree.specs.declared.doc_set.DocText.{DocText};
ghost use Rattle.linker.specs.declared.set_fault.SetFault.{SetFault};
ghost use Rattle.linker.specs.Linking.{HasFaults, IsBuilt};
ghost use Rattle.linker.specs.Versions.{Linkage};

/// The faults of a publish are one list.
pub fn faults_are_one()
    ensures { (set : List DocText) (entries : List (List ℕ)) (one other : List SetFault) → HasFaults set entries one
        → HasFaults set entries other → one ≡ other }
{}

/// The version of a publish under its number is one.
pub fn versions_are_one()
    ensures { (set : List DocText) (entries : List (List ℕ)) (one other : Linkage) → IsBuilt set entries one
        → IsBuilt set entries other → one.number ≡ other.number → one ≡ other }
{}
