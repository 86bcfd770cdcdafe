//! Laws of the definitions, each the contract of a function that does nothing.
ghost use Rattle.std.specs.Prelude.{◌≡◌, ◌⊎◌, ℕ, List, [], Option, All};
ghost use Rattle.vg_base.specs.declared.doc_fault.DocFault.{DocFault};
ghost use Rattle.vg_base.specs.Cut.{Piece, IsCut, IsPartOf};
ghost use Rattle.abnf_lexer.specs.declared.lexemes.LexKind.{LexKind};
ghost use Rattle.abnf_lexer.specs.declared.lexemes.PieceKind.{PieceKind};
ghost use Rattle.abnf_lexer.specs.declared.lexemes.PieceKind.TheVariants.{Lexeme};
ghost use Rattle.abnf_lexer.specs.declared.lexemes.Spanned.{Spanned};
ghost use Rattle.abnf_lexer.specs.Forms.{HasForm};
ghost use Rattle.abnf_lexer.specs.Header.{header_faults, behind_header, HasHeader};
ghost use Rattle.abnf_lexer.specs.Insides.{IsInside};
ghost use Rattle.abnf_lexer.specs.Lexemes.{CutFrom, placed_pieces};
ghost use Rattle.abnf_lexer.specs.Lexing.{AreLexemes, HasLexemes, IsFirstFault};
ghost use Rattle.abnf_lexer.specs.Repeats.{Most, IsRepeat};

/// The pieces of a text are slices of it, and have the forms of their kinds.
pub fn pieces_are_slices()
    ensures { (text : List ℕ) (cut : CutFrom (behind_header text)) → All (IsPartOf HasForm text) (placed_pieces cut) }
{}

/// A text is cut in one way.
pub fn texts_are_cut_in_one_way()
    ensures { (text stop end : List ℕ) (pieces others : List (Piece PieceKind)) → IsCut HasForm text pieces stop
        → IsCut HasForm text others end → (pieces ≡ others) × (stop ≡ end) }
{}

/// A text has one list of lexemes, or one first fault, and not both.
pub fn texts_have_one_answer()
    ensures some { (text : List ℕ) → ((these : List Spanned) × AreLexemes text these) ⊎ ((f : DocFault) × IsFirstFault text f) }
    ensures spans { (text : List ℕ) (these those : List Spanned) → AreLexemes text these → AreLexemes text those
        → these ≡ those }
    ensures lexemes { (text : List ℕ) (these those : List (Piece LexKind)) → HasLexemes text these
        → HasLexemes text those → these ≡ those }
    ensures faults { (text : List ℕ) (f g : DocFault) → IsFirstFault text f → IsFirstFault text g → f ≡ g }
    ensures apart { (text : List ℕ) (these : List Spanned) (f : DocFault) → AreLexemes text these
        → IsFirstFault text f → ⊥ }
{}

/// A header has no fault exactly where it has the form of a header; what follows it is cut.
pub fn headers_have_their_form()
    ensures form { (text : List ℕ) → header_faults text ≡ [] → HasHeader text (behind_header text).rest }
    ensures faultless { (text rest : List ℕ) → HasHeader text rest → header_faults text ≡ [] }
    ensures rest { (text rest : List ℕ) → HasHeader text rest → rest ≡ (behind_header text).rest }
{}

/// A slice that is a repeat has its numbers and its probability in one way.
pub fn repeats_are_read_in_one_way()
    ensures { (slice these those : List ℕ) (most others : Most) (chance other : Option (List ℕ))
        → IsRepeat slice these most chance → IsRepeat slice those others other
        → (these ≡ those) × (most ≡ others) × (chance ≡ other) }
{}

/// Each lexeme has an inside, and one alone.
pub fn lexemes_have_one_inside()
    ensures some { (kind : LexKind) (slice rest : List ℕ) → HasForm (Lexeme kind) slice rest
        → (inside : List ℕ) × (media : Option (List ℕ)) × IsInside kind inside media slice }
    ensures one { (kind : LexKind) (slice these those : List ℕ) (media other : Option (List ℕ))
        → IsInside kind these media slice → IsInside kind those other slice → (these ≡ those) × (media ≡ other) }
{}
