//! Laws of the definitions, each the contract of a function that does nothing.
ghost use Rattle.std.specs.Prelude.{◌≡◌, ℕ, true, List, Result};
ghost use Rattle.vg_base.specs.declared.doc_fault.DocFault.{DocFault};
ghost use Rattle.vg_base.specs.Reading.{Reads};
ghost use Rattle.abnf_lexer.specs.declared.lexemes.LexKind.TheVariants as kind;
ghost use Rattle.abnf_lexer.specs.declared.lexemes.Spanned.{Spanned};
ghost use Rattle.abnf_lexer.specs.Codes.{IsCode};
ghost use Rattle.abnf_parser.specs.declared.lexeme.Lexeme.{Lexeme};
ghost use Rattle.abnf_parser.specs.declared.written.WrittenDocument.{WrittenDocument};
ghost use Rattle.abnf_parser.specs.Declarations.{is_lang};
ghost use Rattle.abnf_parser.specs.Documents.{Spells};
ghost use Rattle.abnf_parser.specs.Roles.{Stands};
ghost use Rattle.abnf_parser.specs.Texts.{IsSyntax};

/// Lexemes are one document, or have one first place that fits none, and not both.
pub fn lexemes_have_one_answer()
    ensures some { (lexemes : List Lexeme) → (a : Result WrittenDocument ℕ)
        × Reads Spells lexemes a }
    ensures one { (lexemes : List Lexeme) (a b : Result WrittenDocument ℕ) → Reads Spells lexemes a
        → Reads Spells lexemes b → a ≡ b }
{}

/// A text is written as one document, or has one first fault of its syntax, and not both.
pub fn texts_have_one_answer()
    ensures some { (text : List ℕ) → (a : Result WrittenDocument DocFault) × IsSyntax text a }
    ensures one { (text : List ℕ) (a b : Result WrittenDocument DocFault) → IsSyntax text a
        → IsSyntax text b → a ≡ b }
{}

/// A bare word may stand behind `language` exactly where it has the form of a code, as each keyword
/// has.
pub fn languages_are_codes()
    ensures code { (span : Spanned) (slice : List ℕ) (x : Lexeme) → span.kind ≡ kind.Bare
        → Stands span slice x → is_lang x ≡ true → IsCode slice }
    ensures lang { (span : Spanned) (slice : List ℕ) (x : Lexeme) → span.kind ≡ kind.Bare
        → Stands span slice x → IsCode slice → is_lang x ≡ true }
{}
