//! Reading a document: what one more lexeme does.
ghost use Rattle.std.specs.Prelude.{◌≡◌, IfOk};
ghost use Rattle.abnf_lexer.specs.declared.lexemes.Spanned.{Spanned};
ghost use Rattle.abnf_parser.specs.declared.lexeme.Lexeme.TheVariants as l;
ghost use Rattle.abnf_parser.specs.code.Readers as spec;

use crate::lexeme::{AngleForm, BareWord, Lexeme, Sign};
use crate::machine::body::{begun, turn};
use crate::machine::stack::{Body, Expected, Phase, Reader, Turn};
use crate::written::{Declaration, WrittenDocument, WrittenRule};
use abnf_lexer::Spanned;
use std::alloc::Global;
use vg_base::{Items, Memory};

/// What the keyword of a declaration is followed by.
fn first_expected(word: BareWord) -> Option<Expected>
    ensures { result ≡ spec.first_expected word }
{
    match word {
        BareWord::Language => Some(Expected::Code),
        BareWord::Mode => Some(Expected::ModeName),
        BareWord::Root => Some(Expected::RuleName),
        BareWord::TagFormat | BareWord::Base => Some(Expected::Untyped),
        BareWord::Lexicon => Some(Expected::Angle),
        BareWord::Meta | BareWord::HttpEquiv => Some(Expected::MetaName),
        _ => None,
    }
}

/// What comes behind it, up to the `;`.
fn next_expected(expected: Expected) -> Option<Expected>
    ensures { result ≡ spec.next_expected expected }
{
    match expected {
        Expected::MetaName => Some(Expected::Is),
        Expected::Is => Some(Expected::Content),
        Expected::Semicolon => None,
        _ => Some(Expected::Semicolon),
    }
}

fn accepts(expected: Expected, lexeme: Lexeme) -> bool
    ensures { result ≡ spec.accepts expected lexeme }
{
    match lexeme {
        Lexeme::Bare { word, .. } => accepts_word(expected, word),
        Lexeme::Quoted(_) => expected == Expected::MetaName || expected == Expected::Content,
        Lexeme::Name(_) => expected == Expected::RuleName,
        Lexeme::Angle { form, .. } => accepts_angle(expected, form),
        Lexeme::Sign(sign) => expected == Expected::Semicolon && sign == Sign::Semicolon,
        _ => false,
    }
}

fn accepts_word(expected: Expected, word: BareWord) -> bool
    ensures { (span : Spanned) → result ≡ spec.accepts expected (l.Bare word span) }
{
    match expected {
        Expected::Code => word != BareWord::Other,
        Expected::ModeName => word == BareWord::Voice || word == BareWord::Dtmf,
        Expected::Is => word == BareWord::Is,
        _ => false,
    }
}

fn accepts_angle(expected: Expected, form: AngleForm) -> bool
    ensures { (span : Spanned) → result ≡ spec.accepts expected (l.Angle form span) }
{
    match expected {
        Expected::Untyped => form != AngleForm::Typed,
        Expected::Angle => true,
        _ => false,
    }
}

fn at(declarations: Items<Declaration>, rules: Items<WrittenRule>, phase: Phase) -> Reader
    ensures { result ≡ spec.at declarations rules phase }
{
    Reader {
        declarations,
        rules,
        phase,
    }
}

/// The document before its first lexeme.
pub(crate) fn start(alloc: Global) -> Reader
    ensures { result ≡ spec.start }
{
    at(Items::new(alloc), Items::new(alloc), Phase::Declarations)
}

/// The declaration with one more lexeme.
fn declared(declaration: Declaration, lexeme: Lexeme) -> Result<Declaration, Memory>
    ensures { IfOk result (λ d. d ≡ spec.declared declaration lexeme) }
{
    let Declaration {
        keyword,
        span,
        mut others,
    } = declaration;
    others.push(lexeme)?;
    Ok(Declaration {
        keyword,
        span,
        others,
    })
}

/// A declaration that waits for more, or none.
fn further(
    mut declarations: Items<Declaration>,
    rules: Items<WrittenRule>,
    declaration: Declaration,
    expected: Option<Expected>,
) -> Result<Reader, Memory>
    ensures { IfOk result (λ r. r ≡ spec.further declarations rules declaration expected) }
{
    match expected {
        None => {
            declarations.push(declaration)?;
            Ok(at(declarations, rules, Phase::Declarations))
        }
        Some(expected) => Ok(at(
            declarations,
            rules,
            Phase::Declaring {
                declaration,
                expected,
            },
        )),
    }
}

/// A lexeme in a declaration.
fn on_declaring(
    declarations: Items<Declaration>,
    rules: Items<WrittenRule>,
    declaration: Declaration,
    expected: Expected,
    lexeme: Lexeme,
) -> Result<Option<Reader>, Memory>
    ensures { IfOk result (λ o. o ≡
        spec.on_declaring declarations rules declaration expected lexeme) }
{
    if accepts(expected, lexeme) {
        let declaration = declared(declaration, lexeme)?;
        let next = next_expected(expected);
        Ok(Some(further(declarations, rules, declaration, next)?))
    } else {
        Ok(None)
    }
}

/// The keyword of a declaration, or another word.
fn on_keyword(
    alloc: Global,
    declarations: Items<Declaration>,
    rules: Items<WrittenRule>,
    keyword: BareWord,
    span: Spanned,
) -> Option<Reader>
    ensures { result ≡ spec.on_keyword declarations rules keyword span }
{
    match first_expected(keyword) {
        None => None,
        Some(expected) => {
            let declaration = Declaration {
                keyword,
                span,
                others: Items::new(alloc),
            };
            Some(at(
                declarations,
                rules,
                Phase::Declaring {
                    declaration,
                    expected,
                },
            ))
        }
    }
}

/// A lexeme before a rule.
#[tactic(auto, unfolding(crate::specs::code::Readers::on_rules))]
fn on_rules(
    declarations: Items<Declaration>,
    rules: Items<WrittenRule>,
    lexeme: Lexeme,
) -> Option<Reader>
    ensures { result ≡ spec.on_rules declarations rules lexeme }
{
    match lexeme {
        Lexeme::Bare {
            word: BareWord::Public,
            ..
        } => Some(at(declarations, rules, Phase::Scoped { public: true })),
        Lexeme::Bare {
            word: BareWord::Private,
            ..
        } => Some(at(declarations, rules, Phase::Scoped { public: false })),
        Lexeme::Name(name) => Some(at(
            declarations,
            rules,
            Phase::Named {
                public: false,
                name,
            },
        )),
        _ => None,
    }
}

/// Whether a word says which rules other documents may refer to.
fn is_scope(word: BareWord) -> bool
    ensures { result ≡ spec.is_scope word }
{
    word == BareWord::Public || word == BareWord::Private
}

/// A lexeme before a declaration or a rule.
#[tactic(auto, unfolding(crate::specs::code::Readers::on_declarations))]
fn on_declarations(
    alloc: Global,
    declarations: Items<Declaration>,
    rules: Items<WrittenRule>,
    lexeme: Lexeme,
) -> Option<Reader>
    ensures { result ≡ spec.on_declarations declarations rules lexeme }
{
    match lexeme {
        Lexeme::Bare { word, span } => {
            if is_scope(word) {
                on_rules(declarations, rules, lexeme)
            } else {
                on_keyword(alloc, declarations, rules, word, span)
            }
        }
        _ => on_rules(declarations, rules, lexeme),
    }
}

/// A lexeme behind `public` or `private`.
fn on_scoped(
    declarations: Items<Declaration>,
    rules: Items<WrittenRule>,
    public: bool,
    lexeme: Lexeme,
) -> Option<Reader>
    ensures { result ≡ spec.on_scoped declarations rules public lexeme }
{
    match lexeme {
        Lexeme::Name(name) => Some(at(declarations, rules, Phase::Named { public, name })),
        _ => None,
    }
}

/// A lexeme behind the name of a rule.
fn on_named(
    alloc: Global,
    declarations: Items<Declaration>,
    rules: Items<WrittenRule>,
    public: bool,
    name: Spanned,
    lexeme: Lexeme,
) -> Option<Reader>
    ensures { result ≡ spec.on_named declarations rules public name lexeme }
{
    match lexeme {
        Lexeme::Sign(Sign::Equals) => {
            let body = begun(alloc);
            Some(at(declarations, rules, Phase::Inside { public, name, body }))
        }
        _ => None,
    }
}

/// A lexeme in the body of a rule.
fn on_inside(
    declarations: Items<Declaration>,
    mut rules: Items<WrittenRule>,
    public: bool,
    name: Spanned,
    turned: Turn,
) -> Result<Option<Reader>, Memory>
    ensures { IfOk result (λ o. o ≡ spec.on_turn declarations rules public name turned) }
{
    match turned {
        Turn::On(body) => Ok(Some(at(declarations, rules, Phase::Inside { public, name, body }))),
        Turn::Ended(body) => {
            rules.push(WrittenRule { public, name, body })?;
            Ok(Some(at(declarations, rules, Phase::Rules)))
        }
        Turn::Unfit => Ok(None),
    }
}

/// One more lexeme: what was read then, or `None` where with those before it it begins no document.
#[tactic(auto, unfolding(crate::specs::code::Readers::step))]
pub(crate) fn step(alloc: Global, reader: Reader, lexeme: Lexeme) -> Result<Option<Reader>, Memory>
    ensures { IfOk result (λ o. o ≡ spec.step reader lexeme) }
{
    let Reader {
        declarations,
        rules,
        phase,
    } = reader;
    match phase {
        Phase::Declarations => Ok(on_declarations(alloc, declarations, rules, lexeme)),
        Phase::Rules => Ok(on_rules(declarations, rules, lexeme)),
        Phase::Declaring {
            declaration,
            expected,
        } => on_declaring(declarations, rules, declaration, expected, lexeme),
        Phase::Scoped { public } => Ok(on_scoped(declarations, rules, public, lexeme)),
        Phase::Named { public, name } => {
            Ok(on_named(alloc, declarations, rules, public, name, lexeme))
        }
        Phase::Inside { public, name, body } => {
            let turned = turn(alloc, body, lexeme)?;
            on_inside(declarations, rules, public, name, turned)
        }
    }
}

fn is_between(phase: &Phase) -> bool
    ensures { result ≡ spec.is_between phase.now }
{
    matches!(phase, Phase::Declarations | Phase::Rules)
}

/// The document that ends here, or `None` where it goes on.
#[tactic(auto, unfolding(crate::specs::code::Readers::result_of))]
pub(crate) fn result_of(reader: Reader) -> Option<WrittenDocument>
    ensures { result ≡ spec.result_of reader }
{
    let Reader {
        declarations,
        rules,
        phase,
    } = reader;
    if is_between(&phase) {
        Some(WrittenDocument {
            declarations,
            rules,
        })
    } else {
        None
    }
}
