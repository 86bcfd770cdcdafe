//! Reading the body of a rule: what one more lexeme does.
ghost use Rattle.std.specs.Prelude.{◌≡◌, [], IfOk};
ghost use Rattle.abnf_parser.specs.code.Bodies as spec;
ghost use Rattle.abnf_parser.specs.declared.machine.stack.Point.TheVariants as p;

use crate::lexeme::{AngleForm, Lexeme, Sign};
use crate::machine::frames::{
    barred, enclosed, fresh, on, opened, repeated, weighed, whole, with_item,
};
use crate::machine::stack::{Around, Body, Frame, Outer, Point, Stack, Turn};
use crate::written::Written;
use std::alloc::Global;
use vg_base::Memory;

/// The body before its first lexeme.
pub(crate) fn begun(alloc: Global) -> Body
    ensures { result ≡ spec.begun }
{
    Body {
        outer: Stack::new(alloc),
        frame: fresh(alloc),
        point: Point::Start,
    }
}

/// Before the alternatives of a bracket.
fn opened_at_start(
    alloc: Global,
    around: Around,
    outer: Stack<Outer>,
    frame: Frame,
) -> Result<Turn, Memory>
    ensures { IfOk result (λ t. t ≡ spec.on (spec.opened around outer frame) spec.fresh p.Start) }
{
    Ok(on(opened(around, outer, frame)?, fresh(alloc), Point::Start))
}

/// A lexeme that begins an item.
#[tactic(auto, unfolding(crate::specs::code::Bodies::on_item))]
fn on_item(alloc: Global, outer: Stack<Outer>, frame: Frame, lexeme: Lexeme) -> Result<Turn, Memory>
    ensures { IfOk result (λ t. t ≡ spec.on_item outer frame lexeme) }
{
    match lexeme {
        Lexeme::Tag(span) => { Ok(on(outer, with_item(frame, Written::Tag(span))?, Point::Items)) }
        Lexeme::Bare { span, .. } => Ok(on(outer, frame, Point::Atom(Written::Token(span)))),
        Lexeme::Quoted(span) => Ok(on(outer, frame, Point::Atom(Written::Token(span)))),
        Lexeme::Name(span) => Ok(on(outer, frame, Point::Atom(Written::Name(span)))),
        Lexeme::UriRef(span) => Ok(on(outer, frame, Point::Atom(Written::UriRef(span)))),
        Lexeme::Sign(Sign::RoundOpen) => Ok(on(outer, frame, Point::Opened)),
        Lexeme::Sign(Sign::SquareOpen) => opened_at_start(alloc, Around::Square, outer, frame),
        _ => Ok(Turn::Unfit),
    }
}

/// A lexeme before an alternative.
#[tactic(auto, unfolding(crate::specs::code::Bodies::on_start))]
fn on_start(
    alloc: Global,
    outer: Stack<Outer>,
    frame: Frame,
    lexeme: Lexeme,
) -> Result<Turn, Memory>
    ensures { IfOk result (λ t. t ≡ spec.on_start outer frame lexeme) }
{
    match lexeme {
        Lexeme::Weight(span) => Ok(on(outer, weighed(alloc, frame, Some(span)), Point::First)),
        _ => on_item(alloc, outer, weighed(alloc, frame, None), lexeme),
    }
}

/// A lexeme behind `(`.
#[tactic(auto, unfolding(crate::specs::code::Bodies::on_opened))]
fn on_opened(
    alloc: Global,
    outer: Stack<Outer>,
    frame: Frame,
    lexeme: Lexeme,
) -> Result<Turn, Memory>
    ensures { IfOk result (λ t. t ≡ spec.on_opened outer frame lexeme) }
{
    match lexeme {
        Lexeme::Sign(Sign::RoundClose) => Ok(on(outer, frame, Point::Atom(Written::Nothing))),
        _ => on_start(
            alloc,
            opened(Around::Round, outer, frame)?,
            fresh(alloc),
            lexeme,
        ),
    }
}

/// Whether the sign closes such a bracket.
fn closes(around: Around, sign: Sign) -> bool
    ensures { result ≡ spec.closes around sign }
{
    match around {
        Around::Round => sign == Sign::RoundClose,
        Around::Square => sign == Sign::SquareClose,
    }
}

/// A sign behind all alternatives of a bracket, or of the body.
#[tactic(auto, unfolding(crate::specs::code::Bodies::ended))]
fn ended(alloc: Global, mut outer: Stack<Outer>, whole: Written, sign: Sign) -> Result<Turn, Memory>
    ensures { IfOk result (λ t. t ≡ spec.ended outer whole sign) }
{
    match outer.pop() {
        None => Ok(ended_body(whole, sign)),
        Some(Outer { around, frame }) => {
            if closes(around, sign) {
                Ok(on(outer, frame, Point::Atom(enclosed(alloc, around, whole)?)))
            } else {
                Ok(Turn::Unfit)
            }
        }
    }
}

/// A sign behind the body.
#[tactic(auto, unfolding(crate::specs::code::Bodies::ended))]
fn ended_body(whole: Written, sign: Sign) -> Turn
    ensures { result ≡ spec.ended [] whole sign }
{
    match sign {
        Sign::Semicolon => Turn::Ended(whole),
        _ => Turn::Unfit,
    }
}

/// A lexeme behind items.
#[tactic(auto, unfolding(crate::specs::code::Bodies::on_items))]
fn on_items(
    alloc: Global,
    outer: Stack<Outer>,
    frame: Frame,
    lexeme: Lexeme,
) -> Result<Turn, Memory>
    ensures { IfOk result (λ t. t ≡ spec.on_items outer frame lexeme) }
{
    match lexeme {
        Lexeme::Sign(Sign::Bar) => Ok(on(outer, barred(alloc, frame)?, Point::Start)),
        Lexeme::Sign(Sign::RoundOpen) => Ok(on(outer, frame, Point::Opened)),
        Lexeme::Sign(Sign::SquareOpen) => opened_at_start(alloc, Around::Square, outer, frame),
        Lexeme::Sign(sign) => ended(alloc, outer, whole(alloc, frame)?, sign),
        _ => on_item(alloc, outer, frame, lexeme),
    }
}

/// A lexeme behind an atom.
#[tactic(auto, unfolding(crate::specs::code::Bodies::on_atom))]
fn on_atom(
    alloc: Global,
    outer: Stack<Outer>,
    frame: Frame,
    atom: Written,
    lexeme: Lexeme,
) -> Result<Turn, Memory>
    ensures { IfOk result (λ t. t ≡ spec.on_atom outer frame atom lexeme) }
{
    match lexeme {
        Lexeme::Language(_) => Ok(on(outer, frame, Point::Spoken(atom))),
        Lexeme::Angle {
            form: AngleForm::Repeat,
            span,
        } => Ok(on(outer, frame, Point::Repeated(repeated(alloc, span, atom)?))),
        _ => on_items(alloc, outer, with_item(frame, atom)?, lexeme),
    }
}

/// A lexeme behind an atom and its language.
#[tactic(auto, unfolding(crate::specs::code::Bodies::on_spoken))]
fn on_spoken(
    alloc: Global,
    outer: Stack<Outer>,
    frame: Frame,
    atom: Written,
    lexeme: Lexeme,
) -> Result<Turn, Memory>
    ensures { IfOk result (λ t. t ≡ spec.on_spoken outer frame atom lexeme) }
{
    match lexeme {
        Lexeme::Angle {
            form: AngleForm::Repeat,
            span,
        } => {
            let item = repeated(alloc, span, atom)?;
            Ok(on(outer, with_item(frame, item)?, Point::Items))
        }
        _ => on_items(alloc, outer, with_item(frame, atom)?, lexeme),
    }
}

/// A lexeme behind an atom and its repeat.
#[tactic(auto, unfolding(crate::specs::code::Bodies::on_repeated))]
fn on_repeated(
    alloc: Global,
    outer: Stack<Outer>,
    frame: Frame,
    atom: Written,
    lexeme: Lexeme,
) -> Result<Turn, Memory>
    ensures { IfOk result (λ t. t ≡ spec.on_repeated outer frame atom lexeme) }
{
    match lexeme {
        Lexeme::Language(_) => Ok(on(outer, with_item(frame, atom)?, Point::Items)),
        _ => on_items(alloc, outer, with_item(frame, atom)?, lexeme),
    }
}

/// One more lexeme.
#[tactic(auto, unfolding(crate::specs::code::Bodies::turn))]
pub(crate) fn turn(alloc: Global, body: Body, lexeme: Lexeme) -> Result<Turn, Memory>
    ensures { IfOk result (λ t. t ≡ spec.turn body lexeme) }
{
    let Body {
        outer,
        frame,
        point,
    } = body;
    match point {
        Point::Start => on_start(alloc, outer, frame, lexeme),
        Point::First => on_item(alloc, outer, frame, lexeme),
        Point::Opened => on_opened(alloc, outer, frame, lexeme),
        Point::Items => on_items(alloc, outer, frame, lexeme),
        Point::Atom(atom) => on_atom(alloc, outer, frame, atom, lexeme),
        Point::Spoken(atom) => on_spoken(alloc, outer, frame, atom, lexeme),
        Point::Repeated(atom) => on_repeated(alloc, outer, frame, atom, lexeme),
    }
}
