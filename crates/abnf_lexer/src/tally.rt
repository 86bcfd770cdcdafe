//! What is known of a text as far as it is cut.
ghost use Rattle.std.specs.Prelude.{◌≡◌, ◌≤◌, [], length, vec_len, if◌then◌else◌, is_some, Some, None, OnOk, IfOk};
ghost use Rattle.vg_base.specs.Faults.{doc_fault_order};
ghost use Rattle.vg_base.specs.First.{IsFirst};
ghost use Rattle.abnf_lexer.specs.Header.{past};
ghost use Rattle.abnf_lexer.specs.code.Front as spec;
ghost use Rattle.abnf_lexer.specs.code.Tally.{FitsIn, faults_found, Counts, IsTallied};
ghost use Rattle.abnf_lexer.specs.declared.lexemes.PieceKind.TheVariants.{Lexeme};

use crate::faults::{bracketed, is_deep, joint, pass, told};
use crate::front::{Cut, front};
use crate::lexemes::{LexKind, PieceKind, Spanned};
use std::alloc::Global;
use vg_base::{Cursor, DocFault, DocKind, Memory, limits, sooner};

/// What is known of a text as far as it is cut: its first fault, and as long as it has none its lexemes and the open brackets.
#[derive(Debug, Drop)]
pub(crate) struct Tally {
    pub found: Vec<Spanned>,
    pub brackets: usize,
    pub fault: Option<DocFault>,
}

impl Tally {
    /// Nothing is cut yet.
    pub(crate) fn new(alloc: Global) -> Tally
        ensures nothing { result.found.items ≡ [] }
        ensures none_open { result.brackets ≡ 0 }
        ensures no_fault { result.fault ≡ None }
    {
        Tally {
            found: Vec::new(alloc),
            brackets: 0,
            fault: None,
        }
    }

    /// Passes a lexeme of so many characters, and tells its first fault.
    fn fault_of(&self, cursor: &mut Cursor<'_>, kind: LexKind, len: usize) -> Option<DocFault>
        requires { len ≤ length cursor.old.rest }
        ensures passed { cursor.new ≡ past len cursor.old }
        ensures first { IsFirst doc_fault_order (faults_found self.now kind len cursor.old) result }
    {
        let slice = &cursor.rest()[..len];
        let deep = told(is_deep(self.brackets, slice), cursor, DocKind::Deep);
        let full = self.found.len() == limits::LEXEMES as usize;
        let large = told(full, cursor, DocKind::Large);
        let bad = pass(cursor, len);
        let joint = joint(kind, cursor);
        sooner(bad, sooner(joint, sooner(deep, large)))
    }

    /// Passes a lexeme of so many characters, and counts it unless it has a fault.
    fn take_lexeme(
        &mut self,
        cursor: &mut Cursor<'_>,
        kind: LexKind,
        len: usize,
    ) -> Result<(), Memory>
        requires within { len ≤ length cursor.old.rest }
        requires few { self.old.brackets ≤ vec_len self.old.found }
        ensures passed { cursor.new ≡ past len cursor.old }
        ensures counted { OnOk result (Counts self.old self.new (Lexeme kind) len cursor.old) }
    {
        let slice = &cursor.rest()[..len];
        let (place, from) = (cursor.place(), cursor.byte());
        self.fault = self.fault_of(cursor, kind, len);
        if self.fault.is_none() {
            let to = cursor.byte();
            self.found.push(Spanned {
                place,
                from,
                to,
                kind,
            })?;
            self.brackets = bracketed(self.brackets, slice);
        }
        Ok(())
    }

    /// Passes a piece, and counts it where it is a lexeme without a fault.
    fn take(&mut self, cursor: &mut Cursor<'_>, cut: Cut) -> Result<(), Memory>
        requires within { cut.len ≤ length cursor.old.rest }
        requires few { self.old.brackets ≤ vec_len self.old.found }
        ensures passed { cursor.new ≡ past cut.len cursor.old }
        ensures counted { OnOk result (Counts self.old self.new cut.kind cut.len cursor.old) }
    {
        match cut.kind {
            PieceKind::Lexeme(kind) => self.take_lexeme(cursor, kind, cut.len),
            _ => {
                self.fault = pass(cursor, cut.len);
                Ok(())
            }
        }
    }

    /// The piece that comes next; none behind a fault, since no later piece can have a sooner one.
    fn next(&self, cursor: &Cursor<'_>) -> Option<Cut>
        ensures value { result ≡ (if is_some self.now.fault then None else spec.front cursor.now.rest) }
        ensures within { FitsIn result (length cursor.now.rest) }
    {
        if self.fault.is_some() {
            None
        } else {
            front(cursor.rest())
        }
    }
}

/// Passes the pieces up to the first one with a fault, and counts the lexemes among them.
pub(crate) fn tally_of(alloc: Global, cursor: &mut Cursor<'_>) -> Result<Tally, Memory>
    ensures { IfOk result (λ tally. IsTallied cursor.old cursor.new tally) }
{
    let mut tally = Tally::new(alloc);
    while let Some(cut) = tally.next(cursor) {
        tally.take(cursor, cut)?;
    }
    Ok(tally)
}
