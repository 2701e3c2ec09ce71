//! One step of a run: the cursor moves on, or a word puts a kern or a ligature (TFM description,
//! "lig_kern"; TeX: The Program, section 1040). The glyphs that are done and the symbols ahead are
//! the list of the definition, cut at the cursor.

ghost use Rattle.std.specs.Prelude.{◌≡◌, ◌≤◌, [], ◌∷◌, ◌++◌, take, drop, Some, IfOk, OnOk};
ghost use Rattle.lig_kern.specs.Rewriting.{ligature_between, kept, move_at, puts_kern, puts_ligature, move_by};
ghost use Rattle.lig_kern.specs.Symbols.{glyphs_of};

use crate::glyphs::Glyphs;
use crate::operation::Operation;
use crate::programs::{acting_word, kern_of};
use crate::stack::Stack;
use crate::symbols::{Symbol, SymbolKind};
use micro_num::NoMemory;
use std::alloc::{AllocError, Global};
use tfm_read::{LigWord, Tfm};

/// A run at some step: the glyphs of the symbols before the cursor, and the symbols from it on.
#[derive(Drop)]
pub struct Rewriting {
    pub done: Glyphs,
    pub ahead: Stack,
}

/// The ligature that a word puts between two symbols.
fn ligature_between(op: Operation, code: u8, current: Symbol, next: Symbol) -> Symbol
    ensures { result ≡ ligature_between op code current next }
{
    let (from, to) = match (op.keeps_current, op.keeps_next) {
        (false, false) => (current.from, next.to),
        (false, true) => (current.from, current.to),
        (true, false) => (next.from, next.to),
        (true, true) => (current.to, current.to),
    };
    let kind = SymbolKind::Ligature { code };
    Symbol { kind, from, to }
}

impl Rewriting {
    /// A run of nothing, at its end. It takes no memory.
    pub fn new(alloc: Global) -> Rewriting
        ensures { result.done ≡ [] }
    {
        Rewriting {
            done: Glyphs::new(alloc),
            ahead: Stack::new(alloc),
        }
    }

    /// Leaves no glyphs and no symbols, and room for so many symbols.
    pub fn clear_for(&mut self, room: usize) -> Result<(), AllocError>
        ensures { OnOk result ((self.new.done ≡ []) × (self.new.ahead ≡ [])) }
    {
        self.done.clear();
        self.ahead.clear_for(room)
    }

    /// Moves the cursor over a symbol.
    fn pass(&mut self, symbol: Symbol) -> Result<(), NoMemory>
        ensures done { OnOk result (self.new.done ≡ self.old.done ++ glyphs_of (symbol ∷ [])) }
        ensures ahead { self.new.ahead ≡ self.old.ahead }
    {
        if let Some(glyph) = symbol.glyph() {
            self.done.push(glyph)?;
        }
        Ok(())
    }

    /// Puts a symbol before those ahead, where it is kept.
    fn keep(&mut self, keeps: bool, symbol: Symbol) -> Result<(), NoMemory>
        ensures ahead { OnOk result (self.new.ahead ≡ kept keeps symbol self.old.ahead) }
        ensures done { self.new.done ≡ self.old.done }
    {
        if keeps {
            self.ahead.push(symbol)?;
        }
        Ok(())
    }

    /// Moves the cursor over the first symbol ahead, if there is one.
    fn pass_first(&mut self) -> Result<(), NoMemory>
        ensures done { OnOk result
            (self.new.done ≡ self.old.done ++ glyphs_of (take 1 self.old.ahead)) }
        ensures ahead { OnOk result (self.new.ahead ≡ drop 1 self.old.ahead) }
    {
        match self.ahead.pop() {
            None => Ok(()),
            Some(symbol) => self.pass(symbol),
        }
    }

    /// Moves the cursor over some of the symbols ahead.
    fn pass_over(&mut self, count: u8) -> Result<(), NoMemory>
        ensures done { OnOk result
            (self.new.done ≡ self.old.done ++ glyphs_of (take count self.old.ahead)) }
        ensures ahead { OnOk result (self.new.ahead ≡ drop count self.old.ahead) }
    {
        let mut left = count;
        while left > 0 {
            left -= 1;
            self.pass_first()?;
        }
        Ok(())
    }

    /// Puts a kern after the current symbol and moves the cursor over both.
    fn put_kern(&mut self, fix: i32, current: Symbol) -> Result<(), NoMemory>
        ensures done { OnOk result (self.new.done
            ≡ self.old.done ++ glyphs_of (puts_kern fix current self.old.ahead).passed) }
        ensures ahead { self.new.ahead ≡ self.old.ahead }
    {
        self.pass(current)?;
        let kind = SymbolKind::FontKern { fix };
        self.pass(Symbol {
            kind,
            from: current.to,
            to: current.to,
        })
    }

    /// Puts a ligature between the current and the next symbol, of which the operation may delete
    /// some, and moves the cursor.
    fn put_ligature(
        &mut self,
        op: Operation,
        code: u8,
        current: Symbol,
        next: Symbol,
    ) -> Result<(), NoMemory>
        ensures done { let move = puts_ligature op code current next self.old.ahead in
            OnOk result (self.new.done ≡ self.old.done ++ glyphs_of move.passed) }
        ensures ahead { let move = puts_ligature op code current next self.old.ahead in
            OnOk result (self.new.ahead ≡ move.ahead) }
    {
        self.keep(op.keeps_next, next)?;
        self.keep(true, ligature_between(op, code, current, next))?;
        self.keep(op.keeps_current, current)?;
        self.pass_over(op.passes)
    }

    /// The step by a word that acts between the current and the next symbol.
    fn act(
        &mut self,
        tfm: &Tfm,
        word: LigWord,
        current: Symbol,
        next: Symbol,
    ) -> Result<(), NoMemory>
        ensures done { OnOk result (self.new.done ≡ self.old.done
            ++ glyphs_of (move_by tfm.now.kerns (Some word) current next self.old.ahead).passed) }
        ensures ahead { OnOk result (self.new.ahead
            ≡ (move_by tfm.now.kerns (Some word) current next self.old.ahead).ahead) }
    {
        if word.op >= 128 {
            self.ahead.push(next)?;
            self.put_kern(kern_of(tfm, word), current)
        } else {
            self.put_ligature(Operation::of(word.op), word.rest, current, next)
        }
    }

    /// One step at the current symbol, which the symbols ahead follow. It gives the number of words
    /// that acted, which is 0 or 1.
    pub fn step(&mut self, tfm: &Tfm, current: Symbol) -> Result<usize, NoMemory>
        ensures acts { IfOk result (λ acts. acts ≡ (move_at tfm.now current self.old.ahead).acts) }
        ensures few { IfOk result (λ acts. acts ≤ 1) }
        ensures done { OnOk result (self.new.done
            ≡ self.old.done ++ glyphs_of (move_at tfm.now current self.old.ahead).passed) }
        ensures ahead { OnOk result
            (self.new.ahead ≡ (move_at tfm.now current self.old.ahead).ahead) }
    {
        match self.ahead.pop() {
            None => {
                self.pass(current)?;
                Ok(0)
            }
            Some(next) => self.step_before(tfm, current, next),
        }
    }

    /// One step at the current symbol, which the next one and then the symbols ahead follow.
    fn step_before(&mut self, tfm: &Tfm, current: Symbol, next: Symbol) -> Result<usize, NoMemory>
        ensures acts { IfOk result (λ acts.
            acts ≡ (move_at tfm.now current (next ∷ self.old.ahead)).acts) }
        ensures few { IfOk result (λ acts. acts ≤ 1) }
        ensures done { OnOk result (self.new.done ≡ self.old.done
            ++ glyphs_of (move_at tfm.now current (next ∷ self.old.ahead)).passed) }
        ensures ahead { OnOk result
            (self.new.ahead ≡ (move_at tfm.now current (next ∷ self.old.ahead)).ahead) }
    {
        match acting_word(tfm, current.kind, next.kind) {
            None => {
                self.ahead.push(next)?;
                self.pass(current)?;
                Ok(0)
            }
            Some(word) => {
                self.act(tfm, word, current, next)?;
                Ok(1)
            }
        }
    }
}
