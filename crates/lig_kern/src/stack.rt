//! The symbols from the cursor on, as a stack.

ghost use Rattle.std.specs.Prelude.{◌≡◌, [], ◌∷◌, MatchOption, OnOk};

use crate::symbols::Symbol;
use std::alloc::{AllocError, AllocFailed, Global};
use std::marker::Model;

/// The symbols from the cursor on, the current one first: a `Vec` whose last element is the
/// current.
#[derive(Drop)]
pub struct Stack {
    symbols: Vec<Symbol>,
}

impl Model for Stack {
    ghost use Rattle.std.specs.Prelude.{List, reverse};
    ghost use Rattle.lig_kern.specs.declared.symbols.Symbol.{Symbol};

    ghost Value = { List Symbol };

    ghost view = { λ s. reverse s.symbols.items };
}

impl Stack {
    /// No symbols. It takes no memory.
    pub fn new(alloc: Global) -> Stack
        ensures { result ≡ [] }
    {
        Stack {
            symbols: Vec::new(alloc),
        }
    }

    /// Takes all symbols out, and makes room for so many where it isn't there.
    pub fn clear_for(&mut self, room: usize) -> Result<(), AllocError>
        ensures { OnOk result (self.new ≡ []) }
    {
        self.symbols.clear();
        self.symbols.reserve(room)
    }

    /// Puts a symbol before the others.
    pub fn push(&mut self, symbol: Symbol) -> Result<(), AllocFailed<Symbol>>
        ensures { OnOk result (self.new ≡ symbol ∷ self.old) }
    {
        self.symbols.push(symbol)
    }

    /// Takes the first symbol.
    pub fn pop(&mut self) -> Option<Symbol>
        ensures { MatchOption result ((self.old ≡ []) × (self.new ≡ []))
            (λ symbol. self.old ≡ symbol ∷ self.new) }
    {
        self.symbols.pop()
    }
}
