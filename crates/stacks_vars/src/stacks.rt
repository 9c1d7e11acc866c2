use crate::items::SymbolStack;
use crate::scopes::ScopeStack;
use std::alloc::{AllocError, Global};

/// The two stacks of a path.
#[derive(Debug, Drop)]
pub struct Stacks {
    pub symbols: SymbolStack,
    pub scopes: ScopeStack,
}

impl Stacks {
    ghost use Rattle.std.specs.Prelude.{◌≡◌, ◌↔◌, IfOk, IsTrue};
    ghost use Rattle.stacks_vars.specs.{Enter.{no_stacks}, Same.{stacks_eq}};

    /// Two empty stacks. They take no memory.
    pub fn new(alloc: Global) -> Stacks
        ensures { result ≡ no_stacks }
    {
        Stacks {
            symbols: SymbolStack::new(alloc),
            scopes: ScopeStack::new(alloc),
        }
    }

    /// The same stacks once more, at the cost of all that they hold; the one error is want of memory.
    pub fn copy(&self, alloc: Global) -> Result<Stacks, AllocError>
        ensures { IfOk result (λ copy. copy ≡ self.now) }
    {
        Ok(Stacks {
            symbols: self.symbols.copy(alloc)?,
            scopes: self.scopes.copy(alloc)?,
        })
    }

    /// Whether both symbol stacks and both scope stacks are the same.
    pub fn same(&self, other: &Stacks) -> bool
        ensures eq { result ≡ stacks_eq self.now other.now }
        ensures exact { IsTrue result ↔ (self.now ≡ other.now) }
    {
        self.symbols.same(&other.symbols) && self.scopes.same(&other.scopes)
    }
}
