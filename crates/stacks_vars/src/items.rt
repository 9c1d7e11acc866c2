use crate::scopes::ScopeStack;
use crate::stack::Stack;
use crate::symbol::Symbol;
use std::alloc::{AllocError, Global};

/// A symbol on a stack: plain, or with an attached scope stack.
#[derive(Debug, Drop)]
pub struct SymbolItem {
    pub symbol: Symbol,
    pub scopes: Option<ScopeStack>,
}

impl SymbolItem {
    ghost use Rattle.std.specs.Prelude.{◌≡◌, ◌↔◌, IfOk, IsTrue};
    ghost use Rattle.stacks_vars.specs.Same.{item_eq};

    /// The same symbol and scopes once more, at the cost of their length; the one error is want of memory.
    pub fn copy(&self, alloc: Global) -> Result<SymbolItem, AllocError>
        ensures { IfOk result (λ copy. copy ≡ self.now) }
    {
        let scopes = copy_scopes(alloc, &self.scopes)?;
        Ok(SymbolItem {
            symbol: self.symbol.copy()?,
            scopes,
        })
    }

    /// Whether both have the same symbol, and both are plain or have the same scopes attached.
    pub fn same(&self, other: &SymbolItem) -> bool
        ensures eq { result ≡ item_eq self.now other.now }
        ensures exact { IsTrue result ↔ (self.now ≡ other.now) }
    {
        self.symbol.same(&other.symbol) && same_scopes(&self.scopes, &other.scopes)
    }
}

ghost use Rattle.std.specs.Prelude.{◌≡◌, ◌↔◌, IfOk, IsTrue};
ghost use Rattle.stacks_vars.specs.Same.{attached_eq};

/// The scopes that are attached to a symbol once more, at the cost of their length; None where it is plain. The one error
/// is want of memory.
pub(crate) fn copy_scopes(
    alloc: Global,
    scopes: &Option<ScopeStack>,
) -> Result<Option<ScopeStack>, AllocError>
    ensures { IfOk result (λ copy. copy ≡ scopes.now) }
{
    match scopes {
        Some(scopes) => Ok(Some(scopes.copy(alloc)?)),
        None => Ok(None),
    }
}

/// Whether both are plain, or both have the same scopes attached.
pub(crate) fn same_scopes(left: &Option<ScopeStack>, right: &Option<ScopeStack>) -> bool
    ensures { result ≡ attached_eq left.now right.now }
{
    match (left, right) {
        (Some(left), Some(right)) => left.same(right),
        (None, None) => true,
        _ => false,
    }
}

/// A stack of symbols. A contract sees it as a list, its front first.
pub type SymbolStack = Stack<SymbolItem>;

impl Stack<SymbolItem> {
    ghost use Rattle.std.specs.{Prelude.{◌≡◌, ◌↔◌, IfOk, IsTrue}, Cmp.Lexicographic.{pointwise}};
    ghost use Rattle.stacks_vars.specs.Same.{item_eq};

    /// The same stack once more, at the cost of all that it holds; the one error is want of memory.
    pub fn copy(&self, alloc: Global) -> Result<SymbolStack, AllocError>
        ensures { IfOk result (λ copy. copy ≡ self.now) }
    {
        let mut copies = Vec::with_capacity(alloc, self.items.len())?;
        for item in &self.items {
            copies.push(item.copy(alloc)?)?;
        }
        Ok(Stack { items: copies })
    }

    /// Whether both have the same symbols, with the same scopes, in the same order. It begins at the
    /// front, where two stacks of one search differ first.
    pub fn same(&self, other: &SymbolStack) -> bool
        ensures eq { result ≡ pointwise item_eq self.now other.now }
        ensures exact { IsTrue result ↔ (self.now ≡ other.now) }
    {
        same_items(self.reversed(), other.reversed())
    }
}

/// What tells whether it equals another of its type.
pub(crate) trait Equal {
    fn equals(&self, other: &Self) -> bool
        ensures { IsTrue result ↔ (self.now ≡ other.now) };
}

impl Equal for SymbolItem {
    fn equals(&self, other: &SymbolItem) -> bool {
        self.same(other)
    }
}

/// Whether both are the same items in the same order, begun at the last.
pub(crate) fn same_items<T: Equal>(left: &[T], right: &[T]) -> bool
    ensures { IsTrue result ↔ (left.now ≡ right.now) }
{
    if left.len() != right.len() {
        return false;
    }
    let mut rest = left.len();
    while rest > 0 {
        rest -= 1;
        if !left[rest].equals(&right[rest]) {
            return false;
        }
    }
    true
}
