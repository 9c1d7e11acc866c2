//! Symbols on the stacks of a search, lent by the files whose paths make them.
use crate::items::{Equal, SymbolItem, SymbolStack, copy_scopes, same_items, same_scopes};
use crate::scopes::ScopeStack;
use crate::stack::Stack;
use crate::symbol::Symbol;
use std::alloc::{AllocError, Global};
use std::marker::Model;
use std::mem;

/// A symbol on a stack of a search: plain, or with an attached scope stack. The symbol itself is lent, so that a copy
/// counts no holder more. A contract sees a `SymbolItem`.
#[derive(Drop)]
pub struct LentItem<'a> {
    symbol: &'a Symbol,
    scopes: Option<ScopeStack>,
}

impl<'a> Model for LentItem<'a> {
    ghost use Rattle.stacks_vars.specs.{declared.items.SymbolItem.{SymbolItem}, Enter.{item_of}};

    ghost Value = { SymbolItem };

    ghost view = { λ i. item_of i.symbol.now i.scopes };
}

impl<'a> LentItem<'a> {
    ghost use Rattle.std.specs.Prelude.{◌≡◌, ◌↔◌, IfOk, IsTrue};
    ghost use Rattle.stacks_vars.specs.{Enter.{item_of}, Same.{item_eq}};

    /// The symbol with these scopes attached.
    pub fn of(symbol: &'a Symbol, scopes: Option<ScopeStack>) -> LentItem<'a>
        ensures { result ≡ item_of symbol.now scopes }
    {
        LentItem { symbol, scopes }
    }

    /// The symbol itself.
    pub fn symbol(&self) -> &'a Symbol
        ensures { result.now ≡ self.now.symbol }
    {
        self.symbol
    }

    /// The attached scopes; None where it is plain.
    pub fn scopes(&self) -> &Option<ScopeStack>
        ensures { result.now ≡ self.now.scopes }
    {
        &self.scopes
    }

    /// The same symbol and scopes once more, at the cost of the scopes' number; the one error is want of memory.
    pub fn copy(&self, alloc: Global) -> Result<LentItem<'a>, AllocError>
        ensures { IfOk result (λ copy. copy ≡ self.now) }
    {
        let scopes = copy_scopes(alloc, &self.scopes)?;
        Ok(LentItem::of(self.symbol, scopes))
    }

    /// Whether both have the same symbol, and both are plain or have the same scopes attached.
    pub fn same(&self, other: &LentItem<'_>) -> bool
        ensures eq { result ≡ item_eq self.now other.now }
        ensures exact { IsTrue result ↔ (self.now ≡ other.now) }
    {
        self.symbol.same(other.symbol) && same_scopes(&self.scopes, &other.scopes)
    }
}

/// A stack of symbols that are lent. A contract sees a list, its front first.
pub type LentStack<'a> = Stack<LentItem<'a>>;

impl<'a> Stack<LentItem<'a>> {
    ghost use Rattle.std.specs.{Prelude.{◌≡◌, ◌↔◌, drop, IfOk, OnOk, IsTrue}, Cmp.Lexicographic.{pointwise}};
    ghost use Rattle.stacks_vars.specs.Same.{item_eq};

    /// The stack with its symbols lent; the one error is want of memory.
    pub fn lending(alloc: Global, stack: &'a SymbolStack) -> Result<LentStack<'a>, AllocError>
        ensures { IfOk result (λ lent. lent ≡ stack.now) }
    {
        let mut items = Vec::with_capacity(alloc, stack.len())?;
        for item in stack.reversed() {
            items.push(lent(alloc, item)?)?;
        }
        Ok(Stack { items })
    }

    /// Becomes the other stack without its first symbols, so many, in the room that it has, and with room for `room`
    /// symbols to be put in front. Its own symbols go. It costs what is left, and takes memory where it has less room; the
    /// one error is want of memory.
    pub fn fill_rest(
        &mut self,
        alloc: Global,
        other: &LentStack<'a>,
        but: usize,
        room: usize,
    ) -> Result<(), AllocError>
        ensures { OnOk result (self.new ≡ drop but other.now) }
    {
        let left = other.items.len().saturating_sub(but);
        // Taken out for the while, since behind a reference each push would go through memory.
        let mut items = mem::replace(&mut self.items, Vec::new(alloc));
        items.clear();
        items.reserve(left.saturating_add(room))?;
        for item in &other.items[..left] {
            items.push(item.copy(alloc)?)?;
        }
        self.items = items;
        Ok(())
    }

    /// Whether both have the same symbols, with the same scopes, in the same order. It begins at the front, where two
    /// stacks of one search differ first.
    pub fn same(&self, other: &LentStack<'_>) -> bool
        ensures eq { result ≡ pointwise item_eq self.now other.now }
        ensures exact { IsTrue result ↔ (self.now ≡ other.now) }
    {
        same_items(self.reversed(), other.reversed())
    }
}

ghost use Rattle.std.specs.Prelude.{◌≡◌, IfOk};

/// The symbol lent, with a copy of its attached scopes; the one error is want of memory.
fn lent<'a>(alloc: Global, item: &'a SymbolItem) -> Result<LentItem<'a>, AllocError>
    ensures { IfOk result (λ lent. lent ≡ item.now) }
{
    let scopes = copy_scopes(alloc, &item.scopes)?;
    Ok(LentItem::of(&item.symbol, scopes))
}

impl<'a> Equal for LentItem<'a> {
    fn equals(&self, other: &LentItem<'a>) -> bool {
        self.same(other)
    }
}
