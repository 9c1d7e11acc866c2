use std::alloc::{AllocError, Global};
use std::marker::Model;

/// A stack. A contract sees it as a list, its front first.
#[derive(Debug, Drop)]
pub struct Stack<T> {
    /// The front is last, so that it comes and goes at no cost.
    pub(crate) items: Vec<T>,
}

impl<T> Model for Stack<T> {
    ghost use Rattle.std.specs.{Prelude.{List, reverse}, Coded.{coded_list}};

    ghost Value = { List T };

    ghost coded = { coded_list T.code };

    ghost view = { λ s. reverse s.items.items };
}

impl<T> Stack<T> {
    ghost use Rattle.std.specs.Prelude.{◌≡◌, ◌↔◌, [], length, reverse, IsTrue};

    /// The empty stack. It takes no memory.
    pub fn new(alloc: Global) -> Stack<T>
        ensures { result ≡ [] }
    {
        Stack {
            items: Vec::new(alloc),
        }
    }

    /// The stack of these, the front first. It takes no memory, and time that follows their number.
    pub fn of(items: Vec<T>) -> Stack<T>
        ensures { result ≡ items.items }
    {
        let mut items = items;
        items.reverse();
        Stack { items }
    }

    /// Its items from the last to the front, which they are kept in.
    pub fn reversed(&self) -> &[T]
        ensures { result.now ≡ reverse self.now }
    {
        self.items.as_slice()
    }

    /// The vector of its items, the front first. It takes no memory, and time that follows their number.
    pub fn into_items(self) -> Vec<T>
        ensures { result.items ≡ self }
    {
        let mut items = self.items;
        items.reverse();
        items
    }

    /// How many items it has.
    pub fn len(&self) -> usize
        ensures { result ≡ length self.now }
    {
        self.items.len()
    }

    /// Whether it has no items.
    pub fn is_empty(&self) -> bool
        ensures { IsTrue result ↔ (self.now ≡ []) }
    {
        self.items.is_empty()
    }
}

impl<T: Drop> Stack<T> {
    ghost use Rattle.std.specs.Prelude.{◌≡◌, [], ◌∷◌, drop, IfOk, MatchOption, OnErr};

    /// Puts the item in front; the one error is want of memory, and leaves the stack as it was.
    pub fn push(&mut self, item: T) -> Result<(), AllocError>
        ensures ok { IfOk result (λ _. self.new ≡ item ∷ self.old) }
        ensures err { OnErr result (self.new ≡ self.old) }
    {
        self.items.push(item)?;
        Ok(())
    }

    /// Takes the front off; None where the stack is empty.
    pub fn pop(&mut self) -> Option<T>
        ensures cases { MatchOption result (self.old ≡ []) (λ front. self.old ≡ front ∷ self.new) }
        ensures rest { self.new ≡ drop 1 self.old }
    {
        self.items.pop()
    }

    /// Takes all items off.
    pub fn clear(&mut self)
        ensures { self.new ≡ [] }
    {
        self.items.clear();
    }
}
