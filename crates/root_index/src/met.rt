//! How a path from the root stands to the keys that a stack of symbols makes.
ghost use Rattle.std.specs.Prelude.{◌≡◌, ◌<◌, ◌≤◌, length, slice_get, Some};
ghost use Rattle.partial_path.specs.Keys.{key_size, texts};
ghost use Rattle.root_index.specs.{Met.{IsMet}, Roots.{root_key}};

use crate::slot::Slot;
use partial_path::KEY_SIZE;
use stacks_vars::{LentStack, Symbol};
use std::cmp::Ordering;

/// How a key stands to those that the texts of a stack's first symbols make: of none of them, of one, and so on.
#[derive(Clone, Copy, Debug)]
pub(crate) enum Met {
    /// It is one of them: the path asks for the first symbols of the stack.
    Asks,
    /// It stands behind the key of so many, and before those of more.
    Before(usize),
    /// It stands behind all of them.
    Behind,
}

/// How the path's key stands to those of at most so many of the stack's symbols. Each text is looked at once, and most by
/// their heads alone, with no look at the path.
pub(crate) fn meet(slot: &Slot, symbols: &LentStack<'_>, most: usize) -> Met
    requires few { most ≤ key_size }
    requires there { most ≤ length symbols.now }
    ensures { IsMet symbols.now most (root_key slot.now) result }
{
    for i in 0..most {
        let wanted = wanted_at(symbols, i);
        let Some(order) = slot.text_side(i, wanted) else {
            return Met::Asks;
        };
        match order {
            Ordering::Less => return Met::Before(i),
            Ordering::Equal => {}
            Ordering::Greater => return Met::Behind,
        }
    }
    // A key has six texts at most.
    if most == KEY_SIZE || !slot.asks_at(most) {
        return Met::Asks;
    }
    Met::Behind
}

/// The stack's symbol at that place, from the front on.
fn wanted_at<'a>(symbols: &LentStack<'a>, i: usize) -> &'a Symbol
    requires { i < length symbols.now }
    ensures { slice_get (texts symbols.now) i ≡ Some result.now }
{
    let items = symbols.reversed();
    items[items.len() - 1 - i].symbol()
}
