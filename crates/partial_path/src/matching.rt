ghost use Rattle.std.specs.{Prelude.{◌≡◌, ◌&&◌, map, take, reverse, Some, None}, Option.{option_map, is_some}};
ghost use Rattle.stacks_vars.specs.Same.{node_eq};
ghost use Rattle.partial_path.specs.{Apply.{after_fixed, match_item, match_items}, Moved.{moved_node, moved_symbol}};

use stacks_vars::{LentItem, LentStack, NodeAt, ScopeStack, SymPat};

/// How many scopes follow the fixed ones, moved by `base`; None where the stack doesn't begin with them.
/// The stack's front is the last of `scopes`.
pub fn left_after(base: u32, fixed: &[NodeAt], scopes: &[NodeAt]) -> Option<usize>
    ensures { option_map (λ n. reverse (take n scopes.now)) result
        ≡ after_fixed (map (moved_node base) fixed.now) (reverse scopes.now) }
{
    let mut left = scopes.len();
    for node in fixed {
        if left == 0 {
            return None;
        }
        left -= 1;
        if !is_moved(base, *node, scopes[left]) {
            return None;
        }
    }
    Some(left)
}

/// Whether the first node, moved by `base`, is the second. No sum is made, so none can be too great.
pub fn is_moved(base: u32, node: NodeAt, at: NodeAt) -> bool
    ensures { result ≡ node_eq (moved_node base node) at }
{
    at.file >= base && at.file - base == node.file && at.node == node.node
}

/// Whether the symbol is as it is asked for. It takes no memory, and time that follows the pattern.
pub fn meets_item(base: u32, pat: &SymPat, item: &LentItem<'_>) -> bool
    ensures { result ≡ is_some (match_item (moved_symbol base pat.now) item.now) }
{
    if !pat.symbol.same(item.symbol()) {
        return false;
    }
    match (&pat.scopes, item.scopes()) {
        (None, None) => true,
        (Some(scopes), Some(attached)) => meets_scopes(base, scopes.get().fixed.items(), attached),
        _ => false,
    }
}

/// Whether the stack begins with the fixed scopes. It takes no memory, and time that follows the pattern.
pub fn meets_scopes(base: u32, fixed: &[NodeAt], scopes: &ScopeStack) -> bool
    ensures { result ≡ is_some (after_fixed (map (moved_node base) fixed.now) scopes.now) }
{
    left_after(base, fixed, scopes.reversed()).is_some()
}

/// Whether the first symbols are as they are asked for. It takes no memory, and time that follows the
/// patterns.
pub fn meets_items(base: u32, asked: &[SymPat], symbols: &LentStack<'_>) -> bool
    ensures { result ≡ is_some (match_items (map (moved_symbol base) asked.now) symbols.now) }
{
    let items = symbols.reversed();
    let mut left = items.len();
    for pat in asked {
        if left == 0 {
            return false;
        }
        left -= 1;
        if !meets_item(base, pat, &items[left]) {
            return false;
        }
    }
    true
}
