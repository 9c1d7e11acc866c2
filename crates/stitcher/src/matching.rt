//! Whether a path that is offered is met: its texts were compared when it was found.
ghost use Rattle.std.specs.{Prelude.{◌≡◌, ◌≤◌, ◌&&◌, [], length, take, true, false, IsTrue}, List.{list_any}, Option.{is_some}};
ghost use Rattle.partial_path.specs.{Apply.{match_stacks}, Keys.{key, key_size}, Moved.{moved_pre, moved_start}, Rules.{start_spot}, Same.{spot_eq}, Sources.{stand_first}};
ghost use Rattle.stitcher.specs.Plain.{asks_scopes, has_scopes};

use partial_path::{KEY_SIZE, LentConfig, StoredPath};
use stacks_vars::{LentItem, LentStack, SymPat};

/// Whether the configuration meets a path that begins there and asks first for the texts of the symbols there. Only where
/// scopes are asked for or attached, or more texts are asked for than were compared, is it looked at again. The symbols
/// below those that are asked for aren't looked at.
pub fn is_met(file: u32, path: &StoredPath<'_>, at: &LentConfig<'_>) -> bool
    requires begins { spot_eq (start_spot (moved_start file path.now.start)) at.now.spot ≡ true }
    requires texts { stand_first (key path.now) at.now.stacks.symbols ≡ true }
    ensures { result
        ≡ (spot_eq (start_spot (moved_start file path.now.start)) at.now.spot && is_some
        (match_stacks (moved_pre file path.now.pre) at.now.stacks)) }
{
    if is_plain(path, at) {
        return true;
    }
    path.meets(file, at)
}

/// Whether the path asks for no scopes and for at most so many symbols as a key has, and none of the symbols that meet
/// those has any scopes.
fn is_plain(path: &StoredPath<'_>, at: &LentConfig<'_>) -> bool
    ensures few { IsTrue result → length path.now.pre.symbols ≤ key_size }
    ensures fixed { IsTrue result → path.now.pre.scopes.fixed ≡ [] }
    ensures asked { IsTrue result → list_any asks_scopes path.now.pre.symbols ≡ false }
    ensures stack { IsTrue result → list_any has_scopes
        (take (length path.now.pre.symbols) at.now.stacks.symbols) ≡ false }
{
    path.fixed().is_empty() && are_plain(path.asked(), at.symbols())
}

/// Whether these are at most so many symbols as a key has, without scopes, and so many in front of the stack have none. A
/// stack isn't looked at where nothing is asked for.
fn are_plain(asked: &[SymPat], symbols: &LentStack<'_>) -> bool
    ensures few { IsTrue result → length asked.now ≤ key_size }
    ensures asked { IsTrue result → list_any asks_scopes asked.now ≡ false }
    ensures stack { IsTrue result
        → list_any has_scopes (take (length asked.now) symbols.now) ≡ false }
{
    if asked.is_empty() {
        return true;
    }
    asked.len() <= KEY_SIZE && !any_asked(asked) && !any_in_front(asked.len(), symbols)
}

/// Whether scopes are asked for with one of these symbols.
fn any_asked(asked: &[SymPat]) -> bool
    ensures { result ≡ list_any asks_scopes asked.now }
{
    asked.iter().any(|pat| pat.scopes.is_some())
}

/// Whether scopes are attached to one of the first symbols, so many. The stack's front is the last of its items.
fn any_in_front(count: usize, symbols: &LentStack<'_>) -> bool
    ensures { result ≡ list_any has_scopes (take count symbols.now) }
{
    let items = symbols.reversed();
    any_attached(&items[items.len().saturating_sub(count)..])
}

/// Whether scopes are attached to one of these symbols.
fn any_attached(items: &[LentItem<'_>]) -> bool
    ensures { result ≡ list_any has_scopes items.now }
{
    items.iter().any(|item| item.scopes().is_some())
}
