//! Taking from an index what it offers to a stack of symbols, path by path.
ghost use Rattle.std.specs.{Prelude.{◌≡◌, ◌≤◌, ◌<◌, ◌+◌, List, [], ◌∷◌, take, drop, filter, slice_get, true, false, Some, IfSome, MatchOption}, List.{prefix_len}, Option.{option_map_or}};
ghost use Rattle.stacks_vars.specs.declared.items.SymbolItem.{SymbolItem};
ghost use Rattle.partial_path.specs.Keys.{key_size, texts};
ghost use Rattle.root_index.specs.{Roots.{AreByRank}, Offers.{asks, paths_left}, Inside.{is_before_key}};

use crate::group_list::GroupList;
use crate::hints::Hints;
use crate::key_heads::heads_wanted;
use crate::met::{Met, meet};
use crate::slot::Slot;
use crate::slot_list::is_before_key;
use partial_path::KEY_SIZE;
use stacks_vars::LentStack;

/// Where a look-up in an index stands.
#[derive(Clone, Copy, Debug)]
pub struct RootOffers {
    /// The place of the first path that wasn't looked at yet.
    pub place: usize,
    /// The group of the path before it, in which and behind which the next one is looked for first.
    pub near: usize,
}

/// The path that comes next, whoever may see it, with its place, and where the look-up stands after it; None where there is
/// no more. The paths are in order: one that isn't offered tells by how it stands to the stack's symbols which may come
/// next.
pub(crate) fn next_slot<'a>(
    slots: &'a GroupList,
    hints: Option<&Hints>,
    symbols: &LentStack<'_>,
    at: RootOffers,
) -> Option<(&'a Slot, usize, RootOffers)>
    requires { AreByRank slots.now }
    ensures next { MatchOption result (paths_left at symbols.now slots.now ≡ [])
        (λ found. paths_left at symbols.now slots.now
        ≡ found.0.now ∷ paths_left found.2 symbols.now slots.now) }
    ensures there { IfSome result (λ found. slice_get slots.now found.1 ≡ Some found.0.now) }
{
    let most = KEY_SIZE.min(symbols.len());
    let all = slots.len();
    let mut here = at;
    while here.place < all {
        let place = here.place;
        let (slot, near) = slots.at(place, here.near);
        match meet(slot, symbols, most) {
            Met::Asks => return Some((slot, place, behind(slots, slot, place, near))),
            Met::Before(count) => here = passed(slots, hints, symbols, count + 1, place, near),
            Met::Behind => return None,
        }
    }
    None
}

/// Where a look-up stands after the path at the place, which is offered: before the next one, or behind all where no
/// path behind asks first for what this one asks for, as the heads of the next one tell. So it mostly ends with the last
/// path that it offers, with no look at a text.
fn behind(slots: &GroupList, slot: &Slot, place: usize, near: usize) -> RootOffers
    requires order { AreByRank slots.now }
    requires there { slice_get slots.now place ≡ Some slot.now }
    ensures { (symbols : List SymbolItem) → asks symbols slot.now ≡ true
        → paths_left result symbols slots.now
        ≡ filter (asks symbols) (drop (place + 1) slots.now) }
{
    let all = slots.len();
    let next = place + 1;
    match slots.get(next, near) {
        Some((other, _)) if slot.ends_before(other) => RootOffers { place: all, near },
        _ => RootOffers { place: next, near },
    }
}

/// A later place than that of a path which stands before the key of so many symbols, such that each path before it stands
/// before that key too: where the key's paths would begin, as the heads of symbols tell it, or as halving over the paths
/// does where those tell too little.
fn passed(
    slots: &GroupList,
    hints: Option<&Hints>,
    symbols: &LentStack<'_>,
    count: usize,
    place: usize,
    near: usize,
) -> RootOffers
    requires order { AreByRank slots.now }
    requires count { count ≤ key_size }
    requires before { option_map_or (is_before_key (take count (texts symbols.now)))
        (slice_get slots.now place) false ≡ true }
    ensures later { place < result.place }
    ensures passed { result.place
        ≤ prefix_len (is_before_key (take count (texts symbols.now))) slots.now }
{
    let (told, group) = seems_to_begin(slots, hints, &heads_wanted(symbols, count));
    if place < told && is_before(slots, symbols, count, told - 1, group) {
        return RootOffers {
            place: told,
            near: group,
        };
    }
    RootOffers {
        place: slots.end_of(symbols, count),
        near,
    }
}

/// Where the paths of the key with these heads seem to begin, and in which group: as it was noted, else by halving.
fn seems_to_begin(slots: &GroupList, hints: Option<&Hints>, heads: &[u64; 6]) -> (usize, usize) {
    if let Some(hints) = hints {
        if let Some(found) = hints.found(heads) {
            return found;
        }
    }
    slots.told(heads)
}

/// Whether there is a path at the place, and it stands before the key of so many symbols.
fn is_before(
    slots: &GroupList,
    symbols: &LentStack<'_>,
    count: usize,
    place: usize,
    near: usize,
) -> bool
    requires { count ≤ key_size }
    ensures { result
        ≡ option_map_or (is_before_key (take count (texts symbols.now)))
        (slice_get slots.now place) false }
{
    match slots.get(place, near) {
        Some((slot, _)) => is_before_key(slot, symbols, count),
        None => false,
    }
}
