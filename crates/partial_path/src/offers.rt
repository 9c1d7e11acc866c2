//! Taking what a file offers at a start to a stack of symbols, path by path.
ghost use Rattle.std.specs.{Prelude.{◌≡◌, ◌≤◌, ◌<◌, [], ◌∷◌, length, slice_get, true, IfSome, MatchOption}, List.{AllWithin}};
ghost use Rattle.partial_path.specs.{Heads.{AreFirstHeads, AreHeadsBelow, AreNoLess, IsHeadAt}, Inside.{IsAfter, IsNextOffer}, Keys.{IsByKey, texts}, Offers.{offers_left}, Starts.{begins_at}, Tables.{IsTable}};

use crate::heads::{wanted_head, zone_from};
use crate::rule::Start;
use crate::slots::{KEY_SIZE, first_in_slot, stands_first};
use crate::start_table::StartTable;
use crate::stored::StoredPath;
use crate::stored_paths::StoredPaths;
use stacks_vars::LentStack;

/// How many paths of one head are looked at one by one, before the others are halved.
const NEAR: usize = 8;

/// Where a look-up in the paths of one file stands.
#[derive(Clone, Copy, Debug)]
pub struct FileOffers {
    /// Where the paths begin, by the file's own numbers.
    pub start: Start,
    /// From which place on paths are still to be offered.
    pub place: usize,
}

impl FileOffers {
    ghost use Rattle.std.specs.Prelude.{◌≡◌, filter, List};
    ghost use Rattle.stacks_vars.specs.declared.items.SymbolItem.{SymbolItem};
    ghost use Rattle.partial_path.specs.{Rules.{Rule}, Sources.{is_offered}, Offers.{offers_left}};

    /// Before the first path that is offered at the start.
    pub fn at(start: Start) -> FileOffers
        ensures start { result.start ≡ start }
        ensures all { (symbols : List SymbolItem) (rules : List Rule)
            → offers_left result symbols rules ≡ filter (is_offered start symbols) rules }
    {
        FileOffers { start, place: 0 }
    }
}

/// The path that comes next, and where the look-up stands after it; None where no more is offered. The paths
/// are in the order of their keys.
pub fn next_offer<'a>(
    paths: &StoredPaths<'a>,
    starts: &StartTable,
    symbols: &LentStack<'_>,
    at: FileOffers,
) -> Option<(StoredPath<'a>, FileOffers)>
    requires order { IsByKey paths.now }
    requires heads { AreFirstHeads starts.now.heads.items paths.now }
    requires table { IsTable starts.now.before.items starts.now.nodes paths.now }
    ensures next { MatchOption result (offers_left at symbols.now paths.now ≡ [])
        (λ found. offers_left at symbols.now paths.now
        ≡ found.0 ∷ offers_left found.1 symbols.now paths.now) }
    ensures start { IfSome result (λ found. found.1.start ≡ at.start) }
{
    if at.place >= paths.len() {
        return None;
    }
    let (low, high) = starts.run(paths, &at.start);
    let from = at.place.max(low);
    let heads = starts.heads.as_slice();
    match offered_in_run(paths, heads, from, high, at.start, symbols) {
        Some(place) => {
            let after = offers_after(paths, heads, place, high, at.start);
            Some((paths.at(place), after))
        }
        None => None,
    }
}

/// Where a look-up stands after the path at that place, of those before another place, all of which begin there:
/// before the next one, or behind all where none of the others is offered if that one is. The heads, which rise, tell
/// it: all behind a path that asks for a symbol ask for another one where the next path has another head.
fn offers_after(
    paths: &StoredPaths<'_>,
    heads: &[u64],
    place: usize,
    high: usize,
    start: Start,
) -> FileOffers
    requires order { IsByKey paths.now }
    requires heads { AreFirstHeads heads.now paths.now }
    requires bounds { (place < high) × (high ≤ length paths.now) }
    requires begin { AllWithin (λ rule. begins_at start rule ≡ true) paths.now place high }
    ensures start { result.start ≡ start }
    ensures after { IsAfter start paths.now place high result.place }
{
    let size = paths.len();
    let next = place + 1;
    let ended = FileOffers { start, place: size };
    if next >= high {
        return ended;
    }
    let goes_on = FileOffers { start, place: next };
    let count = heads.len();
    if count != size {
        return goes_on;
    }
    let head = heads[place];
    if head == 0 {
        return goes_on;
    }
    let next_head = heads[next];
    if next_head == head {
        return goes_on;
    }
    ended
}

/// The place of the first path that is offered, of those between two places, all of which begin there. Those
/// that ask for nothing come first, then those whose first symbol has the head of the stack's first symbol.
fn offered_in_run(
    paths: &StoredPaths<'_>,
    heads: &[u64],
    from: usize,
    high: usize,
    start: Start,
    symbols: &LentStack<'_>,
) -> Option<usize>
    requires order { IsByKey paths.now }
    requires heads { AreFirstHeads heads.now paths.now }
    requires bound { high ≤ length paths.now }
    requires begin { AllWithin (λ rule. begins_at start rule ≡ true) paths.now from high }
    ensures { IsNextOffer start symbols.now paths.now from high result }
{
    if from >= high {
        return None;
    }
    let size = paths.len();
    let count = heads.len();
    if count != size {
        return offered_between(paths, from, high, start, symbols);
    }
    let first = heads[from];
    if first == 0 {
        return Some(from);
    }
    let wanted = wanted_head(symbols);
    let place = zone_from(heads, from, high, wanted);
    offered_in_zone(paths, heads, place, high, start, symbols, wanted)
}

/// The same of paths that ask for symbols, and of which none has a lesser head: one by one as far as they have that
/// head, and by halving where these are many.
fn offered_in_zone(
    paths: &StoredPaths<'_>,
    heads: &[u64],
    from: usize,
    high: usize,
    start: Start,
    symbols: &LentStack<'_>,
    wanted: u64,
) -> Option<usize>
    requires order { IsByKey paths.now }
    requires len { length heads.now ≡ length paths.now }
    requires heads { AreHeadsBelow (length paths.now) heads.now paths.now }
    requires bounds { (from ≤ high) × (high ≤ length paths.now) }
    requires begin { AllWithin (λ rule. begins_at start rule ≡ true) paths.now from high }
    requires wanted { IsHeadAt wanted (slice_get (texts symbols.now) 0) }
    requires some { AreNoLess heads.now from high 1 }
    requires least { AreNoLess heads.now from high wanted }
    ensures { IsNextOffer start symbols.now paths.now from high result }
{
    let near = (high - from).min(NEAR);
    let most = from + near;
    for place in from..most {
        let head = heads[place];
        if head != wanted {
            return None;
        }
        if stands_first(&paths.at(place), symbols) {
            return Some(place);
        }
    }
    offered_between(paths, most, high, start, symbols)
}

/// The place of the first path that is offered, of those between two places, by halving.
fn offered_between(
    paths: &StoredPaths<'_>,
    from: usize,
    high: usize,
    start: Start,
    symbols: &LentStack<'_>,
) -> Option<usize>
    requires order { IsByKey paths.now }
    requires bounds { (from ≤ high) × (high ≤ length paths.now) }
    ensures { IsNextOffer start symbols.now paths.now from high result }
{
    match first_offered(&paths.between(from, high), start, symbols) {
        Some(place) => Some(from + place),
        None => None,
    }
}

/// The place of the first path that is offered: of those that ask for nothing, else of those that ask for one
/// symbol, and so on.
fn first_offered(paths: &StoredPaths<'_>, start: Start, symbols: &LentStack<'_>) -> Option<usize>
    requires { IsByKey paths.now }
    ensures { IsNextOffer start symbols.now paths.now 0 (length paths.now) result }
{
    let most = KEY_SIZE.min(symbols.len());
    for count in 0..most + 1 {
        if let Some(place) = first_in_slot(paths, start, symbols, count) {
            return Some(place);
        }
    }
    None
}
