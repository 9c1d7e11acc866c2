//! In which order a file's paths are stored, and how those of one start and key are found: by halving.
ghost use Rattle.std.specs.{Prelude.{◌≡◌, ◌≤◌, ◌<◌, ◌-◌, false, length, take, drop, slice_get, option_copied, All, MatchOption}, Ordering.{nat_cmp}, Option.{option_cmp}, Cmp.Lexicographic.{slice_cmp}, List.{prefix_len}, List.Sorted.{IsPartitionedBy}};
ghost use Rattle.partial_path.specs.{Keys.{IsByKey, key, key_cmp, key_size, rules_asking, slot_cmp, slot_of, texts}, Inside.{IsFirstAtSlot, asked_key, slot_side, is_before_slot, is_at_slot, meets_text}, Sources.{stand_first}};

use crate::halving::count_first;
use crate::path::PartialPath;
use crate::rule::Start;
use crate::stored::StoredPath;
use crate::stored_paths::StoredPaths;
use stacks_vars::{LentStack, SymPat, Symbol};
use std::cmp::Ordering;

/// Of how many symbols that a path asks for the texts count, where paths are stored and found.
pub const KEY_SIZE: usize = 6;

/// How two paths stand to one another: by start, and then by the texts of the first symbols asked for.
pub fn slots_cmp(a: &PartialPath, b: &PartialPath) -> Ordering
    ensures { result ≡ slot_cmp (slot_of a.now) (slot_of b.now) }
{
    match a.start().cmp(&b.start()) {
        Ordering::Less => Ordering::Less,
        Ordering::Equal => asked_cmp(a.pre().symbols.items(), b.pre().symbols.items()),
        Ordering::Greater => Ordering::Greater,
    }
}

/// How the keys of two paths stand to one another.
pub fn keys_cmp(a: &StoredPath<'_>, b: &StoredPath<'_>) -> Ordering
    ensures { result ≡ key_cmp (key a.now) (key b.now) }
{
    asked_cmp(a.asked(), b.asked())
}

/// How the keys of paths stand to one another that ask for these symbols.
fn asked_cmp(a: &[SymPat], b: &[SymPat]) -> Ordering
    ensures { result ≡ key_cmp (asked_key a.now) (asked_key b.now) }
{
    for i in 0..KEY_SIZE {
        let order = texts_cmp(asked_at(a, i), asked_at(b, i));
        if order.is_ne() {
            return order;
        }
    }
    Ordering::Equal
}

/// The symbol at that place, from 0, of those that a path asks for; None where it asks for fewer.
pub fn asked_at(asked: &[SymPat], i: usize) -> Option<&Symbol>
    requires { i < key_size }
    ensures { option_copied result ≡ slice_get (asked_key asked.now) i }
{
    match asked.get(i) {
        Some(pat) => Some(&pat.symbol),
        None => None,
    }
}

/// How two texts stand to one another; none stands before any.
fn texts_cmp(a: Option<&Symbol>, b: Option<&Symbol>) -> Ordering
    ensures { result
        ≡ option_cmp (slice_cmp nat_cmp) (option_copied a.entry) (option_copied b.entry) }
{
    match (a, b) {
        (None, None) => Ordering::Equal,
        (None, Some(_)) => Ordering::Less,
        (Some(_), None) => Ordering::Greater,
        (Some(a), Some(b)) => a.order(b),
    }
}

/// How the path's start and key stand to a start and the texts of the stack's first symbols, so many of them.
fn slot_side(path: &StoredPath<'_>, start: Start, symbols: &LentStack<'_>, count: usize) -> Ordering
    requires { count ≤ key_size }
    ensures { result ≡ slot_side start (take count (texts symbols.now)) path.now }
{
    match path.start().cmp(&start) {
        Ordering::Less => Ordering::Less,
        Ordering::Equal => key_side(path, symbols, count),
        Ordering::Greater => Ordering::Greater,
    }
}

/// How the path's key stands to the texts of the stack's first symbols, so many of them.
pub fn key_side(path: &StoredPath<'_>, symbols: &LentStack<'_>, count: usize) -> Ordering
    requires { count ≤ key_size }
    ensures { result ≡ key_cmp (key path.now) (take count (texts symbols.now)) }
{
    let asked = path.asked();
    for i in 0..KEY_SIZE {
        let order = texts_cmp(asked_at(asked, i), symbol_at(symbols, count, i));
        if order.is_ne() {
            return order;
        }
    }
    Ordering::Equal
}

/// The symbol at that place, from the front on, of the first `count`; None where there are fewer.
pub fn symbol_at<'a>(symbols: &LentStack<'a>, count: usize, i: usize) -> Option<&'a Symbol>
    ensures { option_copied result ≡ slice_get (take count (texts symbols.now)) i }
{
    let items = symbols.reversed();
    if i < count && i < items.len() {
        Some(items[items.len() - 1 - i].symbol())
    } else {
        None
    }
}

/// Where the paths stand that begin there and whose key is made of the texts of the stack's first symbols,
/// so many of them: from which place on, and before which. The paths are in the order of their keys.
pub fn run_asking(
    paths: &StoredPaths<'_>,
    start: Start,
    symbols: &LentStack<'_>,
    count: usize,
) -> (usize, usize)
    requires order { IsByKey paths.now }
    requires count { count ≤ key_size }
    ensures run { take (result.1 - result.0) (drop result.0 paths.now)
        ≡ rules_asking start (take count (texts symbols.now)) paths.now }
    ensures bounds { (result.0 ≤ result.1) × (result.1 ≤ length paths.now) }
{
    let low = count_before(paths, start, symbols, count);
    let many = count_at(&paths.between(low, paths.len()), start, symbols, count);
    (low, low + many)
}

/// The place of the first of the paths that stands in that slot.
pub fn first_in_slot(
    paths: &StoredPaths<'_>,
    start: Start,
    symbols: &LentStack<'_>,
    count: usize,
) -> Option<usize>
    requires order { IsByKey paths.now }
    requires count { count ≤ key_size }
    ensures { MatchOption result (All (λ rule. is_at_slot start
        (take count (texts symbols.now)) rule ≡ false) paths.now)
        (λ place. IsFirstAtSlot start (take count (texts symbols.now)) paths.now place) }
{
    let place = count_before(paths, start, symbols, count);
    let size = paths.len();
    if place == size {
        return None;
    }
    if slot_side(&paths.at(place), start, symbols, count).is_eq() {
        Some(place)
    } else {
        None
    }
}

/// Whether the first symbols that the path asks for, those of its key, have the texts of the stack's first ones.
pub fn stands_first(path: &StoredPath<'_>, symbols: &LentStack<'_>) -> bool
    ensures { result ≡ stand_first (key path.now) symbols.now }
{
    let asked = path.asked();
    let count = KEY_SIZE.min(asked.len());
    for i in 0..count {
        if !is_met(asked_at(asked, i), symbol_at(symbols, KEY_SIZE, i)) {
            return false;
        }
    }
    true
}

/// Whether the symbol that is asked for is that one; true where none is asked for.
fn is_met(asked: Option<&Symbol>, symbol: Option<&Symbol>) -> bool
    ensures { result ≡ meets_text (option_copied asked.entry) (option_copied symbol.entry) }
{
    match (asked, symbol) {
        (None, _) => true,
        (Some(_), None) => false,
        (Some(asked), Some(symbol)) => asked.same(symbol),
    }
}

/// How many of the paths, which are in the order of their keys, stand before that slot.
fn count_before(
    paths: &StoredPaths<'_>,
    start: Start,
    symbols: &LentStack<'_>,
    count: usize,
) -> usize
    requires order { IsByKey paths.now }
    requires count { count ≤ key_size }
    ensures value { result
        ≡ prefix_len (is_before_slot start (take count (texts symbols.now))) paths.now }
    ensures bound { result ≤ length paths.now }
{
    count_first(paths, |path| slot_side(path, start, symbols, count).is_lt())
}

/// How many of the first paths stand in that slot, of paths of which none stands there after one that
/// doesn't.
fn count_at(paths: &StoredPaths<'_>, start: Start, symbols: &LentStack<'_>, count: usize) -> usize
    requires parted { IsPartitionedBy (is_at_slot start
        (take count (texts symbols.now))) paths.now }
    requires count { count ≤ key_size }
    ensures value { result
        ≡ prefix_len (is_at_slot start (take count (texts symbols.now))) paths.now }
    ensures bound { result ≤ length paths.now }
{
    count_first(paths, |path| slot_side(path, start, symbols, count).is_eq())
}
