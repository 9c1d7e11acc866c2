//! The heads of the symbols whose texts make a path's key, and their tails, which are the heads of what stands behind the
//! first seven bytes: most keys are told apart by the heads and nearly all by both, with no look at the path.
ghost use Rattle.std.specs.{Prelude.{◌≡◌, ◌≤◌, ◌<◌, ◌%◌, ℕ, List, Option, length, take, drop, slice_get, slice_index, IfSome, IfNone}, Ordering.{nat_cmp}, Option.{option_cmp, option_map}, Cmp.Lexicographic.{slice_cmp}};
ghost use Rattle.partial_path.specs.{Keys.{key, key_cmp, key_size, texts}, Heads.{IsHeadAt}};
ghost use Rattle.stacks_vars.specs.Head.{IsHead};
ghost use Rattle.root_index.specs.Heads.{AreHeads, AreTails, IsTailAt};

use partial_path::{KEY_SIZE, StoredPath, symbol_at};
use stacks_vars::{LentStack, Symbol};
use std::cmp::Ordering;

/// The heads and the tails of the first six symbols that the path asks for; 0 where it asks for fewer.
pub(crate) fn heads_and_tails(path: &StoredPath<'_>) -> ([u64; 6], [u64; 6])
    ensures heads { AreHeads result.0 (key path.now) }
    ensures tails { AreTails result.1 (key path.now) }
{
    (heads_of(path), tails_of(path))
}

/// The heads of the first six symbols that the path asks for; 0 where it asks for fewer.
fn heads_of(path: &StoredPath<'_>) -> [u64; 6]
    ensures { AreHeads result (key path.now) }
{
    [
        head_at(path, 0),
        head_at(path, 1),
        head_at(path, 2),
        head_at(path, 3),
        head_at(path, 4),
        head_at(path, 5),
    ]
}

/// The head of the symbol that the path asks for at that place, from 0; 0 where it asks for fewer.
fn head_at(path: &StoredPath<'_>, i: usize) -> u64
    requires { i < key_size }
    ensures { IsHeadAt result (slice_get (key path.now) i) }
{
    match asked_at(path, i) {
        Some(symbol) => symbol.head(),
        None => 0,
    }
}

/// The tails of the first six symbols that the path asks for; 0 where it asks for fewer.
fn tails_of(path: &StoredPath<'_>) -> [u64; 6]
    ensures { AreTails result (key path.now) }
{
    [
        tail_at(path, 0),
        tail_at(path, 1),
        tail_at(path, 2),
        tail_at(path, 3),
        tail_at(path, 4),
        tail_at(path, 5),
    ]
}

/// The tail of the symbol that the path asks for at that place, from 0; 0 where it asks for fewer.
fn tail_at(path: &StoredPath<'_>, i: usize) -> u64
    requires { i < key_size }
    ensures { IsTailAt result (slice_get (key path.now) i) }
{
    match asked_at(path, i) {
        Some(symbol) => tail_of(symbol),
        None => 0,
    }
}

/// The symbol that the path asks for at that place, from 0; None where it asks for fewer.
fn asked_at<'a>(path: &StoredPath<'a>, i: usize) -> Option<&'a Symbol>
    requires { i < key_size }
    ensures { option_map (λ s. s.now) result ≡ slice_get (key path.now) i }
{
    match path.asked().get(i) {
        Some(pat) => Some(&pat.symbol),
        None => None,
    }
}

/// The tail of the symbol: the head of its bytes from the eighth on.
pub(crate) fn tail_of(symbol: &Symbol) -> u64
    ensures { IsHead result (drop 7 symbol.now) }
{
    let rest = behind_head(symbol.as_bytes());
    u64::from_be_bytes([
        byte_at(rest, 0),
        byte_at(rest, 1),
        byte_at(rest, 2),
        byte_at(rest, 3),
        byte_at(rest, 4),
        byte_at(rest, 5),
        byte_at(rest, 6),
        rest.len().min(8) as u8 + 1,
    ])
}

/// The bytes behind the first seven.
fn behind_head(bytes: &[u8]) -> &[u8]
    ensures { result.now ≡ drop 7 bytes.now }
{
    if bytes.len() > 7 { &bytes[7..] } else { &[] }
}

/// The byte at that place; 0 behind the end.
fn byte_at(bytes: &[u8], place: usize) -> u8
    ensures { result ≡ slice_index bytes.now place }
{
    match bytes.get(place) {
        Some(byte) => *byte,
        None => 0,
    }
}

/// The heads of the stack's first symbols, so many of them; 0 where there are fewer.
pub(crate) fn heads_wanted(symbols: &LentStack<'_>, count: usize) -> [u64; 6] {
    [
        wanted_head(symbols, count, 0),
        wanted_head(symbols, count, 1),
        wanted_head(symbols, count, 2),
        wanted_head(symbols, count, 3),
        wanted_head(symbols, count, 4),
        wanted_head(symbols, count, 5),
    ]
}

/// Whether heads stand before others: an order of numbers alone, in which long texts of one head are the same.
pub(crate) fn stand_before(heads: &[u64; 6], wanted: &[u64; 6]) -> bool {
    for i in 0..KEY_SIZE {
        if heads[i] != wanted[i] {
            return heads[i] < wanted[i];
        }
    }
    false
}

/// How a key with these heads and tails stands to the texts of the stack's first symbols, so many of them; None where
/// they don't tell.
pub(crate) fn heads_side(
    heads: &[u64; 6],
    tails: &[u64; 6],
    symbols: &LentStack<'_>,
    count: usize,
) -> Option<Ordering>
    requires { count ≤ key_size }
    ensures { IfSome result (λ order. (asked : List (List ℕ)) → AreHeads heads.now asked
        → AreTails tails.now asked → length asked ≤ 6
        → order ≡ key_cmp asked (take count (texts symbols.now))) }
{
    for i in 0..KEY_SIZE {
        let order = match side_at(heads[i], tails[i], symbols, count, i) {
            Some(order) => order,
            None => return None,
        };
        if order.is_ne() {
            return Some(order);
        }
    }
    Some(Ordering::Equal)
}

/// How a text with this head and this tail stands to that of the stack's symbol at that place, of the first `count`; None
/// where they don't tell.
fn side_at(
    head: u64,
    tail: u64,
    symbols: &LentStack<'_>,
    count: usize,
    i: usize,
) -> Option<Ordering>
    ensures { IfSome result (λ order. (x : Option (List ℕ)) → IsHeadAt head x → IsTailAt tail x
        → order ≡ option_cmp (slice_cmp nat_cmp)
        x (slice_get (take count (texts symbols.now)) i)) }
{
    match heads_cmp(head, wanted_head(symbols, count, i)) {
        Some(order) => Some(order),
        None => tails_cmp(head, tail, wanted_tail(symbols, count, i)),
    }
}

/// How two keys with these heads stand to one another; None where the heads don't tell.
pub(crate) fn heads_order(a: &[u64; 6], b: &[u64; 6]) -> Option<Ordering>
    ensures { IfSome result (λ order. (x y : List (List ℕ)) → AreHeads a.now x → AreHeads b.now y
        → length x ≤ 6 → length y ≤ 6 → order ≡ key_cmp x y) }
{
    for i in 0..KEY_SIZE {
        let order = match heads_cmp(a[i], b[i]) {
            Some(order) => order,
            None => return None,
        };
        if order.is_ne() {
            return Some(order);
        }
    }
    Some(Ordering::Equal)
}

/// The head of the symbol at that place, from the front on, of the first `count`; 0 where there are fewer.
fn wanted_head(symbols: &LentStack<'_>, count: usize, i: usize) -> u64
    ensures { IsHeadAt result (slice_get (take count (texts symbols.now)) i) }
{
    match symbol_at(symbols, count, i) {
        Some(symbol) => symbol.head(),
        None => 0,
    }
}

/// The tail of the symbol at that place, from the front on, of the first `count`; 0 where there are fewer.
fn wanted_tail(symbols: &LentStack<'_>, count: usize, i: usize) -> u64
    ensures { IsTailAt result (slice_get (take count (texts symbols.now)) i) }
{
    match symbol_at(symbols, count, i) {
        Some(symbol) => tail_of(symbol),
        None => 0,
    }
}

/// How two texts with these heads stand to one another, none before any; None where the heads don't tell.
pub(crate) fn heads_cmp(a: u64, b: u64) -> Option<Ordering>
    ensures told { IfSome result (λ order. (x y : Option (List ℕ)) → IsHeadAt a x → IsHeadAt b y
        → order ≡ option_cmp (slice_cmp nat_cmp) x y) }
    ensures long { IfNone result ((a ≡ b) × (8 < a % 256)) }
{
    if a != b {
        return Some(a.cmp(&b));
    }
    if a % 256 <= 8 {
        return Some(Ordering::Equal);
    }
    None
}

/// How two texts of more than seven bytes with this one head stand to one another, by their tails; None where those don't
/// tell.
pub(crate) fn tails_cmp(head: u64, a: u64, b: u64) -> Option<Ordering>
    requires { 8 < head % 256 }
    ensures { IfSome result (λ order. (x y : Option (List ℕ)) → IsHeadAt head x → IsHeadAt head y
        → IsTailAt a x → IsTailAt b y → order ≡ option_cmp (slice_cmp nat_cmp) x y) }
{
    heads_cmp(a, b)
}
