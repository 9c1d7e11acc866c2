//! The heads of the first symbols that paths ask for: most paths are told apart by them, with no look at the paths.
ghost use Rattle.std.specs.Prelude.{◌≤◌, ◌<◌, length, slice_get, IfOk};
ghost use Rattle.partial_path.specs.{Heads.{AreFirstHeads, AreLess, AreNoLess, IsHeadAt, Rise}, Keys.{key, texts}};

use crate::halving::middle_of;
use crate::slots::{KEY_SIZE, asked_at, symbol_at};
use crate::stored::StoredPath;
use crate::stored_paths::StoredPaths;
use stacks_vars::LentStack;
use std::alloc::{AllocError, Global};

/// The heads of the paths' first symbols, 0 for one that asks for none; none at all where memory is refused.
pub fn heads_or_none(alloc: Global, paths: &StoredPaths<'_>) -> Vec<u64>
    ensures { AreFirstHeads result.items paths.now }
{
    match heads_of(alloc, paths) {
        Ok(heads) => heads,
        Err(_) => Vec::new(alloc),
    }
}

/// The heads of the paths' first symbols. The one error is want of memory.
fn heads_of(alloc: Global, paths: &StoredPaths<'_>) -> Result<Vec<u64>, AllocError>
    ensures { IfOk result (λ heads. AreFirstHeads heads.items paths.now) }
{
    let mut heads = Vec::with_capacity(alloc, paths.len())?;
    for i in 0..paths.len() {
        heads.push(first_head(&paths.at(i)))?;
    }
    Ok(heads)
}

/// The head of the first symbol that the path asks for; 0 where it asks for none.
fn first_head(path: &StoredPath<'_>) -> u64
    ensures { IsHeadAt result (slice_get (key path.now) 0) }
{
    match asked_at(path.asked(), 0) {
        Some(symbol) => symbol.head(),
        None => 0,
    }
}

/// The head of the stack's first symbol; 0 where it has none.
pub fn wanted_head(symbols: &LentStack<'_>) -> u64
    ensures { IsHeadAt result (slice_get (texts symbols.now) 0) }
{
    match symbol_at(symbols, KEY_SIZE, 0) {
        Some(symbol) => symbol.head(),
        None => 0,
    }
}

/// From which place on the heads between those two, which rise, are no less than that one. It takes constant
/// time where that is the first place.
pub fn zone_from(heads: &[u64], from: usize, high: usize, wanted: u64) -> usize
    requires bounds { (from < high) × (high ≤ length heads.now) }
    requires rise { Rise heads.now from high }
    ensures bounds { (from ≤ result) × (result ≤ high) }
    ensures less { AreLess heads.now from result wanted }
    ensures rest { AreNoLess heads.now result high wanted }
{
    let first = heads[from];
    if first >= wanted {
        return from;
    }
    let mut low = from + 1;
    let mut end = high;
    while low < end {
        let middle = middle_of(low, end);
        let head = heads[middle];
        if head < wanted {
            low = middle + 1;
            continue;
        }
        end = middle;
    }
    low
}
