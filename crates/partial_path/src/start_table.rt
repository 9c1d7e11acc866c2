//! Where a file's paths of one start stand, as a table tells it.
ghost use Rattle.std.specs.{Prelude.{◌≡◌, ◌≤◌, ◌<◌, ◌-◌, ◌*◌, ◌^◌, length, take, drop, IfOk, IfSome}, List.{prefix_len}, List.Sorted.{IsPartitionedBy}};
ghost use Rattle.partial_path.specs.{Starts.{IsByStart, begins_at, is_before, rules_at}, Tables.{AreTold, IsTable, IsTold, has_node, has_place, place_in}};

use crate::config::Spot;
use crate::halving::count_first;
use crate::heads::heads_or_none;
use crate::rule::Start;
use crate::stored::StoredPath;
use crate::stored_paths::StoredPaths;
use stacks_vars::NodeAt;
use std::alloc::{AllocError, Global};

/// How many of a file's paths stand before those of each start, by the start's place: first the references,
/// then the root and the nodes; and of each path the head of the first symbol that it asks for. It has nothing
/// where there was no memory for it.
#[derive(Debug, Drop)]
pub struct StartTable {
    pub before: Vec<u16>,
    pub nodes: u32,
    pub heads: Vec<u64>,
}

impl StartTable {
    ghost use Rattle.std.specs.Prelude.{◌≡◌, ◌≤◌, ◌-◌, length, take, drop, IfSome};
    ghost use Rattle.partial_path.specs.{Heads.{AreFirstHeads}, Starts.{IsByStart, rules_at}, Tables.{IsTable}};

    /// The table of these paths, which are in the order of their starts, of a file with so many nodes. It
    /// takes memory for two numbers a node and one a path, and does without a table where that is refused.
    pub fn of(alloc: Global, paths: &StoredPaths<'_>, nodes: u32) -> StartTable
        ensures heads { AreFirstHeads result.heads.items paths.now }
        ensures table { IsTable result.before.items result.nodes paths.now }
    {
        let before = counts_or_none(alloc, paths, nodes);
        let heads = heads_or_none(alloc, paths);
        StartTable {
            before,
            nodes,
            heads,
        }
    }

    /// Where the paths stand that begin there: from which place on, and before which. It takes constant time
    /// where the table tells it, and halves over all paths where it doesn't.
    #[inline(always)]
    pub fn run(&self, paths: &StoredPaths<'_>, start: &Start) -> (usize, usize)
        requires order { IsByStart paths.now }
        requires table { IsTable self.now.before.items self.now.nodes paths.now }
        ensures run { take (result.1 - result.0) (drop result.0 paths.now)
            ≡ rules_at start.now paths.now }
        ensures bounds { (result.0 ≤ result.1) × (result.1 ≤ length paths.now) }
    {
        match self.told(paths, *start) {
            Some(found) => found,
            None => halved_run(paths, start),
        }
    }

    /// The same where the table tells it; None where it doesn't.
    #[inline(always)]
    pub fn told(&self, _paths: &StoredPaths<'_>, start: Start) -> Option<(usize, usize)>
        requires table { IsTable self.now.before.items self.now.nodes _paths.now }
        ensures run { IfSome result (λ run. take (run.1 - run.0) (drop run.0 _paths.now)
            ≡ rules_at start _paths.now) }
        ensures bounds { IfSome result (λ run.
            (run.0 ≤ run.1) × (run.1 ≤ length _paths.now)) }
    {
        match told(self.before.as_slice(), self.nodes, start) {
            Some(found) => Some(found),
            None => None,
        }
    }
}

/// Where the table tells that the paths of the start stand; None where it doesn't tell.
#[inline(always)]
fn told(before: &[u16], nodes: u32, start: Start) -> Option<(usize, usize)>
    ensures { IfSome result (λ run. IsTold before.now nodes start run.0 run.1) }
{
    if !has_place(start, nodes) {
        return None;
    }
    let place = place_in(start, nodes);
    let next = place + 1;
    let count = before.len();
    if next >= count {
        return None;
    }
    Some((before[place] as usize, before[next] as usize))
}

/// How many of the paths stand before those of each start, by the start's place; nothing where memory is refused.
fn counts_or_none(alloc: Global, paths: &StoredPaths<'_>, nodes: u32) -> Vec<u16>
    ensures { IsTable result.items nodes paths.now }
{
    match counts_of(alloc, paths, nodes) {
        Ok(before) => before,
        Err(_) => Vec::new(alloc),
    }
}

/// The same. It has nothing where the paths are too many for numbers of 16 bits, or aren't those of a file with so
/// many nodes in their order. The one error is want of memory.
fn counts_of(alloc: Global, paths: &StoredPaths<'_>, nodes: u32) -> Result<Vec<u16>, AllocError>
    ensures { IfOk result (λ before. IsTable before.items nodes paths.now) }
{
    let size = paths.len();
    let most = u16::MAX as usize;
    if size > most {
        return Ok(Vec::new(alloc));
    }
    match counts_begun(alloc, paths, nodes)? {
        Some(before) => counts_filled(alloc, paths, nodes, before),
        None => Ok(Vec::new(alloc)),
    }
}

/// The same up to the place of the last path's start; None where the paths aren't those of a file with so many
/// nodes in their order. The one error is want of memory.
fn counts_begun(
    alloc: Global,
    paths: &StoredPaths<'_>,
    nodes: u32,
) -> Result<Option<Vec<u16>>, AllocError>
    requires { length paths.now < 2 ^ 16 }
    ensures { IfOk result (λ begun. IfSome begun (λ before.
        AreTold before.items nodes (length paths.now) paths.now)) }
{
    let mut before = Vec::with_capacity(alloc, 2 * nodes as usize + 2)?;
    for i in 0..paths.len() {
        let start = paths.at(i).start();
        if !has_place(start, nodes) {
            return Ok(None);
        }
        let place = place_in(start, nodes);
        let next = place + 1;
        let count = before.len();
        if next < count {
            return Ok(None);
        }
        before.resize(next, i as u16)?;
    }
    Ok(Some(before))
}

/// The same with all places, of which those behind the last path's start have all paths before them.
fn counts_filled(
    alloc: Global,
    paths: &StoredPaths<'_>,
    nodes: u32,
    before: Vec<u16>,
) -> Result<Vec<u16>, AllocError>
    requires few { length paths.now < 2 ^ 16 }
    requires told { AreTold before.items nodes (length paths.now) paths.now }
    ensures { IfOk result (λ filled. IsTable filled.items nodes paths.now) }
{
    let places = 2 * nodes as usize + 2;
    let count = before.len();
    if places < count {
        return Ok(Vec::new(alloc));
    }
    let size = paths.len();
    let mut filled = before;
    filled.resize(places, size as u16)?;
    Ok(filled)
}

/// Whether the start has a place in the table of a file with so many nodes: whether it is one of file 0, at a node
/// that is there.
fn has_place(start: Start, nodes: u32) -> bool
    ensures { result ≡ has_place nodes start }
{
    match start {
        Start::Before(at) => has_node(at, nodes),
        Start::After(Spot::Root) => true,
        Start::After(Spot::At(at)) => has_node(at, nodes),
    }
}

/// Whether it is a node of file 0 that is there.
fn has_node(at: NodeAt, nodes: u32) -> bool
    ensures { result ≡ has_node nodes at }
{
    at.file == 0 && at.node < nodes
}

/// The place of a start in the table of a file with so many nodes: references by their nodes, then the root,
/// then the nodes that were entered.
fn place_in(start: Start, nodes: u32) -> usize
    ensures value { result ≡ place_in nodes start }
    ensures bound { result ≤ 2 * 2 ^ 32 }
{
    match start {
        Start::Before(at) => at.node as usize,
        Start::After(Spot::Root) => nodes as usize,
        Start::After(Spot::At(at)) => nodes as usize + 1 + at.node as usize,
    }
}

/// Where the paths of the start stand, found by halving. It is seldom called, and is called in two places so that it
/// stands apart and a look-up in the table is a few instructions where it is used.
#[cold]
#[inline(never)]
pub fn halved_run(paths: &StoredPaths<'_>, start: &Start) -> (usize, usize)
    requires { IsByStart paths.now }
    ensures run { take (result.1 - result.0) (drop result.0 paths.now)
        ≡ rules_at start.now paths.now }
    ensures bounds { (result.0 ≤ result.1) × (result.1 ≤ length paths.now) }
{
    let low = count_before(paths, *start);
    let many = count_at(&paths.between(low, paths.len()), *start);
    (low, low + many)
}

/// How many of the paths, which are in the order of their starts, begin before the start.
pub fn count_before(paths: &StoredPaths<'_>, start: Start) -> usize
    requires { IsByStart paths.now }
    ensures value { result ≡ prefix_len (is_before start) paths.now }
    ensures bound { result ≤ length paths.now }
{
    count_first(paths, |path| begins_before(path, start))
}

/// How many of the first paths begin there, of paths of which none begins there after one that doesn't.
fn count_at(paths: &StoredPaths<'_>, start: Start) -> usize
    requires { IsPartitionedBy (begins_at start) paths.now }
    ensures value { result ≡ prefix_len (begins_at start) paths.now }
    ensures bound { result ≤ length paths.now }
{
    count_first(paths, |path| begins_at(path, start))
}

/// Whether the path begins before the start, in the order of starts.
fn begins_before(path: &StoredPath<'_>, start: Start) -> bool
    ensures { result ≡ is_before start path.now }
{
    path.start() < start
}

/// Whether the path begins there.
fn begins_at(path: &StoredPath<'_>, start: Start) -> bool
    ensures { result ≡ begins_at start path.now }
{
    path.start() == start
}
