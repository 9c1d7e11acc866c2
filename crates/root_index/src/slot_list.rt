ghost use Rattle.std.specs.{Prelude.{◌≡◌, ◌<◌, ◌≤◌, List, nat_lt, true, length, take}, List.{prefix_len}, List.Sorted.{IsPartitionedBy}};
ghost use Rattle.partial_path.specs.Keys.{key_size, texts};
ghost use Rattle.root_index.specs.{Blocks.{AreStarts, IsAmong, IsPlaceIn, all_paths, begins_by, first_passes}, Inside.{is_before_key}, Roots.{RootPath}};

use crate::block::{Block, MADE_PATHS};
use crate::blocks::Blocks;
use crate::slot::Slot;
use stacks_vars::LentStack;
use std::alloc::{AllocError, Global};
use std::marker::Model;

/// Paths in blocks that indexes share, with the place at which each block begins. A contract sees the list
/// of all paths.
#[derive(Drop)]
pub(crate) struct SlotList {
    blocks: Blocks,
    starts: Vec<usize>,
    count: usize,
}

impl Model for SlotList {
    ghost use Rattle.std.specs.Prelude.{◌≡◌, ◌<◌, ◌^◌, List, length};
    ghost use Rattle.root_index.specs.{Roots.{RootPath}, Blocks.{AreStarts, all_paths}};

    ghost Value = { List RootPath };

    ghost view = { λ s. all_paths s.blocks };

    ghost invariant = { λ s. AreStarts s.starts.items s.blocks
        × (s.count ≡ length (all_paths s.blocks)) × (length (all_paths s.blocks) < 2 ^ 64) };
}

impl SlotList {
    ghost use Rattle.std.specs.{Prelude.{◌≡◌, ◌<◌, ◌≤◌, length, take, slice_get, Some, IfOk}, List.{prefix_len}, List.Sorted.{IsPartitionedBy}};
    ghost use Rattle.partial_path.specs.Keys.{key_size, texts};
    ghost use Rattle.root_index.specs.{Blocks.{all_paths}, Inside.{is_before_key}};

    /// The paths of these blocks. The one error is want of memory.
    pub(crate) fn of(alloc: Global, blocks: Blocks) -> Result<SlotList, AllocError>
        ensures { IfOk result (λ slots. slots ≡ all_paths blocks) }
    {
        let (starts, count) = blocks.starts(alloc)?;
        Ok(SlotList {
            blocks,
            starts,
            count,
        })
    }

    /// The blocks that hold the paths.
    pub(crate) fn blocks(&self) -> &Blocks
        ensures { all_paths result.now ≡ self.now }
    {
        &self.blocks
    }

    /// How many paths there are.
    pub(crate) fn len(&self) -> usize
        ensures { result ≡ length self.now }
    {
        self.count
    }

    /// The blocks, which held the paths.
    pub(crate) fn into_blocks(self) -> Blocks
        ensures { all_paths result ≡ self }
    {
        let SlotList { blocks, .. } = self;
        blocks
    }

    /// The first path.
    pub(crate) fn first(&self) -> &Slot
        requires { 0 < length self.now }
        ensures { slice_get self.now 0 ≡ Some result.now }
    {
        self.blocks.blocks()[0].first()
    }

    /// The path at that place. It takes constant time where no block was changed since they were made of a list, else
    /// time that follows the logarithm of the number of blocks.
    pub(crate) fn at(&self, place: usize) -> &Slot
        requires { place < length self.now }
        ensures { slice_get self.now place ≡ Some result.now }
    {
        // Blocks that are made of a list have so many paths each, and the first one at most twice as many.
        let near = (place / MADE_PATHS).saturating_sub(1);
        let (block, inside) = place_among(self.starts.as_slice(), place, near);
        &self.blocks.blocks()[block].slots()[inside]
    }

    /// How many paths seem to stand before the key with these heads.
    /// It is found by halving over heads alone, and may be wrong where long texts have one head.
    pub(crate) fn told(&self, wanted: &[u64; 6]) -> usize {
        let blocks = self.blocks.blocks();
        let found = blocks_told(blocks, wanted);
        if found == 0 {
            return 0;
        }
        let block = found - 1;
        self.starts[block].saturating_add(paths_told(blocks[block].slots(), wanted))
    }

    /// How many paths stand before the key that the texts of the stack's first symbols make, so many of
    /// them. They are found by halving.
    pub(crate) fn end_of(&self, symbols: &LentStack<'_>, count: usize) -> usize
        requires parted { IsPartitionedBy (is_before_key (take count (texts symbols.now))) self.now }
        requires count { count ≤ key_size }
        ensures value { result
            ≡ prefix_len (is_before_key (take count (texts symbols.now))) self.now }
        ensures bound { result ≤ length self.now }
    {
        let blocks = self.blocks.blocks();
        let found = blocks_within(blocks, symbols, count);
        if found == 0 {
            return 0;
        }
        let block = found - 1;
        self.starts[block] + paths_within(blocks[block].slots(), symbols, count)
    }
}

/// The number of the block, or group of them, that has the path at the place, and the path's place in it: in constant
/// time where that is the one told or the next one, else by halving.
pub(crate) fn place_among(starts: &[usize], place: usize, near: usize) -> (usize, usize)
    requires { IsAmong starts.now place }
    ensures { (blocks : List (List RootPath)) → AreStarts starts.now blocks
        → place < length (all_paths blocks) → IsPlaceIn blocks place result.0 result.1 }
{
    let block = blocks_near(starts, place, near) - 1;
    (block, place - starts[block])
}

/// How many blocks, or groups of them, begin no later than at the place: in constant time where the one told, or
/// the next one, is the last of them, else by halving.
fn blocks_near(starts: &[usize], place: usize, near: usize) -> usize
    requires { IsPartitionedBy (begins_by place) starts.now }
    ensures value { result ≡ prefix_len (begins_by place) starts.now }
    ensures bound { result ≤ length starts.now }
{
    if !has_begun(starts, place, near) {
        return blocks_begun(starts, place);
    }
    if !has_begun(starts, place, near + 1) {
        return near + 1;
    }
    if !has_begun(starts, place, near + 2) {
        return near + 2;
    }
    blocks_begun(starts, place)
}

/// Whether there is that block, and it begins no later than at the place.
fn has_begun(starts: &[usize], place: usize, block: usize) -> bool
    requires { IsPartitionedBy (begins_by place) starts.now }
    ensures begun { result ≡ nat_lt block (prefix_len (begins_by place) starts.now) }
    ensures there { result ≡ true → block < length starts.now }
{
    block < starts.len() && starts[block] <= place
}

/// How many blocks begin no later than at the place, by halving over the places at which they begin.
fn blocks_begun(starts: &[usize], place: usize) -> usize
    requires { IsPartitionedBy (begins_by place) starts.now }
    ensures value { result ≡ prefix_len (begins_by place) starts.now }
    ensures bound { result ≤ length starts.now }
{
    starts.partition_point(|start| *start <= place)
}

/// How many blocks begin within the key, by halving.
fn blocks_within(blocks: &[Block], symbols: &LentStack<'_>, count: usize) -> usize
    requires parted { IsPartitionedBy (first_passes
        (is_before_key (take count (texts symbols.now)))) blocks.now }
    requires count { count ≤ key_size }
    ensures value { result
        ≡ prefix_len (first_passes (is_before_key (take count (texts symbols.now)))) blocks.now }
    ensures bound { result ≤ length blocks.now }
{
    blocks.partition_point(|block| begins_within(block, symbols, count))
}

/// How many of the paths stand within the key, by halving.
fn paths_within(slots: &[Slot], symbols: &LentStack<'_>, count: usize) -> usize
    requires parted { IsPartitionedBy (is_before_key (take count (texts symbols.now))) slots.now }
    requires count { count ≤ key_size }
    ensures value { result
        ≡ prefix_len (is_before_key (take count (texts symbols.now))) slots.now }
    ensures bound { result ≤ length slots.now }
{
    slots.partition_point(|slot| is_before_key(slot, symbols, count))
}

/// How many blocks seem to begin within the key with these heads, by halving.
fn blocks_told(blocks: &[Block], wanted: &[u64; 6]) -> usize
    ensures { result ≤ length blocks.now }
{
    blocks.partition_point(|block| block.first().seems_before(wanted))
}

/// How many of the paths seem to stand within the key with these heads, by halving.
fn paths_told(slots: &[Slot], wanted: &[u64; 6]) -> usize {
    slots.partition_point(|slot| slot.seems_before(wanted))
}

/// Whether the block's first path stands within the key.
fn begins_within(block: &Block, symbols: &LentStack<'_>, count: usize) -> bool
    requires { count ≤ key_size }
    ensures { result
        ≡ first_passes (is_before_key (take count (texts symbols.now))) block.now }
{
    is_before_key(block.first(), symbols, count)
}

/// Whether the path stands before the key that the texts of the stack's first symbols make, so many of them.
pub(crate) fn is_before_key(slot: &Slot, symbols: &LentStack<'_>, count: usize) -> bool
    requires { count ≤ key_size }
    ensures { result ≡ is_before_key (take count (texts symbols.now)) slot.now }
{
    slot.key_side(symbols, count).is_lt()
}
