//! How blocks and paths stand to a path: which begin no higher, which stand at its rank.

ghost use Rattle.std.specs.{Prelude.{◌≡◌, ◌≤◌, ◌<◌, ◌+◌, nat_lt, true, length}, List.{prefix_len}, List.Sorted.{IsPartitionedBy}};
ghost use Rattle.root_index.specs.Blocks.{first_passes, is_tied, is_up_to};

use crate::block::Block;
use crate::slot::Slot;

/// How many of the blocks begin no higher than the path: in constant time where the block told is the last of
/// them, else by halving.
pub(crate) fn begun_near(blocks: &[Block], slot: &Slot, near: usize) -> usize
    requires { IsPartitionedBy (first_passes (is_up_to slot.now)) blocks.now }
    ensures value { result ≡ prefix_len (first_passes (is_up_to slot.now)) blocks.now }
    ensures bound { result ≤ length blocks.now }
{
    if !has_begun(blocks, slot, near) {
        return begun(blocks, slot);
    }
    if !has_begun(blocks, slot, near + 1) {
        return near + 1;
    }
    begun(blocks, slot)
}

/// Whether there is that block, and it begins no higher than the path.
fn has_begun(blocks: &[Block], slot: &Slot, block: usize) -> bool
    requires { IsPartitionedBy (first_passes (is_up_to slot.now)) blocks.now }
    ensures begun { result
        ≡ nat_lt block (prefix_len (first_passes (is_up_to slot.now)) blocks.now) }
    ensures there { result ≡ true → block < length blocks.now }
{
    block < blocks.len() && begins_up_to(&blocks[block], slot)
}

/// How many of the blocks begin no higher than the path, by halving.
fn begun(blocks: &[Block], slot: &Slot) -> usize
    requires { IsPartitionedBy (first_passes (is_up_to slot.now)) blocks.now }
    ensures value { result ≡ prefix_len (first_passes (is_up_to slot.now)) blocks.now }
    ensures bound { result ≤ length blocks.now }
{
    blocks.partition_point(|block| begins_up_to(block, slot))
}

/// Whether the block's first path stands no higher than the other.
fn begins_up_to(block: &Block, slot: &Slot) -> bool
    ensures { result ≡ first_passes (is_up_to slot.now) block.now }
{
    is_up_to(block.first(), slot)
}

/// How many of the paths, which are in order, stand no higher than this one, by halving.
pub(crate) fn paths_up_to(slots: &[Slot], slot: &Slot) -> usize
    requires { IsPartitionedBy (is_up_to slot.now) slots.now }
    ensures value { result ≡ prefix_len (is_up_to slot.now) slots.now }
    ensures bound { result ≤ length slots.now }
{
    slots.partition_point(|other| is_up_to(other, slot))
}

/// Whether the first path stands no higher than the second.
pub(crate) fn is_up_to(other: &Slot, slot: &Slot) -> bool
    ensures { result ≡ is_up_to slot.now other.now }
{
    other.order(slot).is_le()
}

/// Whether the two paths stand at one rank.
pub(crate) fn is_tied(other: &Slot, slot: &Slot) -> bool
    ensures { result ≡ is_tied slot.now other.now }
{
    other.order(slot).is_eq()
}
