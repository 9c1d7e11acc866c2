ghost use Rattle.std.specs.Prelude.{◌≡◌, ◌<◌, ◌+◌, ◌++◌, length, take, drop, IfOk, OnOk, All};
ghost use Rattle.root_index.specs.Blocks.{IsBlock, all_paths};

use crate::block::{BLOCK_PATHS, Block, MADE_PATHS};
use crate::halving::{begun_near, is_tied, paths_up_to};
use crate::slot::Slot;
use std::alloc::{AllocError, Global};
use std::marker::Model;

/// Paths in blocks that indexes share: a change copies the handles of one block, and no other path.
/// Blocks that have become small are not joined. A contract sees the list of the blocks.
#[derive(Drop)]
pub(crate) struct Blocks {
    blocks: Vec<Block>,
    // The block that was changed last, where the next place is looked for first; at first there is none.
    near: usize,
}

impl Model for Blocks {
    ghost use Rattle.std.specs.Prelude.{List, All};
    ghost use Rattle.root_index.specs.{Roots.{RootPath}, Blocks.{IsBlock}};

    ghost Value = { List (List RootPath) };

    ghost view = { λ b. b.blocks.items };

    ghost invariant = { λ b. All IsBlock b.blocks.items };
}

impl Blocks {
    ghost use Rattle.std.specs.{Prelude.{◌≡◌, ◌<◌, ◌≤◌, ◌+◌, ◌++◌, [], ◌∷◌, length, take, drop, not, slice_get, Some, IfOk, OnOk, MatchOption, All}, List.{filter, prefix_len, insert}, List.Sorted.{IsPartitionedBy}};
    ghost use Rattle.root_index.specs.{Roots.{AreByRank}, Blocks.{IsBlock, IsEndOf, IsStrict, AreStarts, all_paths, first_passes, is_up_to, is_tied}};

    /// No blocks. It takes no memory.
    pub(crate) fn new(alloc: Global) -> Blocks
        ensures { result ≡ [] }
    {
        Blocks {
            blocks: Vec::new(alloc),
            near: 0,
        }
    }

    /// These paths in blocks. The one error is want of memory.
    pub(crate) fn of(alloc: Global, slots: Vec<Slot>) -> Result<Blocks, AllocError>
        ensures { IfOk result (λ blocks. all_paths blocks ≡ slots.items) }
    {
        let blocks = in_blocks(alloc, slots)?;
        let near = blocks.len();
        Ok(Blocks { blocks, near })
    }

    /// The same blocks once more, not copied. The one error is want of memory.
    pub(crate) fn share(&self, alloc: Global) -> Result<Blocks, AllocError>
        ensures { IfOk result (λ blocks. blocks ≡ self.now) }
    {
        let mut blocks = Vec::new(alloc);
        let near = self.blocks.len();
        blocks.reserve(near)?;
        for block in &self.blocks {
            blocks.push(block.share()?)?;
        }
        Ok(Blocks { blocks, near })
    }

    /// How many blocks there are.
    pub(crate) fn len(&self) -> usize
        ensures count { result ≡ length self.now }
        ensures some { 0 < length self.now → 0 < length (all_paths self.now) }
        ensures none { length self.now ≡ 0 → all_paths self.now ≡ [] }
    {
        self.blocks.len()
    }

    /// The first blocks, so many, and the others, of which there is one. The one error is want of memory.
    pub(crate) fn cut(self, at: usize) -> Result<(Blocks, Blocks), AllocError>
        requires { at < length self }
        ensures paths { IfOk result (λ parts. all_paths parts.0 ++ all_paths parts.1
            ≡ all_paths self) }
        ensures count { IfOk result (λ parts. length parts.0 ≡ at) }
        ensures some { IfOk result (λ parts. 0 < length (all_paths parts.1)) }
    {
        let Blocks { mut blocks, near } = self;
        let last = blocks.split_off(at)?;
        let rest = Blocks { blocks, near };
        let end = last.len();
        Ok((
            rest,
            Blocks {
                blocks: last,
                near: end,
            },
        ))
    }

    /// The blocks.
    pub(crate) fn blocks(&self) -> &[Block]
        ensures blocks { result.now ≡ self.now }
        ensures sizes { All IsBlock self.now }
    {
        self.blocks.as_slice()
    }

    /// Adds handles of all paths. The one error is want of memory.
    pub(crate) fn add_to(&self, slots: &mut Vec<Slot>) -> Result<(), AllocError>
        ensures { OnOk result (slots.new.items ≡ slots.old.items ++ all_paths self.now) }
    {
        for block in &self.blocks {
            block.add_to(slots)?;
        }
        Ok(())
    }

    /// At which place among all paths each block begins, and how many paths there are. The one error is
    /// want of memory; more paths than 64 bits can count are told as such.
    pub(crate) fn starts(&self, alloc: Global) -> Result<(Vec<usize>, usize), AllocError>
        ensures starts { IfOk result (λ found. AreStarts found.0.items self.now) }
        ensures count { IfOk result (λ found. found.1 ≡ length (all_paths self.now)) }
    {
        let mut starts = Vec::new(alloc);
        starts.reserve(self.blocks.len())?;
        let mut count: usize = 0;
        for block in &self.blocks {
            starts.push(count)?;
            count = count.checked_add(block.slots().len()).ok_or(AllocError)?;
        }
        Ok((starts, count))
    }

    /// How many blocks begin no higher than the path: in constant time where the one that was changed last is
    /// the last of them, else by halving.
    fn blocks_up_to(&self, slot: &Slot) -> usize
        requires { AreByRank (all_paths self.now) }
        ensures value { result ≡ prefix_len (first_passes (is_up_to slot.now)) self.now }
        ensures bound { result ≤ length self.now }
        ensures sizes { All IsBlock self.now }
    {
        begun_near(self.blocks.as_slice(), slot, self.near)
    }

    /// The place behind those paths that stand no higher than this one, by halving; None where there are none.
    fn place_of(&self, slot: &Slot) -> Option<(usize, usize)>
        requires { AreByRank (all_paths self.now) }
        ensures { MatchOption result (prefix_len (is_up_to slot.now) (all_paths self.now) ≡ 0)
            (λ found. IsEndOf (is_up_to slot.now) self.now found.0 found.1 × (0 < found.1)) }
    {
        let count = self.blocks_up_to(slot);
        if count == 0 {
            return None;
        }
        let block = count - 1;
        Some((block, paths_up_to(self.blocks[block].slots(), slot)))
    }

    /// The same place in the first block, where there are none; there is a block.
    fn place_for(&self, slot: &Slot) -> (usize, usize)
        requires order { AreByRank (all_paths self.now) }
        requires some { 0 < length self.now }
        ensures { IsEndOf (is_up_to slot.now) self.now result.0 result.1 }
    {
        match self.place_of(slot) {
            Some(found) => found,
            None => (0, 0),
        }
    }

    /// These paths with this one, behind all that stand no higher: one block is copied, and split where it
    /// has become too large. The one error is want of memory.
    pub(crate) fn with(self, alloc: Global, slot: Slot) -> Result<Blocks, AllocError>
        requires { AreByRank (all_paths self) }
        ensures { IfOk result (λ after. all_paths after
            ≡ insert (all_paths self) (prefix_len (is_up_to slot) (all_paths self)) slot) }
    {
        if self.blocks.is_empty() {
            return Blocks::of_one(alloc, slot);
        }
        let (block, place) = self.place_for(&slot);
        let mut slots = self.blocks[block].copied(alloc)?;
        slots.insert(place, slot)?;
        self.replaced(alloc, block, slots)
    }

    /// These paths without the one that stands at the same rank, where there is one: one block is copied,
    /// and left out where it has become empty. The one error is want of memory.
    pub(crate) fn without(self, alloc: Global, slot: &Slot) -> Result<Blocks, AllocError>
        requires order { AreByRank (all_paths self) }
        requires strict { IsStrict (all_paths self) }
        ensures { IfOk result (λ after. all_paths after ≡ filter
            (λ q. not (is_tied slot.now q)) (all_paths self)) }
    {
        let Some((block, place)) = self.place_of(slot) else {
            return Ok(self);
        };
        let last = place - 1;
        if !is_tied(&self.blocks[block].slots()[last], slot) {
            return Ok(self);
        }
        let mut slots = self.blocks[block].copied(alloc)?;
        slots.remove(last);
        self.replaced(alloc, block, slots)
    }

    /// One block of one path.
    fn of_one(alloc: Global, slot: Slot) -> Result<Blocks, AllocError>
        ensures { IfOk result (λ after. all_paths after ≡ slot ∷ []) }
    {
        let mut slots = Vec::new(alloc);
        slots.push(slot)?;
        Blocks::of(alloc, slots)
    }

    /// These paths with those in place of the paths of the block at the place.
    fn replaced(self, alloc: Global, i: usize, slots: Vec<Slot>) -> Result<Blocks, AllocError>
        requires { i < length self }
        ensures { IfOk result (λ after. all_paths after
            ≡ all_paths (take i self) ++ (slots.items ++ all_paths (drop (i + 1) self))) }
    {
        let Blocks { mut blocks, .. } = self;
        let parts = in_blocks(alloc, slots)?;
        replace(&mut blocks, i, parts)?;
        Ok(Blocks { blocks, near: i })
    }
}

/// These paths in blocks: none, one, or more where they are too many for one.
fn in_blocks(alloc: Global, slots: Vec<Slot>) -> Result<Vec<Block>, AllocError>
    ensures paths { IfOk result (λ blocks. all_paths blocks.items ≡ slots.items) }
    ensures sizes { IfOk result (λ blocks. All IsBlock blocks.items) }
{
    let mut slots = slots;
    let mut blocks = Vec::new(alloc);
    while slots.len() > BLOCK_PATHS {
        let last = slots.split_off(slots.len() - MADE_PATHS)?;
        blocks.push(Block::of(alloc, last)?)?;
    }
    if slots.len() > 0 {
        blocks.push(Block::of(alloc, slots)?)?;
    }
    blocks.reverse();
    Ok(blocks)
}

/// Puts the parts in place of the block at the place. The one error is want of memory.
fn replace(blocks: &mut Vec<Block>, i: usize, mut parts: Vec<Block>) -> Result<(), AllocError>
    requires { i < length blocks.old.items }
    ensures { OnOk result (blocks.new.items ≡ take i blocks.old.items
        ++ (parts.items ++ drop (i + 1) blocks.old.items)) }
{
    if parts.len() == 1 {
        blocks[i] = parts.remove(0);
        return Ok(());
    }
    let mut after = blocks.split_off(i + 1)?;
    blocks.truncate(i);
    blocks.append(&mut parts)?;
    blocks.append(&mut after)?;
    Ok(())
}
