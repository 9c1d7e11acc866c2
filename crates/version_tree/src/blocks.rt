ghost use Rattle.std.specs.{Prelude.{◌≡◌, ◌<◌, ◌≤◌, ◌+◌, ◌++◌, length, take, drop, IfOk, OnOk}, List.{AllByRecursion}};
ghost use Rattle.version_tree.specs.{Blocks.{IsBlock, all_rows}, Limits.{block_rows}};

use crate::block::{BLOCK_ROWS, Block};
use crate::row_handle::RowHandle;
use crate::sorted_rows::SortedRows;
use grants::Grants;
use std::alloc::{AllocError, Global};
use std::marker::Model;

/// Rows in the order of their paths, in blocks that versions share: a change copies the handles of
/// one block, and no other row. Blocks that have become small are not joined. A contract sees the
/// list of the blocks.
#[derive(Drop)]
pub(crate) struct Blocks {
    blocks: Vec<Block>,
    // How many rows the blocks have together.
    count: usize,
}

impl Model for Blocks {
    ghost use Rattle.std.specs.Prelude.{◌≡◌, List, length};
    ghost use Rattle.version_tree.specs.{Contents.{FileRow}, Blocks.{AreBlocks, all_rows}};

    ghost Value = { List (List FileRow) };

    ghost view = { λ b. b.blocks.items };

    ghost invariant = { λ b. AreBlocks b.blocks.items
        × (b.count ≡ length (all_rows b.blocks.items)) };
}

impl Blocks {
    ghost use Rattle.std.specs.Prelude.{◌≡◌, ◌<◌, ◌≤◌, ◌+◌, ◌++◌, [], length, take, drop, slice_get, IfOk, IfErr, MatchOption, Some, false, option_copied};
    ghost use Rattle.partial_path.specs.PathSets.{FileRules};
    ghost use Rattle.version_tree.specs.{Contents.{AreRows, IsInOrder, has_path, with_row, without_row, covered}, Verdict.{weight_of}, Places.{IsRowWith}, Views.{path_at}, Blocks.{AreBlocks, IsBlockFor, all_rows, first_beside}, Limits.{block_rows}};
    ghost use Rattle.list_facts.specs.Places.{IsAt, IsGapFor};

    /// No blocks. It takes no memory.
    pub(crate) fn new(alloc: Global) -> Blocks
        ensures { result ≡ [] }
    {
        Blocks {
            blocks: Vec::new(alloc),
            count: 0,
        }
    }

    /// How many rows there are.
    pub(crate) fn len(&self) -> usize
        ensures count { result ≡ length (all_rows self.now) }
        ensures rows { AreRows (all_rows self.now) }
    {
        self.count
    }

    /// The row at that place among all rows; None past the last. It goes over the blocks.
    pub(crate) fn row(&self, place: usize) -> Option<&RowHandle>
        ensures { option_copied result ≡ slice_get (all_rows self.now) place }
    {
        let mut left = place;
        for block in &self.blocks {
            let rows = block.rows();
            if left < rows.len() {
                return Some(rows.row(left));
            }
            left -= rows.len();
        }
        None
    }

    /// The row with the path, by halving; None where there is none.
    pub(crate) fn row_with(&self, path: &str) -> Option<&RowHandle>
        ensures row { MatchOption result (has_path path.now (all_rows self.now) ≡ false)
            (λ row. IsRowWith path.now (all_rows self.now) row.now) }
        ensures rows { AreRows (all_rows self.now) }
    {
        match self.place(path) {
            Some(i) => self.blocks[i].rows().row_with(path),
            None => None,
        }
    }

    // The block that begins with the path, or how many blocks begin with a lower one, by halving.
    fn find(&self, path: &str) -> Result<usize, usize>
        ensures found { IfOk result (IsAt (first_beside path.now) self.now) }
        ensures absent { IfErr result (IsGapFor (first_beside path.now) self.now) }
        ensures blocks { AreBlocks self.now }
    {
        self.blocks.binary_search_by(|block| block.order(path))
    }

    // The block that a row with the path is in, where there is one, or would go to; `None` where
    // there is no block.
    fn place(&self, path: &str) -> Option<usize>
        ensures { MatchOption result (self.now ≡ []) (IsBlockFor path.now self.now) }
    {
        if self.blocks.is_empty() {
            return None;
        }
        match self.find(path) {
            Ok(i) => Some(i),
            Err(i) => Some(i.saturating_sub(1)),
        }
    }

    /// Whether a row has the path, by halving.
    pub(crate) fn has(&self, path: &str) -> bool
        ensures { result ≡ has_path path.now (all_rows self.now) }
    {
        match self.place(path) {
            Some(i) => self.blocks[i].rows().has(path),
            None => false,
        }
    }

    /// The weight of the row with the path, 0 where there is none.
    pub(crate) fn weight_at(&self, path: &str) -> u64
        ensures without { result + weight_of (without_row path.now (all_rows self.now))
            ≡ weight_of (all_rows self.now) }
        ensures with { (file : FileRules)
            → result + weight_of (with_row path.now file (all_rows self.now))
            ≡ weight_of (all_rows self.now) + file.weight }
    {
        match self.place(path) {
            Some(i) => self.blocks[i].rows().weight_at(path),
            None => 0,
        }
    }

    /// The same blocks once more, not copied. The one error is want of memory.
    pub(crate) fn share(&self, alloc: Global) -> Result<Blocks, AllocError>
        ensures { IfOk result (λ blocks. blocks ≡ self.now) }
    {
        let mut blocks = Vec::new(alloc);
        for block in &self.blocks {
            blocks.push(block.share()?)?;
        }
        Ok(Blocks {
            blocks,
            count: self.count,
        })
    }

    /// These rows with this one, in place of one with its path: one block is copied, and split in
    /// two halves where it has become too large. The one error is want of memory; more rows than 64
    /// bits can count are told as such.
    pub(crate) fn with(self, alloc: Global, row: RowHandle) -> Result<Blocks, AllocError>
        ensures { IfOk result (λ after. all_rows after
            ≡ with_row row.path row.file (all_rows self)) }
    {
        let Some(i) = self.place(row.path()) else {
            return Blocks::of_one(alloc, row);
        };
        let mut rows = self.blocks[i].rows().share(alloc)?;
        rows.put(row)?;
        self.replaced(alloc, i, rows)
    }

    /// These rows without the one with the path, where there is one: one block is copied, and left
    /// out where it has become empty. The one error is want of memory.
    pub(crate) fn without(self, alloc: Global, path: &str) -> Result<Blocks, AllocError>
        ensures { IfOk result (λ after. all_rows after ≡ without_row path.now (all_rows self)) }
    {
        let Some(i) = self.place(path) else {
            return Ok(self);
        };
        let mut rows = self.blocks[i].rows().share(alloc)?;
        rows.remove(path);
        self.replaced(alloc, i, rows)
    }

    // One block of one row.
    fn of_one(alloc: Global, row: RowHandle) -> Result<Blocks, AllocError>
        ensures { IfOk result (λ after. all_rows after ≡ with_row row.path row.file []) }
    {
        let mut rows = SortedRows::new(alloc);
        rows.put(row)?;
        let count = rows.len();
        Ok(Blocks {
            blocks: in_blocks(alloc, rows)?,
            count,
        })
    }

    // These rows with those in place of the rows of the block at the place.
    fn replaced(self, alloc: Global, i: usize, rows: SortedRows) -> Result<Blocks, AllocError>
        requires in_range { i < length self }
        requires few { length rows ≤ block_rows + 1 }
        requires order { IsInOrder (all_rows (take i self)
            ++ (rows ++ all_rows (drop (i + 1) self))) }
        ensures { IfOk result (λ after. all_rows after
            ≡ all_rows (take i self) ++ (rows ++ all_rows (drop (i + 1) self))) }
    {
        let Blocks { mut blocks, count } = self;
        let left = count - blocks[i].rows().len();
        let count = left.checked_add(rows.len()).ok_or(AllocError)?;
        let parts = in_blocks(alloc, rows)?;
        replace(&mut blocks, i, parts)?;
        Ok(Blocks { blocks, count })
    }

    /// Those of the rows that the user may see, in blocks: a block of which all are seen is shared. The one error is want
    /// of memory; more rows than 64 bits can count are told as such.
    pub(crate) fn seen(
        &self,
        alloc: Global,
        grants: &Grants,
        user: &str,
    ) -> Result<Blocks, AllocError>
        ensures { IfOk result (λ seen. all_rows seen
            ≡ covered grants.now user.now (all_rows self.now)) }
    {
        let mut blocks = Vec::new(alloc);
        let mut count = 0;
        for block in &self.blocks {
            if let Some(seen) = block.seen(alloc, grants, user)? {
                count = seen.rows().len().checked_add(count).ok_or(AllocError)?;
                blocks.push(seen)?;
            }
        }
        Ok(Blocks { blocks, count })
    }

    /// How many blocks there are.
    pub(crate) fn block_count(&self) -> usize
        ensures count { result ≡ length self.now }
        ensures few { length self.now ≤ length (all_rows self.now) }
    {
        self.blocks.len()
    }

    /// The rows of the block of that number.
    pub(crate) fn block(&self, i: usize) -> &SortedRows
        requires { i < length self.now }
        ensures rows { slice_get self.now i ≡ Some result.now }
        ensures few { length result.now ≤ block_rows }
    {
        self.blocks[i].rows()
    }

    /// The number of the block in which a row with the path stands, and its place there, by halving; None where there is
    /// none.
    pub(crate) fn place_of(&self, path: &str) -> Option<(usize, usize)>
        ensures { MatchOption result (has_path path.now (all_rows self.now) ≡ false)
            (λ at. (at.0 < length self.now) × (path_at (all_rows self.now)
            (length (all_rows (take at.0 self.now)) + at.1) ≡ Some path.now)) }
    {
        let block = self.place(path)?;
        match self.blocks[block].rows().find(path) {
            Ok(row) => Some((block, row)),
            Err(_) => None,
        }
    }
}

// These rows in blocks: none, one, or two halves where they are too many for one.
fn in_blocks(alloc: Global, rows: SortedRows) -> Result<Vec<Block>, AllocError>
    requires { length rows ≤ block_rows + 1 }
    ensures rows { IfOk result (λ blocks. all_rows blocks.items ≡ rows) }
    ensures sizes { IfOk result (λ blocks. AllByRecursion IsBlock blocks.items) }
{
    let mut blocks = Vec::new(alloc);
    if rows.len() == 0 {
        return Ok(blocks);
    }
    if rows.len() <= BLOCK_ROWS {
        blocks.push(Block::of(alloc, rows)?)?;
        return Ok(blocks);
    }
    let (lower, upper) = rows.split_at(BLOCK_ROWS / 2)?;
    blocks.push(Block::of(alloc, lower)?)?;
    blocks.push(Block::of(alloc, upper)?)?;
    Ok(blocks)
}

// Puts the parts in place of the block at the place. The one error is want of memory.
fn replace(blocks: &mut Vec<Block>, i: usize, mut parts: Vec<Block>) -> Result<(), AllocError>
    requires { i < length blocks.old.items }
    ensures { OnOk result (blocks.new.items ≡ take i blocks.old.items
        ++ (parts.items ++ drop (i + 1) blocks.old.items)) }
{
    let mut after = blocks.split_off(i + 1)?;
    blocks.truncate(i);
    blocks.append(&mut parts)?;
    blocks.append(&mut after)?;
    Ok(())
}
