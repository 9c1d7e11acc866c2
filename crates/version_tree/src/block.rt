use crate::sorted_rows::SortedRows;
use grants::Grants;
use std::alloc::{AllocError, Global};
use std::cmp::Ordering;
use std::marker::Model;
use std::sync::Arc;

/// How many rows a block may have.
pub(crate) const BLOCK_ROWS: usize = 64;

/// From 1 to `BLOCK_ROWS` rows in the order of their paths, held by all versions that have just
/// these. It never changes. A contract sees the list of its rows.
#[derive(Drop)]
pub(crate) struct Block {
    rows: Arc<SortedRows, Global>,
}

impl Model for Block {
    ghost use Rattle.std.specs.{Prelude.{List}, Arc.{arc_value}};
    ghost use Rattle.version_tree.specs.{Blocks.{IsBlock}, Contents.{FileRow}};

    ghost Value = { List FileRow };

    ghost view = { λ b. arc_value b.rows };

    ghost invariant = { λ b. IsBlock (arc_value b.rows) };
}

impl Block {
    ghost use Rattle.std.specs.{Prelude.{◌≡◌, [], IfOk}, Option.{option_map_or}};
    ghost use Rattle.version_tree.specs.{Blocks.{IsBlock, first_beside}, Contents.{covered}};

    /// The block of these rows. The one error is want of memory.
    pub(crate) fn of(alloc: Global, rows: SortedRows) -> Result<Block, AllocError>
        requires { IsBlock rows }
        ensures { IfOk result (λ block. block ≡ rows) }
    {
        Ok(Block {
            rows: Arc::new(alloc, rows)?,
        })
    }

    /// The same block once more, not copied. The one error is want of room to count one holder more.
    pub(crate) fn share(&self) -> Result<Block, AllocError>
        ensures { IfOk result (λ block. block ≡ self.now) }
    {
        Ok(Block {
            rows: Arc::try_clone(&self.rows)?,
        })
    }

    /// The block's rows.
    pub(crate) fn rows(&self) -> &SortedRows
        ensures rows { result.now ≡ self.now }
        ensures size { IsBlock self.now }
    {
        &self.rows
    }

    /// Those of the rows that the user may see, in a block: the same block where that is all of them, and None where it is
    /// none. The one error is want of memory.
    pub(crate) fn seen(
        &self,
        alloc: Global,
        grants: &Grants,
        user: &str,
    ) -> Result<Option<Block>, AllocError>
        ensures { IfOk result (λ seen. option_map_or (λ block. block) seen []
            ≡ covered grants.now user.now self.now) }
    {
        let rows = self.rows();
        if rows.are_covered(grants, user) {
            return Ok(Some(self.share()?));
        }
        let mut kept = Vec::new(alloc);
        rows.grant(grants, user, &mut kept)?;
        if kept.is_empty() {
            return Ok(None);
        }
        Ok(Some(Block::of(alloc, SortedRows::of(kept))?))
    }

    /// Where the block's first row stands in the order of paths, beside this path.
    pub(crate) fn order(&self, path: &str) -> Ordering
        ensures { result ≡ first_beside path.now self.now }
    {
        self.rows.row(0).order(path)
    }
}
