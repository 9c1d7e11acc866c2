use crate::slot::Slot;
use std::alloc::{AllocError, Global};
use std::marker::Model;
use std::sync::Arc;

/// How many paths a block may have.
pub(crate) const BLOCK_PATHS: usize = 64;

/// How many paths a block has when a long list is put in blocks.
pub(crate) const MADE_PATHS: usize = 32;

/// From 1 to `BLOCK_PATHS` paths of an index, held by all indexes that have just these. It never
/// changes. A contract sees the list of its paths.
#[derive(Drop)]
pub(crate) struct Block {
    slots: Arc<Vec<Slot>, Global>,
}

impl Model for Block {
    ghost use Rattle.std.specs.{Prelude.{List}, Arc.{arc_value}};
    ghost use Rattle.root_index.specs.{Roots.{RootPath}, Blocks.{IsBlock}};

    ghost Value = { List RootPath };

    ghost view = { λ b. (arc_value b.slots).items };

    ghost invariant = { λ b. IsBlock (arc_value b.slots).items };
}

impl Block {
    ghost use Rattle.std.specs.Prelude.{◌≡◌, ◌++◌, Some, IfOk, OnOk, slice_get};
    ghost use Rattle.root_index.specs.Blocks.{IsBlock};

    /// The block of these paths. The one error is want of memory.
    pub(crate) fn of(alloc: Global, slots: Vec<Slot>) -> Result<Block, AllocError>
        requires { IsBlock slots.items }
        ensures { IfOk result (λ block. block ≡ slots.items) }
    {
        Ok(Block {
            slots: Arc::new(alloc, slots)?,
        })
    }

    /// The same block once more, not copied. The one error is want of room to count one holder more.
    pub(crate) fn share(&self) -> Result<Block, AllocError>
        ensures { IfOk result (λ block. block ≡ self.now) }
    {
        Ok(Block {
            slots: Arc::try_clone(&self.slots)?,
        })
    }

    /// The block's paths.
    pub(crate) fn slots(&self) -> &[Slot]
        ensures slots { result.now ≡ self.now }
        ensures size { IsBlock self.now }
    {
        self.slots.as_slice()
    }

    /// The block's first path.
    pub(crate) fn first(&self) -> &Slot
        ensures { slice_get self.now 0 ≡ Some result.now }
    {
        &self.slots()[0]
    }

    /// The block's paths, for another block. The one error is want of memory.
    pub(crate) fn copied(&self, alloc: Global) -> Result<Vec<Slot>, AllocError>
        ensures { IfOk result (λ slots. slots.items ≡ self.now) }
    {
        let mut slots = Vec::new(alloc);
        slots.reserve(BLOCK_PATHS + 1)?;
        for slot in self.slots() {
            slots.push(slot.share()?)?;
        }
        Ok(slots)
    }

    /// Adds handles of the block's paths. The one error is want of memory.
    pub(crate) fn add_to(&self, slots: &mut Vec<Slot>) -> Result<(), AllocError>
        ensures { OnOk result (slots.new.items ≡ slots.old.items ++ self.now) }
    {
        for slot in self.slots() {
            slots.push(slot.share()?)?;
        }
        Ok(())
    }
}
