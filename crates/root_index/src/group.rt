use crate::blocks::Blocks;
use crate::slot::Slot;
use crate::slot_list::SlotList;
use std::alloc::{AllocError, Global};
use std::marker::Model;
use std::sync::Arc;

/// Paths of an index in blocks, at least one path, held by all indexes that have just these. It never changes. A
/// contract sees the list of its paths.
#[derive(Drop)]
pub(crate) struct Group {
    slots: Arc<SlotList, Global>,
}

impl Model for Group {
    ghost use Rattle.std.specs.{Prelude.{List}, Arc.{arc_value}};
    ghost use Rattle.root_index.specs.{Roots.{RootPath}, Groups.{IsGroup}};

    ghost Value = { List RootPath };

    ghost view = { λ g. arc_value g.slots };

    ghost invariant = { λ g. IsGroup (arc_value g.slots) };
}

impl Group {
    ghost use Rattle.std.specs.Prelude.{◌≡◌, ◌++◌, Some, IfOk, OnOk, slice_get};
    ghost use Rattle.root_index.specs.{Blocks.{all_paths}, Groups.{IsGroup}};

    /// The group of these paths. The one error is want of memory.
    pub(crate) fn of(alloc: Global, blocks: Blocks) -> Result<Group, AllocError>
        requires { IsGroup (all_paths blocks) }
        ensures { IfOk result (λ group. group ≡ all_paths blocks) }
    {
        let slots = SlotList::of(alloc, blocks)?;
        Ok(Group {
            slots: Arc::new(alloc, slots)?,
        })
    }

    /// The same group once more, not copied. The one error is want of room to count one holder more.
    pub(crate) fn share(&self) -> Result<Group, AllocError>
        ensures { IfOk result (λ group. group ≡ self.now) }
    {
        Ok(Group {
            slots: Arc::try_clone(&self.slots)?,
        })
    }

    /// The group's paths.
    pub(crate) fn slots(&self) -> &SlotList
        ensures slots { result.now ≡ self.now }
        ensures size { IsGroup self.now }
    {
        &self.slots
    }

    /// The group's first path.
    pub(crate) fn first(&self) -> &Slot
        ensures { slice_get self.now 0 ≡ Some result.now }
    {
        self.slots().first()
    }

    /// Adds handles of the group's paths. The one error is want of memory.
    pub(crate) fn add_to(&self, slots: &mut Vec<Slot>) -> Result<(), AllocError>
        ensures { OnOk result (slots.new.items ≡ slots.old.items ++ self.now) }
    {
        self.slots.blocks().add_to(slots)
    }

    /// The group's blocks, for another group: its own where nothing else holds it, else handles of them. The one
    /// error is want of memory.
    pub(crate) fn into_blocks(self, alloc: Global) -> Result<Blocks, AllocError>
        ensures { IfOk result (λ blocks. all_paths blocks ≡ self) }
    {
        let Group { slots } = self;
        match Arc::try_unwrap(slots) {
            Ok(slots) => Ok(slots.into_blocks()),
            Err(shared) => shared.blocks().share(alloc),
        }
    }
}
