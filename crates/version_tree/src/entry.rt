use crate::edit::Edit;
use std::alloc::{AllocError, Global};
use std::marker::Model;

/// The edits of one commit, in their order. A contract sees them as a list.
#[derive(Drop)]
pub struct EditList {
    items: Vec<Edit>,
}

impl Model for EditList {
    ghost use Rattle.std.specs.Prelude.{List};
    ghost use Rattle.version_tree.specs.declared.edit.Edit.{Edit};

    ghost Value = { List Edit };

    ghost view = { λ e. e.items.items };
}

impl EditList {
    ghost use Rattle.std.specs.Prelude.{◌≡◌, IfOk};

    /// The edits of this vector.
    pub fn of(items: Vec<Edit>) -> EditList
        ensures { result ≡ items.items }
    {
        EditList { items }
    }

    /// These edits once more: their texts are copied, and the paths of files are shared. The one error is
    /// want of memory.
    pub fn copy(alloc: Global, edits: &[Edit]) -> Result<EditList, AllocError>
        ensures { IfOk result (λ copies. copies ≡ edits.now) }
    {
        let mut items = Vec::with_capacity(alloc, edits.len())?;
        for edit in edits {
            items.push(edit.copy(alloc)?)?;
        }
        Ok(EditList { items })
    }

    /// The edits.
    pub fn items(&self) -> &[Edit]
        ensures { result.now ≡ self.now }
    {
        self.items.as_slice()
    }

    /// The vector of the edits.
    pub fn into_items(self) -> Vec<Edit>
        ensures { result.items ≡ self }
    {
        self.items
    }
}

/// An entry of a log of versions: who made it, by the number of its seat; its number among that one's
/// entries, from 0; and its edits. A log makes a version from nothing, entry by entry.
#[derive(Drop)]
pub struct Entry {
    pub seat: u32,
    pub serial: u32,
    pub edits: EditList,
}
