//! The paths from the root that files have.

ghost use Rattle.std.specs.Prelude.{◌≡◌, ◌++◌, IfOk, OnOk};
ghost use Rattle.partial_path.specs.Starts.{begins_at};
ghost use Rattle.root_index.specs.Roots.{all_roots, roots_of, root};

use crate::file_handle::FileHandle;
use crate::slot::Slot;
use partial_path::{Spot, Start, StoredPath, count_before};
use std::alloc::{AllocError, Global};
use version_tree::Version;

/// The paths from the root of all files of the version, by file and then by place.
pub(crate) fn slots_of(alloc: Global, version: &Version) -> Result<Vec<Slot>, AllocError>
    ensures { IfOk result (λ slots. slots.items ≡ all_roots version.now.content.rows) }
{
    let mut slots = Vec::new(alloc);
    for i in 0..version.row_count() {
        if let Some((path, paths)) = version.row(i) {
            let file = FileHandle::of(alloc, path, paths, i)?;
            add_slots(&file, &mut slots)?;
        }
    }
    Ok(slots)
}

/// Adds the file's paths from the root, which stand together: the first is found by halving. The one error is want of
/// memory.
pub(crate) fn add_slots(file: &FileHandle, slots: &mut Vec<Slot>) -> Result<(), AllocError>
    ensures { OnOk result (slots.new.items ≡ slots.old.items ++ roots_of file.now) }
{
    let paths = file.paths().get().paths();
    for place in count_before(&paths, Start::After(Spot::Root))..paths.len() {
        if !is_from_root(&paths.at(place)) {
            return Ok(());
        }
        slots.push(Slot::of(file.share()?, place))?;
    }
    Ok(())
}

/// Whether the path begins at the root.
pub(crate) fn is_from_root(path: &StoredPath<'_>) -> bool
    ensures { result ≡ begins_at root path.now }
{
    path.start() == Start::After(Spot::Root)
}
