//! Paths without those of the files that edits put or remove.

ghost use Rattle.std.specs.Prelude.{◌≡◌, IfOk};
ghost use Rattle.root_index.specs.{Roots.{AreByRank, IsIndexOf}, Amended.{AreFrom, AreOf, other_paths, without_file}, Blocks.{IsStrict, all_paths}};

use crate::edited_files::path_of;
use crate::file_handle::FileHandle;
use crate::file_roots::is_from_root;
use crate::groups::Groups;
use crate::slot::Slot;
use std::alloc::{AllocError, Global};
use version_tree::{Edit, Version};

/// These paths without those of files that an edit puts or removes, of the index of a version's files. The
/// one error is want of memory.
pub(crate) fn without_edited(
    alloc: Global,
    groups: Groups,
    old: &Version,
    edits: &[Edit],
) -> Result<Groups, AllocError>
    requires { IsIndexOf old.now.content.rows (all_paths groups) }
    ensures { IfOk result (λ rest. all_paths rest ≡ other_paths edits.now (all_paths groups)) }
{
    let _count = old.row_count();
    let mut rest = groups;
    for edit in edits {
        if let Some(path) = path_of(edit) {
            rest = without_path(alloc, rest, old, path)?;
        }
    }
    Ok(rest)
}

/// These paths without those of the version's file at that path. The one error is want of memory.
fn without_path(
    alloc: Global,
    groups: Groups,
    old: &Version,
    path: &str,
) -> Result<Groups, AllocError>
    requires order { AreByRank (all_paths groups) }
    requires strict { IsStrict (all_paths groups) }
    requires from { AreFrom old.now.content.rows (all_paths groups) }
    ensures { IfOk result (λ rest. all_paths rest ≡ without_file path.now (all_paths groups)) }
{
    let _count = old.row_count();
    match old.paths_at(path) {
        Some(paths) => {
            let file = FileHandle::of(alloc, path, paths, 0)?;
            without_file(alloc, groups, &file)
        }
        None => Ok(groups),
    }
}

/// These paths without those of the file, which has all that have its path. The one error is want of memory.
fn without_file(alloc: Global, groups: Groups, file: &FileHandle) -> Result<Groups, AllocError>
    requires order { AreByRank (all_paths groups) }
    requires strict { IsStrict (all_paths groups) }
    requires from { AreOf file.now (all_paths groups) }
    ensures { IfOk result (λ rest. all_paths rest ≡ without_file file.now.path (all_paths groups)) }
{
    let mut rest = groups;
    let paths = file.paths().get().paths();
    for place in 0..paths.len() {
        if is_from_root(&paths.at(place)) {
            rest = rest.without(alloc, &Slot::of(file.share()?, place))?;
        }
    }
    Ok(rest)
}
