//! Paths with those of the files that edits put.

ghost use Rattle.std.specs.Prelude.{◌++◌, IfOk, OnOk, IsPermutation};
ghost use Rattle.root_index.specs.{Roots.{AreByRank, all_roots}, Amended.{rows_at, touched_rows}, Blocks.{all_paths}};

use crate::edited_files::{FEW_EDITS, is_touched, path_of};
use crate::file_handle::FileHandle;
use crate::file_roots::add_slots;
use crate::groups::Groups;
use crate::slot::Slot;
use std::alloc::{AllocError, Global};
use version_tree::{Edit, Version};

/// These paths with those of the version's files that an edit puts: of a few edits each is put in at its place, else
/// all are sorted behind these at once, where what is in order already costs one pass. The one error is want of memory.
pub(crate) fn with_edited(
    alloc: Global,
    groups: Groups,
    new: &Version,
    edits: &[Edit],
) -> Result<Groups, AllocError>
    requires { AreByRank (all_paths groups) }
    ensures order { IfOk result (λ more. AreByRank (all_paths more)) }
    ensures all { IfOk result
        (λ more. IsPermutation (all_roots (touched_rows edits.now new.now.content.rows)
        ++ all_paths groups) (all_paths more)) }
{
    let mut added = Vec::new(alloc);
    add_edited(alloc, &mut added, new, edits)?;
    if edits.len() <= FEW_EDITS {
        return with_slots(alloc, groups, added);
    }
    let mut slots = groups.slots(alloc)?;
    slots.append(&mut added)?;
    slots.sort_by(|a, b| a.order(b))?;
    Groups::of(alloc, slots)
}

/// These paths with those, each put in at its place. The one error is want of memory.
fn with_slots(alloc: Global, groups: Groups, slots: Vec<Slot>) -> Result<Groups, AllocError>
    requires { AreByRank (all_paths groups) }
    ensures order { IfOk result (λ more. AreByRank (all_paths more)) }
    ensures all { IfOk result
        (λ more. IsPermutation (slots.items ++ all_paths groups) (all_paths more)) }
{
    let mut more = groups;
    for slot in slots {
        more = more.with(alloc, slot)?;
    }
    Ok(more)
}

/// Adds the paths of the version's files that an edit puts. The one error is want of memory.
fn add_edited(
    alloc: Global,
    slots: &mut Vec<Slot>,
    new: &Version,
    edits: &[Edit],
) -> Result<(), AllocError>
    ensures { OnOk result (IsPermutation (all_roots (touched_rows edits.now new.now.content.rows)
        ++ slots.old.items) slots.new.items) }
{
    let _count = new.row_count();
    for i in 0..edits.len() {
        if let Some(path) = path_of(&edits[i]) {
            if !is_touched(&edits[..i], path) {
                add_path(alloc, slots, new, path)?;
            }
        }
    }
    Ok(())
}

/// Adds the paths of the version's file at that path. The one error is want of memory.
fn add_path(
    alloc: Global,
    slots: &mut Vec<Slot>,
    new: &Version,
    path: &str,
) -> Result<(), AllocError>
    ensures { OnOk result (IsPermutation (all_roots (rows_at path.now new.now.content.rows)
        ++ slots.old.items) slots.new.items) }
{
    let _count = new.row_count();
    match new.paths_at(path) {
        Some(paths) => {
            let file = FileHandle::of(alloc, path, paths, row_with(new, path))?;
            add_slots(&file, slots)
        }
        None => Ok(()),
    }
}

/// The number of the version's row with the path, by halving; that of a row beside its place where there is none.
fn row_with(version: &Version, path: &str) -> u32 {
    let mut low = 0;
    let mut high = version.row_count();
    while low < high {
        let middle = low + (high - low) / 2;
        if is_row_before(version, middle, path) {
            low = middle + 1;
        } else {
            high = middle;
        }
    }
    low
}

/// Whether the version's row of that number stands before the path.
fn is_row_before(version: &Version, number: u32, path: &str) -> bool {
    match version.row(number) {
        Some((other, _)) => other < path,
        None => false,
    }
}
