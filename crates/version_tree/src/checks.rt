ghost use Rattle.std.specs.{Prelude.{◌≡◌, None, Some, MatchOption, MatchResult, OnOk}, Option.{option_map}};
ghost use Rattle.version_tree.specs.{Verdict.{absent, first_absent, removed}, Refused.{Refuses}, Passes.{size_fault, AreFew}, declared.edit.EditFault.TheVariants.{Absent}};

use crate::edit::{Edit, EditFault, MAX_FILES, MAX_VERSION_WEIGHT};
use crate::store::Store;
use crate::text::PathText;
use std::alloc::Global;

/// Refuses edits that remove a path that no row has: the first such path.
pub(crate) fn no_absent_path(alloc: Global, rows: &Store, edits: &[Edit]) -> Result<(), EditFault>
    ensures { MatchResult result (λ _. option_map Absent (absent rows.now edits.now)
        ≡ None) (Refuses (option_map Absent (absent rows.now edits.now))) }
{
    for edit in edits {
        if let Some(path) = absent_path(rows, edit) {
            return Err(EditFault::Absent(path.copy(alloc)?));
        }
    }
    Ok(())
}

// The path that the edit removes, where no row has it.
fn absent_path<'a>(rows: &Store, edit: &'a Edit) -> Option<&'a PathText>
    ensures { MatchOption result (first_absent rows.now (removed edit.now) ≡ None)
        (λ path. first_absent rows.now (removed edit.now) ≡ Some path.now) }
{
    match edit {
        Edit::Remove { path } => {
            if rows.blocks().has(path.as_str()) {
                None
            } else {
                Some(path)
            }
        }
        Edit::Put { .. }
        | Edit::Grant { .. }
        | Edit::Revoke { .. }
        | Edit::Deny { .. }
        | Edit::Undeny { .. } => None,
    }
}

/// Refuses rows that are too many, else rows that are too heavy.
pub(crate) fn few_enough(rows: &Store) -> Result<(), EditFault>
    ensures fault { MatchResult result (λ _. size_fault rows.now
        ≡ None) (Refuses (size_fault rows.now)) }
    ensures few { OnOk result (AreFew rows.now) }
{
    let count = rows.blocks().len();
    if count > MAX_FILES {
        return Err(EditFault::TooManyFiles(count as u64));
    }
    if rows.weight() > MAX_VERSION_WEIGHT {
        return Err(EditFault::TooHeavy(rows.weight()));
    }
    Ok(())
}
