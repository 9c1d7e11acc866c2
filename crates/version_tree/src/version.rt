use crate::checks::{few_enough, no_absent_path};
use crate::edit::{Edit, EditFault, MAX_NUMBER};
use crate::passes::{rows_after, rules_after};
use crate::repeats::no_path_twice;
use crate::shared_rules::SharedRules;
use crate::store::Store;
use crate::view::View;
use partial_path::SharedPaths;
use std::alloc::{AllocError, Global};
use std::marker::Model;

/// A version: its number, its files in the order of their paths, its grants and denies. It never
/// changes; edits make another. A contract sees the number and what the version holds.
#[derive(Drop)]
pub struct Version {
    number: u32,
    rows: Store,
    grants: SharedRules,
}

impl Model for Version {
    ghost use Rattle.version_tree.specs.{Contents.{Numbered, content}, Passes.{AreFew}};

    ghost Value = { Numbered };

    ghost view = { λ v. record { number = v.number; content = content v.rows v.grants } };

    ghost invariant = { λ v. AreFew v.rows };
}

impl Version {
    ghost use Rattle.std.specs.Prelude.{◌≡◌, ◌+◌, ◌≤◌, length, None, slice_get, IfOk, IfErr, option_map, option_copied};
    ghost use Rattle.version_tree.specs.{Contents.{AreRows, file_row, no_content, edited_all, granted_rows}, Limits.{max_files}, Views.{file_with}, Verdict.{edit_fault}, Refused.{Refuses}};

    /// The version of this number that holds nothing. It takes no memory.
    pub fn empty(alloc: Global, number: u32) -> Version
        ensures { result ≡ record { number = number; content = no_content } }
    {
        Version {
            number,
            rows: Store::new(alloc),
            grants: SharedRules::new(alloc),
        }
    }

    /// The version's number.
    pub fn number(&self) -> u32
        ensures { result ≡ self.now.number }
    {
        self.number
    }

    /// How many files the version has. All of them stand in the order of the bytes of their paths, each
    /// with the path set of its checked graph.
    pub fn row_count(&self) -> u32
        ensures count { result ≡ length self.now.content.rows }
        ensures few { length self.now.content.rows ≤ max_files }
        ensures rows { AreRows self.now.content.rows }
    {
        self.rows.blocks().len() as u32
    }

    /// The path and the file at that place, from 0 and in the order of the paths; None past the last. It
    /// takes time that follows the number of blocks of 1 to 64 files, and no memory.
    pub fn row(&self, place: u32) -> Option<(&str, &SharedPaths)>
        ensures { option_map (λ row. file_row row.0.now row.1.now) result
            ≡ slice_get self.now.content.rows place }
    {
        match self.rows.blocks().row(place as usize) {
            Some(row) => Some((row.path(), row.paths())),
            None => None,
        }
    }

    /// The file at the path, by halving; None where there is none. It takes no memory.
    pub fn paths_at(&self, path: &str) -> Option<&SharedPaths>
        ensures { option_copied result ≡ file_with path.now self.now.content.rows }
    {
        match self.rows.blocks().row_with(path) {
            Some(row) => Some(row.paths()),
            None => None,
        }
    }

    /// The version that the edits make of this one, its number one more. They are refused by the
    /// first of the faults of `EditFault` in their order; want of memory may come before any.
    pub fn amend(&self, alloc: Global, edits: &[Edit]) -> Result<Version, EditFault>
        ensures fit { IfOk result (λ version. edit_fault self.now.number self.now.content edits.now
            ≡ None) }
        ensures number { IfOk result (λ version. version.number ≡ self.now.number + 1) }
        ensures content { IfOk result (λ version. version.content
            ≡ edited_all edits.now self.now.content) }
        ensures refused { IfErr result
            (Refuses (edit_fault self.now.number self.now.content edits.now)) }
    {
        no_path_twice(alloc, edits)?;
        no_absent_path(alloc, &self.rows, edits)?;
        let grants = rules_after(alloc, &self.grants, edits)?;
        let rows = rows_after(alloc, &self.rows, edits)?;
        few_enough(&rows)?;
        if self.number >= MAX_NUMBER {
            return Err(EditFault::Spent);
        }
        Ok(Version {
            number: self.number + 1,
            rows,
            grants,
        })
    }

    /// What the user sees: the granted files in the order of their paths. The one error is want of
    /// memory. Files that stand together and are all seen are shared together.
    pub fn view(&self, alloc: Global, user: &str) -> Result<View, AllocError>
        ensures { IfOk result (λ view. view ≡ granted_rows user.now self.now.content) }
    {
        let seen = self.rows.blocks().seen(alloc, self.grants.get(), user)?;
        View::of(alloc, seen)
    }
}
