//! The files that a user sees, by their numbers.

use partial_path::{FilePaths, SharedPaths};
use std::alloc::{AllocError, Global};
use std::marker::Model;
use version_tree::View;

/// The files that a user sees, by number: a handle of each, eight bytes, made once for many look-ups, which then come to
/// a file with no look at the view. A contract sees the files.
#[derive(Drop)]
pub struct FileTable {
    files: Vec<SharedPaths>,
}

impl Model for FileTable {
    ghost use Rattle.std.specs.Prelude.{◌≤◌, List, length};
    ghost use Rattle.partial_path.specs.PathSets.{FileRules};
    ghost use Rattle.version_tree.specs.Limits.{max_files};

    ghost Value = { List FileRules };

    ghost view = { λ t. t.files.items };

    ghost invariant = { λ t. length t.files.items ≤ max_files };
}

impl FileTable {
    ghost use Rattle.std.specs.Prelude.{◌≡◌, ◌<◌, ◌^◌, IfOk, IfSome, slice_get, option_copied};
    ghost use Rattle.root_index.specs.Offers.{files_of};

    /// The files that are seen; the one error is want of memory, or of room to count one holder more.
    pub fn of(alloc: Global, view: &View) -> Result<FileTable, AllocError>
        ensures { IfOk result (λ table. table ≡ files_of view.now) }
    {
        let count = view.row_count();
        let mut files = Vec::with_capacity(alloc, count as usize)?;
        for file in 0..count {
            files.push(view.paths(file).share()?)?;
        }
        Ok(FileTable { files })
    }

    /// The paths of the file with that number; None where there is none.
    pub fn file(&self, file: usize) -> Option<&FilePaths>
        ensures value { option_copied result ≡ slice_get self.now file }
        ensures small { IfSome result (λ _. file < 2 ^ 32) }
    {
        match self.files.get(file) {
            Some(paths) => Some(paths.get()),
            None => None,
        }
    }
}

ghost use Rattle.std.specs.Prelude.{All};
ghost use Rattle.partial_path.specs.Sources.{IsSourceFile};
ghost use Rattle.root_index.specs.Offers.{files_of};

/// Tells that each file that is seen is a checked graph with its path set, which the view says.
pub fn are_sources(view: &View)
    ensures { All IsSourceFile (files_of view.now) }
{
    view.row_count();
}
