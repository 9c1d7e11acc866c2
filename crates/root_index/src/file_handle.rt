use partial_path::SharedPaths;
use std::alloc::{AllocError, Global};
use std::marker::Model;
use std::sync::Arc;
use version_tree::PathText;

/// What stands at a path.
#[derive(Drop)]
struct Stored {
    path: PathText,
    paths: SharedPaths,
}

/// A file at its path, held by all its paths in an index. A contract sees a row.
#[derive(Drop)]
pub(crate) struct FileHandle {
    stored: Arc<Stored, Global>,
    // The number of its row in the version of which it was taken up, where its row in a view is looked for first.
    row: u32,
}

impl Model for FileHandle {
    ghost use Rattle.std.specs.Arc.{arc_value};
    ghost use Rattle.version_tree.specs.Contents.{FileRow, file_row};

    ghost Value = { FileRow };

    ghost view = { λ f. file_row (arc_value f.stored).path (arc_value f.stored).paths };
}

impl FileHandle {
    ghost use Rattle.std.specs.Prelude.{◌≡◌, IfOk};
    ghost use Rattle.version_tree.specs.Contents.{file_row};

    /// The file at the path, whose row has that number; the one error is want of memory.
    pub(crate) fn of(
        alloc: Global,
        path: &str,
        paths: &SharedPaths,
        row: u32,
    ) -> Result<FileHandle, AllocError>
        ensures { IfOk result (λ file. file ≡ file_row path.now paths.now) }
    {
        let stored = Stored {
            path: PathText::of(alloc, path)?,
            paths: paths.share()?,
        };
        Ok(FileHandle {
            stored: Arc::new(alloc, stored)?,
            row,
        })
    }

    /// The same file once more, not copied. The one error is want of room to count one holder more.
    pub(crate) fn share(&self) -> Result<FileHandle, AllocError>
        ensures { IfOk result (λ file. file ≡ self.now) }
    {
        Ok(FileHandle {
            stored: Arc::try_clone(&self.stored)?,
            row: self.row,
        })
    }

    /// The number of its row in the version of which it was taken up.
    pub(crate) fn row(&self) -> u32 {
        self.row
    }

    /// The file's path.
    pub(crate) fn path(&self) -> &str
        ensures { result.now ≡ self.now.path }
    {
        self.stored.path.as_str()
    }

    /// The file's paths.
    pub(crate) fn paths(&self) -> &SharedPaths
        ensures { result.now ≡ self.now.file }
    {
        &self.stored.paths
    }
}
