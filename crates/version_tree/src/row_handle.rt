use crate::text::PathText;
use partial_path::SharedPaths;
use std::alloc::{AllocError, Global};
use std::cmp::Ordering;
use std::marker::Model;
use std::sync::Arc;

/// A row of a version, held by all versions that have it: its path and its file, each behind a counter of its own, so
/// that a query comes to the file with no look at the path. A contract sees a file at its path.
#[derive(Drop)]
pub(crate) struct RowHandle {
    path: Arc<PathText, Global>,
    paths: SharedPaths,
}

impl Model for RowHandle {
    ghost use Rattle.std.specs.Arc.{arc_value};
    ghost use Rattle.partial_path.specs.Sources.{IsSourceFile};
    ghost use Rattle.version_tree.specs.Contents.{FileRow, file_row};

    ghost Value = { FileRow };

    ghost view = { λ r. file_row (arc_value r.path) r.paths };

    ghost invariant = { λ r. IsSourceFile r.paths };
}

impl RowHandle {
    ghost use Rattle.std.specs.Prelude.{◌≡◌, IfOk};
    ghost use Rattle.partial_path.specs.Sources.{IsSourceFile};
    ghost use Rattle.version_tree.specs.Contents.{file_row, path_cmp};

    /// The row with these paths at the path; the one error is want of memory.
    pub(crate) fn of(
        alloc: Global,
        path: &PathText,
        paths: &SharedPaths,
    ) -> Result<RowHandle, AllocError>
        ensures { IfOk result (λ row. row ≡ file_row path.now paths.now) }
    {
        let _set = paths.get();
        Ok(RowHandle {
            path: Arc::new(alloc, PathText::of(alloc, path.as_str())?)?,
            paths: paths.share()?,
        })
    }

    /// The same row once more, not copied. The one error is want of room to count one holder more.
    pub(crate) fn share(&self) -> Result<RowHandle, AllocError>
        ensures { IfOk result (λ row. row ≡ self.now) }
    {
        Ok(RowHandle {
            path: Arc::try_clone(&self.path)?,
            paths: self.paths.share()?,
        })
    }

    /// The row's path.
    pub(crate) fn path(&self) -> &str
        ensures value { result.now ≡ self.now.path }
        ensures sets { IsSourceFile self.now.file }
    {
        self.path.as_str()
    }

    /// The row's file.
    pub(crate) fn paths(&self) -> &SharedPaths
        ensures { result.now ≡ self.now.file }
    {
        &self.paths
    }

    /// The weight of the row's file.
    pub(crate) fn weight(&self) -> u32
        ensures { result ≡ self.now.file.weight }
    {
        self.paths().get().weight()
    }

    /// Where the row stands in the order of paths, beside this path.
    pub(crate) fn order(&self, path: &str) -> Ordering
        ensures { result ≡ path_cmp self.now.path path.now }
    {
        self.path().as_bytes().cmp(path.as_bytes())
    }
}
