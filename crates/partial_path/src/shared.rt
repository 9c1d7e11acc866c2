use crate::file_paths::FilePaths;
use std::alloc::{AllocError, Global};
use std::marker::Model;
use std::sync::Arc;

/// The paths of a file, held by all that share them. A contract sees them as the file's own.
#[derive(Drop)]
pub struct SharedPaths {
    paths: Arc<FilePaths, Global>,
}

impl Model for SharedPaths {
    ghost use Rattle.std.specs.Arc.{arc_value};
    ghost use Rattle.partial_path.specs.{PathSets.{FileRules}, Sources.{IsSourceFile}};

    ghost Value = { FileRules };

    ghost view = { λ s. arc_value s.paths };

    ghost invariant = { λ s. IsSourceFile (arc_value s.paths) };
}

impl SharedPaths {
    ghost use Rattle.std.specs.Prelude.{◌≡◌, IfOk};
    ghost use Rattle.partial_path.specs.Sources.{IsSourceFile};

    /// These paths, to be shared; the one error is want of memory.
    pub fn of(alloc: Global, paths: FilePaths) -> Result<SharedPaths, AllocError>
        ensures { IfOk result (λ shared. shared ≡ paths) }
    {
        let _nodes = paths.node_count();
        Ok(SharedPaths {
            paths: Arc::new(alloc, paths)?,
        })
    }

    /// The same paths once more, not copied. The one error is want of room to count one holder more.
    pub fn share(&self) -> Result<SharedPaths, AllocError>
        ensures { IfOk result (λ shared. shared ≡ self.now) }
    {
        Ok(SharedPaths {
            paths: Arc::try_clone(&self.paths)?,
        })
    }

    /// The paths: all of a checked graph, with its weight.
    pub fn get(&self) -> &FilePaths
        ensures value { result.now ≡ self.now }
        ensures sets { IsSourceFile self.now }
    {
        &self.paths
    }
}
