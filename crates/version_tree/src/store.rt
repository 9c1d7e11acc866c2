use crate::blocks::Blocks;
use crate::row_handle::RowHandle;
use crate::text::PathText;
use partial_path::SharedPaths;
use std::alloc::{AllocError, Global};
use std::marker::Model;

/// The rows of a version, with the sum of their weights. A contract sees the rows.
#[derive(Drop)]
pub(crate) struct Store {
    blocks: Blocks,
    weight: u64,
}

impl Model for Store {
    ghost use Rattle.std.specs.Prelude.{◌≡◌, List};
    ghost use Rattle.version_tree.specs.{Blocks.{all_rows}, Contents.{FileRow}, Verdict.{weight_of}};

    ghost Value = { List FileRow };

    ghost view = { λ s. all_rows s.blocks };

    ghost invariant = { λ s. s.weight ≡ weight_of (all_rows s.blocks) };
}

impl Store {
    ghost use Rattle.std.specs.Prelude.{◌≡◌, [], IfOk};
    ghost use Rattle.version_tree.specs.{Blocks.{all_rows}, Contents.{with_row, without_row}, Verdict.{weight_of}};

    /// No rows. It takes no memory.
    pub(crate) fn new(alloc: Global) -> Store
        ensures { result ≡ [] }
    {
        Store {
            blocks: Blocks::new(alloc),
            weight: 0,
        }
    }

    /// The blocks that the rows stand in.
    pub(crate) fn blocks(&self) -> &Blocks
        ensures { all_rows result.now ≡ self.now }
    {
        &self.blocks
    }

    /// The weights of the rows together.
    pub(crate) fn weight(&self) -> u64
        ensures { result ≡ weight_of self.now }
    {
        self.weight
    }

    /// The same rows once more, not copied. The one error is want of memory.
    pub(crate) fn share(&self, alloc: Global) -> Result<Store, AllocError>
        ensures { IfOk result (λ rows. rows ≡ self.now) }
    {
        Ok(Store {
            blocks: self.blocks.share(alloc)?,
            weight: self.weight,
        })
    }

    /// These rows with the paths at the path, in place of what is there. The one error is want of
    /// memory; a sum of weights beyond 64 bits counts as such, and no memory holds so many rows.
    pub(crate) fn with(
        self,
        alloc: Global,
        path: &PathText,
        paths: &SharedPaths,
    ) -> Result<Store, AllocError>
        ensures { IfOk result (λ rows. rows ≡ with_row path.now paths.now self) }
    {
        let Store { blocks, weight } = self;
        let row = RowHandle::of(alloc, path, paths)?;
        let left = weight - blocks.weight_at(path.as_str());
        let weight = left.checked_add(u64::from(row.weight())).ok_or(AllocError)?;
        let blocks = blocks.with(alloc, row)?;
        Ok(Store { blocks, weight })
    }

    /// These rows without the one with the path, where there is one. The one error is want of
    /// memory.
    pub(crate) fn without(self, alloc: Global, path: &str) -> Result<Store, AllocError>
        ensures { IfOk result (λ rows. rows ≡ without_row path.now self) }
    {
        let Store { blocks, weight } = self;
        let weight = weight - blocks.weight_at(path);
        let blocks = blocks.without(alloc, path)?;
        Ok(Store { blocks, weight })
    }
}
