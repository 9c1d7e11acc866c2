use crate::blocks::Blocks;
use crate::row_handle::RowHandle;
use partial_path::SharedPaths;
use std::alloc::{AllocError, Global};
use std::marker::Model;

/// Where a row stands: the number of its block, and its place there. Numbers of 16 bits serve, since a version has at
/// most 2,048 files.
#[derive(Clone, Copy, Debug)]
pub(crate) struct RowPlace {
    pub block: u16,
    pub row: u16,
}

/// What a user sees of a version: the granted files in the order of their paths, numbered from 0.
/// It holds them without a copy, in the version's blocks where the user sees all of a block. A contract sees them as a
/// list.
#[derive(Drop)]
pub struct View {
    blocks: Blocks,
    /// How many rows stand before each block.
    starts: Vec<usize>,
    /// Where each row stands, so that it is found at once.
    places: Vec<RowPlace>,
}

impl Model for View {
    ghost use Rattle.std.specs.Prelude.{List, ◌≡◌, ◌≤◌, length};
    ghost use Rattle.version_tree.specs.{Blocks.{all_rows}, Contents.{FileRow}, Limits.{max_files}, Placed.{places_from, starts_from}};

    ghost Value = { List FileRow };

    ghost view = { λ v. all_rows v.blocks };

    ghost invariant = { λ v. (length (all_rows v.blocks) ≤ max_files)
        × (v.starts.items ≡ starts_from 0 v.blocks) × (v.places.items ≡ places_from 0 v.blocks) };
}

impl View {
    ghost use Rattle.std.specs.Prelude.{◌≡◌, ◌<◌, ◌≤◌, false, Some, length, slice_get, IfOk, MatchOption};
    ghost use Rattle.version_tree.specs.{Blocks.{all_rows}, Contents.{AreRows, has_path}, Limits.{max_files}, Views.{path_at, file_at}};

    /// The view of the rows of these blocks. The one error is want of memory.
    pub(crate) fn of(alloc: Global, blocks: Blocks) -> Result<View, AllocError>
        requires { length (all_rows blocks) ≤ max_files }
        ensures { IfOk result (λ view. view ≡ all_rows blocks) }
    {
        let count = blocks.block_count();
        let mut starts = Vec::with_capacity(alloc, count)?;
        let mut places = Vec::with_capacity(alloc, blocks.len())?;
        for i in 0..count {
            starts.push(places.len())?;
            add_places(&mut places, i as u16, blocks.block(i).len())?;
        }
        Ok(View {
            blocks,
            starts,
            places,
        })
    }

    /// The row of that number.
    fn row(&self, file: u32) -> &RowHandle
        requires { file < length self.now }
        ensures { slice_get self.now file ≡ Some result.now }
    {
        let place = self.places[file as usize];
        self.blocks
            .block(place.block as usize)
            .row(place.row as usize)
    }

    /// How many files are seen. All of them stand in the order of the bytes of their paths, each with the
    /// path set of its checked graph.
    pub fn row_count(&self) -> u32
        ensures count { result ≡ length self.now }
        ensures few { length self.now ≤ max_files }
        ensures rows { AreRows self.now }
    {
        self.blocks.len() as u32
    }

    /// The path of the file of that number.
    pub fn path(&self, file: u32) -> &str
        requires { file < length self.now }
        ensures { path_at self.now file ≡ Some result.now }
    {
        self.row(file).path()
    }

    /// The file of that number.
    pub fn paths(&self, file: u32) -> &SharedPaths
        requires { file < length self.now }
        ensures { file_at self.now file ≡ Some result.now }
    {
        self.row(file).paths()
    }

    /// The number of the file with the path, by halving; `None` where no file that is seen has it.
    pub fn find(&self, path: &str) -> Option<u32>
        ensures { MatchOption result (has_path path.now self.now ≡ false)
            (λ file. path_at self.now file ≡ Some path.now) }
    {
        let (block, row) = self.blocks.place_of(path)?;
        Some((self.starts[block] + row) as u32)
    }
}

ghost use Rattle.std.specs.Prelude.{◌≡◌, ◌<◌, ◌≤◌, ◌^◌, ◌++◌, OnOk};
ghost use Rattle.version_tree.specs.{Limits.{block_rows}, Placed.{places_in}};

/// Adds where so many rows of the block stand. The one error is want of memory.
fn add_places(places: &mut Vec<RowPlace>, block: u16, count: usize) -> Result<(), AllocError>
    requires { count ≤ block_rows }
    ensures { OnOk result (places.new.items ≡ places.old.items ++ places_in block 0 count) }
{
    for row in 0..count {
        places.push(RowPlace {
            block,
            row: row as u16,
        })?;
    }
    Ok(())
}
