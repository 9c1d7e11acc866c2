//! Which paths of a file end outside it: at the root, or by the stack.
use crate::config::Spot;
use crate::marks::made_key;
use crate::rule::End;
use crate::stored::StoredPath;
use crate::stored_paths::StoredPaths;
use std::alloc::{AllocError, Global};

/// A path that ends outside its file, in eight bytes: the key of the first symbols that it makes, and its place among the
/// file's paths.
#[derive(Clone, Copy, Debug)]
pub struct EndMark {
    pub key: u32,
    pub place: u32,
}

/// The paths of a file that end at the root, and those that end by the stack and make no scope, each in the order of the
/// file's paths. An index of many files is made of them with no look at a path.
#[derive(Debug, Drop)]
pub struct EndTable {
    pub root: Vec<EndMark>,
    pub stack: Vec<EndMark>,
}

impl EndTable {
    ghost use Rattle.std.specs.Prelude.{◌≡◌, ◌++◌, ◌∷◌, [], IfOk, OnOk};
    ghost use Rattle.partial_path.specs.Ends.{AreEndMarks, end_marks, ends_at_root, ends_by_stack};

    /// The table of these paths, in no more room than it needs. The one error is want of memory, or of numbers of 32 bits
    /// for so many paths.
    pub fn of(alloc: Global, paths: &StoredPaths<'_>) -> Result<EndTable, AllocError>
        ensures { IfOk result
            (λ table. AreEndMarks paths.now table.root.items table.stack.items) }
    {
        if paths.len() > u32::MAX as usize {
            return Err(AllocError);
        }
        let (root, stack) = counts(paths);
        let mut table = EndTable {
            root: Vec::with_capacity(alloc, root)?,
            stack: Vec::with_capacity(alloc, stack)?,
        };
        for place in 0..paths.len() {
            table.add(&paths.at(place), place as u32)?;
        }
        Ok(table)
    }

    /// Adds the path at that place where it ends so. The one error is want of memory.
    fn add(&mut self, path: &StoredPath<'_>, place: u32) -> Result<(), AllocError>
        ensures root { OnOk result (self.new.root.items
            ≡ self.old.root.items ++ end_marks ends_at_root place (path.now ∷ [])) }
        ensures stack { OnOk result (self.new.stack.items
            ≡ self.old.stack.items ++ end_marks ends_by_stack place (path.now ∷ [])) }
    {
        if ends_at_root(path) {
            self.root.push(end_mark(path, place))?;
        }
        if ends_by_stack(path) {
            self.stack.push(end_mark(path, place))?;
        }
        Ok(())
    }
}

ghost use Rattle.std.specs.Prelude.{◌≡◌};
ghost use Rattle.partial_path.specs.Ends.{end_mark, ends_at_root, ends_by_stack};

/// The path at that place.
fn end_mark(path: &StoredPath<'_>, place: u32) -> EndMark
    ensures { result ≡ end_mark place path.now }
{
    EndMark {
        key: made_key(path.made()),
        place,
    }
}

/// Whether the path ends at the root.
fn ends_at_root(path: &StoredPath<'_>) -> bool
    ensures { result ≡ ends_at_root path.now }
{
    match path.end() {
        End::At(Spot::Root) => true,
        End::At(Spot::At(_)) | End::ByStack => false,
    }
}

/// Whether the path ends by the stack and makes no scope.
pub fn ends_by_stack(path: &StoredPath<'_>) -> bool
    ensures { result ≡ ends_by_stack path.now }
{
    match path.end() {
        End::At(_) => false,
        End::ByStack => path.scopes().is_empty(),
    }
}

/// How many of the paths end at the root, and how many by the stack: for so many a table has room.
fn counts(paths: &StoredPaths<'_>) -> (usize, usize) {
    let (mut root, mut stack) = (0usize, 0usize);
    for place in 0..paths.len() {
        let path = paths.at(place);
        root = root.saturating_add(ends_at_root(&path) as usize);
        stack = stack.saturating_add(ends_by_stack(&path) as usize);
    }
    (root, stack)
}
