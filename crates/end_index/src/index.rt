use crate::place::EndPlace;
use crate::sharing::index_of;
use crate::side::{Part, Side};
use partial_path::FilePaths;
use stacks_vars::Listed;
use std::alloc::{AllocError, Global};
use std::marker::Model;
use std::thread::Threads;
use version_tree::View;

/// How many files are put one by one at most where they have changed: each of them takes a walk over all paths, and that
/// of six takes no less time than to list all files anew.
const FEW_CHANGED: u32 = 6;

/// Of all paths of some files those that end at the root, and those that end by the stack and make no scope, with the
/// files' marks, by which it is told which files have changed since. A contract sees these lists.
#[derive(Drop)]
pub struct EndIndex {
    root: Side,
    stack: Side,
}

impl Model for EndIndex {
    ghost use Rattle.end_index.specs.Ends.{Ends, ends_of};

    ghost Value = { Ends };

    ghost view = { λ x. ends_of x.root x.stack };
}

impl EndIndex {
    ghost use Rattle.std.specs.Prelude.{◌≡◌, ◌<◌, ◌++◌, [], length, set, slice_get, true, Some, Ok, IsTrue, OnOk};
    ghost use Rattle.partial_path.specs.Ends.{end_marks, ends_at_root, ends_by_stack};
    ghost use Rattle.root_index.specs.Offers.{files_of};
    ghost use Rattle.end_index.specs.{Ends.{AreListed, IsEndIndexOf, IsPartAt, ends_of, marks_in, side_of}, Shares.{HasFirst}};

    /// The index of no file. It takes no memory.
    pub fn new(alloc: Global) -> EndIndex
        ensures { result ≡ ends_of (side_of [] []) (side_of [] []) }
    {
        EndIndex {
            root: Side::new(alloc),
            stack: Side::new(alloc),
        }
    }

    /// Makes it the index of what the user sees: files that have changed since are put anew where they are few, which
    /// takes a look at the marks of all files, and else all are listed, on several threads where they are many. It looks
    /// at no path. The one error is want of memory.
    pub fn fit<R: Threads + Sync>(
        &mut self,
        rt: &R,
        alloc: Global,
        view: &View,
    ) -> Result<(), AllocError>
        ensures { OnOk result (IsEndIndexOf view.now self.new) }
    {
        if self.has_as_many(view) && self.put_changed(alloc, view)? {
            return Ok(());
        }
        // The old one goes first, so that there is never memory for two.
        *self = EndIndex::new(alloc);
        *self = index_of(rt, alloc, view)?;
        Ok(())
    }

    /// Whether it is of as many files as are seen.
    fn has_as_many(&self, view: &View) -> bool
        ensures root { IsTrue result → length self.now.root.marks ≡ length view.now }
        ensures stack { IsTrue result → length self.now.stack.marks ≡ length view.now }
    {
        let count = view.row_count() as usize;
        self.root.len() == count && self.stack.len() == count
    }

    /// Puts those of the files that have changed, where they are few; false where they aren't. The one error is want of
    /// memory.
    fn put_changed(&mut self, alloc: Global, view: &View) -> Result<bool, AllocError>
        requires root { length self.old.root.marks ≡ length view.now }
        requires stack { length self.old.stack.marks ≡ length view.now }
        ensures { result ≡ Ok true → IsEndIndexOf view.now self.new }
    {
        let mut changed = 0;
        for file in 0..view.row_count() {
            let paths = view.paths(file).get();
            if self.has(file, paths) {
                continue;
            }
            if changed == FEW_CHANGED {
                return Ok(false);
            }
            changed += 1;
            self.put(alloc, file, paths)?;
        }
        Ok(true)
    }

    /// Whether the file with that number has these paths' marks.
    fn has(&self, file: u32, paths: &FilePaths) -> bool
        requires root { file < length self.now.root.marks }
        requires stack { file < length self.now.stack.marks }
        ensures root { IsTrue result
            → slice_get self.now.root.marks file ≡ Some (marks_in ends_at_root paths.now) }
        ensures stack { IsTrue result
            → slice_get self.now.stack.marks file ≡ Some (marks_in ends_by_stack paths.now) }
    {
        self.root.has(file, paths.root_ends()) && self.stack.has(file, paths.stack_ends())
    }

    /// Gives the file with that number these paths' marks. The one error is want of memory.
    fn put(&mut self, alloc: Global, file: u32, paths: &FilePaths) -> Result<(), AllocError>
        requires root { file < length self.old.root.marks }
        requires stack { file < length self.old.stack.marks }
        ensures root { OnOk result (self.new.root.marks
            ≡ set self.old.root.marks file (marks_in ends_at_root paths.now)) }
        ensures stack { OnOk result (self.new.stack.marks
            ≡ set self.old.stack.marks file (marks_in ends_by_stack paths.now)) }
    {
        self.root.put(alloc, file, paths.root_ends())?;
        self.stack.put(alloc, file, paths.stack_ends())?;
        Ok(())
    }

    /// Puts the files of these parts, one of each list, behind the others. The one error is want of memory.
    pub(crate) fn add(&mut self, root: Part, stack: Part) -> Result<(), AllocError>
        requires root { IsPartAt (length self.old.root.marks) root }
        requires stack { IsPartAt (length self.old.stack.marks) stack }
        ensures root { OnOk result (self.new.root.marks ≡ self.old.root.marks ++ root.marks) }
        ensures stack { OnOk result (self.new.stack.marks ≡ self.old.stack.marks ++ stack.marks) }
    {
        self.root.add(root)?;
        self.stack.add(stack)?;
        Ok(())
    }

    /// The paths that end at the root, by shares.
    pub(crate) fn root(&self) -> &[Listed<EndPlace>]
        ensures value { result.now ≡ self.now.root.shares }
        ensures listed { AreListed self.now.root.marks self.now.root.shares }
    {
        self.root.shares()
    }

    /// The paths that end by the stack and make no scope, by shares.
    pub(crate) fn stack(&self) -> &[Listed<EndPlace>]
        ensures value { result.now ≡ self.now.stack.shares }
        ensures listed { AreListed self.now.stack.marks self.now.stack.shares }
    {
        self.stack.shares()
    }
}
