use crate::hints::Hints;
use std::alloc::{AllocError, Global};
use std::marker::Model;

/// What stands in place of the number of a file that isn't seen.
const NOT_SEEN: u32 = u32::MAX;

/// For each path of an index the number of its file in a view, where the view has it, in four bytes a path, and hints that
/// tell where keys begin. A contract sees the list of the numbers.
#[derive(Drop)]
pub struct SeenFiles {
    numbers: Vec<u32>,
    hints: Hints,
}

impl Model for SeenFiles {
    ghost use Rattle.std.specs.Prelude.{ℕ, List, Option, map};
    ghost use Rattle.root_index.specs.SeenFiles.{file_told};

    ghost Value = { List (Option ℕ) };

    ghost view = { λ s. map file_told s.numbers.items };
}

impl SeenFiles {
    ghost use Rattle.std.specs.Prelude.{◌≡◌, ◌<◌, ◌++◌, [], ◌∷◌, length, slice_get, Some, IfOk, IfSome, OnOk};
    ghost use Rattle.root_index.specs.SeenFiles.{not_seen};

    /// The table of no paths, with room for so many. The one error is want of memory.
    pub(crate) fn with_room(alloc: Global, count: usize) -> Result<SeenFiles, AllocError>
        ensures { IfOk result (λ files. files ≡ []) }
    {
        Ok(SeenFiles {
            numbers: Vec::with_capacity(alloc, count)?,
            hints: Hints::with_room(alloc, count)?,
        })
    }

    /// Adds the number of the next path's file. The one error is want of memory.
    pub(crate) fn push(&mut self, file: Option<u32>) -> Result<(), AllocError>
        requires { IfSome file (λ n. n < not_seen) }
        ensures { OnOk result (self.new ≡ self.old ++ file ∷ []) }
    {
        self.numbers.push(number_of(file))?;
        Ok(())
    }

    /// Notes where keys begin: that the path at that place and in that group has these heads, and the path in front of it
    /// the others.
    pub(crate) fn note(&mut self, heads: &[u64; 6], before: &[u64; 6], place: usize, group: usize)
        ensures { self.new ≡ self.old }
    {
        self.hints.note(heads, before, place, group);
    }

    /// Where keys seem to begin.
    pub(crate) fn hints(&self) -> &Hints {
        &self.hints
    }

    /// The number of the file of the path at that place; None where it isn't seen. It takes constant time.
    pub(crate) fn at(&self, place: usize) -> Option<u32>
        requires { place < length self.now }
        ensures { slice_get self.now place ≡ Some result }
    {
        told_by(self.numbers[place])
    }
}

ghost use Rattle.std.specs.Prelude.{◌≡◌, ◌<◌, IfSome};
ghost use Rattle.root_index.specs.SeenFiles.{file_told, not_seen};

/// What a table holds of the file.
fn number_of(file: Option<u32>) -> u32
    requires { IfSome file (λ n. n < not_seen) }
    ensures { file_told result ≡ file }
{
    match file {
        Some(number) => number,
        None => NOT_SEEN,
    }
}

/// What a number that a table holds tells.
fn told_by(number: u32) -> Option<u32>
    ensures { result ≡ file_told number }
{
    if number < NOT_SEEN {
        Some(number)
    } else {
        None
    }
}
