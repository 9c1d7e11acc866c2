//! The made tree: the files that a generator draws, in their order, as the edits and commits that put them.
ghost use Rattle.std.specs.Prelude.{◌≡◌, ◌<◌, ◌≤◌, ◌+◌, ◌*◌, min, ℕ, IfOk, OnOk};
ghost use Rattle.nav_demo.specs.MadeTree.{next_value, value_after, number_from, made_file, made_files, made_commit, commit_count};

use crate::graph::{document, path};
use nav_proto::{Edits, FileEdit, Request};
use std::alloc::{AllocError, Global};

/// How many files a commit puts at most.
const COMMIT_FILES: u32 = 64;

/// The value that the generator has behind this one.
fn next_value(r: u64) -> u64
    requires below { r < 2147483648 }
    ensures value { result ≡ next_value r }
    ensures below { result < 2147483648 }
{
    (r * 1_103_515_245 + 12_345) % 2_147_483_648
}

/// The number that the value draws: one of so many files.
fn number_from(files: u32, r: u64) -> u64
    requires some { 0 < files }
    ensures { result ≡ number_from files r }
{
    r / 65_536 % u64::from(files)
}

/// A made tree of so many files, whose files before `next` were taken.
#[derive(Drop)]
pub(crate) struct Tree {
    pub(crate) files: u32,
    pub(crate) start: u32,
    pub(crate) next: u32,
    value: u64,
    ghost there: { value ≡ value_after start (2 * next) },
    ghost below: { value < 2147483648 },
}

impl Tree {
    /// The tree of so many files that is drawn from this start.
    pub(crate) fn new(files: u32, start: u32) -> Tree
        ensures files { result.files ≡ files }
        ensures start { result.start ≡ start }
        ensures next { result.next ≡ 0 }
    {
        Tree {
            files,
            start,
            next: 0,
            value: u64::from(start) % 2_147_483_648,
        }
    }

    /// The edit that puts the next file. The one error is want of memory.
    pub(crate) fn file(&mut self, alloc: Global) -> Result<FileEdit, AllocError>
        requires more { self.old.next < self.old.files }
        ensures edit { IfOk result
            (λ edit. edit ≡ made_file self.old.files self.old.start self.old.next) }
        ensures files { self.new.files ≡ self.old.files }
        ensures start { self.new.start ≡ self.old.start }
        ensures next { OnOk result (self.new.next ≡ self.old.next + 1) }
    {
        let k = self.next;
        let first = next_value(self.value);
        let second = next_value(first);
        let path = path(alloc, k)?;
        let text = document(
            alloc,
            k,
            number_from(self.files, first),
            number_from(self.files, second),
        )?;
        self.value = second;
        self.next = k + 1;
        Ok(FileEdit::Put { path, text })
    }

    /// The edits that put the next so many files. The one error is want of memory.
    fn edits(&mut self, alloc: Global, count: u32) -> Result<Edits, AllocError>
        requires more { self.old.next + count ≤ self.old.files }
        ensures edits { IfOk result (λ edits. edits
            ≡ made_files self.old.files self.old.start self.old.next count) }
        ensures files { self.new.files ≡ self.old.files }
        ensures start { self.new.start ≡ self.old.start }
        ensures next { OnOk result (self.new.next ≡ self.old.next + count) }
    {
        let mut edits = Vec::new(alloc);
        for _ in 0..count {
            edits.push(self.file(alloc)?)?;
        }
        Ok(Edits::of(edits))
    }

    /// How many commits put all files.
    pub(crate) fn commit_count(&self) -> u32
        ensures { result ≡ commit_count self.now.files }
    {
        self.files.div_ceil(COMMIT_FILES)
    }

    /// The request that commits the next files: 64, or the rest. The one error is want of memory.
    pub(crate) fn commit(&mut self, alloc: Global) -> Result<Request, AllocError>
        requires there { self.old.next ≤ self.old.files }
        ensures request { (n : ℕ) → self.old.next ≡ 64 * n
            → IfOk result (λ request. request ≡ made_commit self.old.files self.old.start n) }
        ensures files { self.new.files ≡ self.old.files }
        ensures start { self.new.start ≡ self.old.start }
        ensures next { OnOk result (self.new.next ≡ min (self.old.next + 64) self.old.files) }
    {
        let count = (self.files - self.next).min(COMMIT_FILES);
        let edits = self.edits(alloc, count)?;
        Ok(Request::Commit { base: None, edits })
    }
}
