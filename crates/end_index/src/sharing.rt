//! The index of a view made on several threads.
ghost use Rattle.std.specs.Prelude.{◌≡◌, ℕ, ◌+◌, ◌*◌, ◌^◌, ◌<◌, ◌≤◌, length, min, IfOk, OnOk, slice_index_or, vec_len};
ghost use Rattle.end_index.specs.{Ends.{IsEndIndexOf}, Shares.{IsIndexOfFirst, IsShareOf, first_of}};

use crate::index::EndIndex;
use crate::side::Part;
use std::alloc::{AllocError, Global};
use std::thread;
use std::thread::Threads;
use version_tree::View;

/// The most threads that list paths.
const MOST_THREADS: usize = 8;

/// Fewer files than these are one thread's: going over them takes no longer than beginning some threads.
const FEW_FILES: u32 = 64;

/// What one thread lists of its files: the part of each list.
type Share = Result<(Part, Part), AllocError>;

/// The index of what the user sees. The one error is want of memory. With n threads the first one goes over the first of
/// the files, the next one over as many behind these, and so on, and each puts in order what it lists.
pub(crate) fn index_of<R: Threads + Sync>(
    rt: &R,
    alloc: Global,
    view: &View,
) -> Result<EndIndex, AllocError>
    ensures { IfOk result (IsEndIndexOf view.now) }
{
    let count = view.row_count() as usize;
    let threads = thread_count(rt, view.row_count());
    let step = count / threads + 1;
    let shares = list_shares(rt, alloc, view, threads, step)?;
    together(alloc, view, step, shares)
}

/// On how many threads so many files are gone over: one for each processor, and at most eight; one where there are few
/// files, or where the processors can't be counted.
fn thread_count<R: Threads>(rt: &R, files: u32) -> usize
    ensures { 0 < result }
{
    if files < FEW_FILES {
        return 1;
    }
    match thread::available_parallelism(rt) {
        Ok(count) => count.get().min(MOST_THREADS).max(1),
        Err(_) => 1,
    }
}

/// Lists so many shares, each on a thread of its own where one can be made. A share has so many files, but for the last
/// ones.
fn list_shares<R: Threads + Sync>(
    rt: &R,
    alloc: Global,
    view: &View,
    count: usize,
    step: usize,
) -> Result<Vec<Share>, AllocError>
    ensures len { IfOk result (λ shares. vec_len shares ≡ count) }
    ensures shares { IfOk result (λ shares. (i : ℕ) (d : _) → i < count
        → IfOk (slice_index_or shares.items i d)
        (IsShareOf view.now (first_of view.now step i) (first_of view.now step (i + 1)))) }
{
    thread::map_indices(
        rt,
        alloc,
        count,
        &|share| list_share(alloc, view, share, step),
    )
}

/// The share with that number. The one error is want of memory.
fn list_share(alloc: Global, view: &View, share: usize, step: usize) -> Share
    requires { share + 1 < 2 ^ 64 }
    ensures { IfOk result
        (IsShareOf view.now (first_of view.now step share) (first_of view.now step (share + 1))) }
{
    let from = first_of(view, step, share);
    let to = first_of(view, step, share + 1);
    list_files(alloc, view, from, to)
}

/// The number of the first file of the share with that number; how many files are seen, where there is none.
fn first_of(view: &View, step: usize, share: usize) -> u32
    ensures first { result ≡ first_of view.now step share }
    ensures within { result ≤ length view.now }
{
    share.saturating_mul(step).min(view.row_count() as usize) as u32
}

/// What the files from that number on and before the other tell, in order. The one error is want of memory.
fn list_files(alloc: Global, view: &View, from: u32, to: u32) -> Share
    requires { to ≤ length view.now }
    ensures { IfOk result (IsShareOf view.now from to) }
{
    let mut root = Part::new(alloc);
    let mut stack = Part::new(alloc);
    for file in from..to {
        let paths = view.paths(file).get();
        root.add(alloc, paths.root_ends(), file)?;
        stack.add(alloc, paths.stack_ends(), file)?;
    }
    root.sort();
    stack.sort();
    Ok((root, stack))
}

/// The index, of all shares. The one error is want of memory.
fn together(
    alloc: Global,
    _view: &View,
    _step: usize,
    shares: Vec<Share>,
) -> Result<EndIndex, AllocError>
    requires all { length _view.now ≤ vec_len shares * _step }
    requires shares { (i : ℕ) (d : _) → i < vec_len shares
        → IfOk (slice_index_or shares.items i d) (IsShareOf _view.now
        (first_of _view.now _step i) (first_of _view.now _step (i + 1))) }
    ensures { IfOk result (IsEndIndexOf _view.now) }
{
    let mut all = EndIndex::new(alloc);
    let mut place = 0;
    for share in shares {
        add_share(_view, _step, place, share, &mut all)?;
        place += 1;
    }
    Ok(all)
}

/// Adds the share at that place, those before it being added. The error is the share's, or want of memory.
fn add_share(
    _view: &View,
    _step: usize,
    _place: usize,
    share: Share,
    all: &mut EndIndex,
) -> Result<(), AllocError>
    requires share { IfOk share (IsShareOf _view.now
        (first_of _view.now _step _place) (first_of _view.now _step (_place + 1))) }
    requires before { IsIndexOfFirst _view.now (first_of _view.now _step _place) all.old }
    ensures { OnOk result
        (IsIndexOfFirst _view.now (first_of _view.now _step (_place + 1)) all.new) }
{
    let (root, stack) = share?;
    all.add(root, stack)?;
    Ok(())
}
