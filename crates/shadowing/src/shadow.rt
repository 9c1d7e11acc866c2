ghost use Rattle.std.specs.{Prelude.{◌≡◌, ◌↔◌, List, Bool, false, map, IfOk, IsTrue, Contains}, List.Sorted.{IsSortedBy}, Ordering.{is_lt}};
ghost use Rattle.shadowing.specs.{declared.paths.EdgeStep.{EdgeStep}, Shadow.{same_step, shadows, is_shadowed, unshadowed}, Ranks.{by_rank}};

use crate::paths::{EdgeList, EdgeStep};
use std::alloc::{AllocError, Global};
use std::cmp::Ordering;

/// The paths that no path of the list shadows, each as often as it stood, in the list's order. The one
/// error is want of memory. The paths are sorted, so it takes a number of comparisons that grows as
/// n log n with the number of paths; each costs the length up to which the two agree.
pub fn unshadowed(alloc: Global, paths: Vec<EdgeList>) -> Result<Vec<EdgeList>, AllocError>
    ensures { IfOk result (λ kept. kept.items ≡ unshadowed paths.items) }
{
    let marks = marks_of(alloc, &paths)?;
    keep_unmarked(alloc, paths, &marks)
}

/// For each path, whether one of the list shadows it.
fn marks_of(alloc: Global, paths: &[EdgeList]) -> Result<Vec<bool>, AllocError>
    ensures { IfOk result (λ marks. marks.items ≡ map (is_shadowed paths.now) paths.now) }
{
    let front = front_of(alloc, paths)?;
    let mut marks = Vec::with_capacity(alloc, paths.len())?;
    for path in paths {
        marks.push(!is_among(&front, path))?;
    }
    Ok(marks)
}

/// The paths that none of them shadows, from the highest rank down. A path that is shadowed at all is
/// shadowed by the last one before it that is not.
fn front_of<'a>(alloc: Global, paths: &'a [EdgeList]) -> Result<Vec<&'a EdgeList>, AllocError>
    ensures ranked { IfOk result
        (λ front. IsSortedBy (λ a b. is_lt (by_rank a.now b.now)) front.items) }
    ensures exact { IfOk result (λ front. (path : List EdgeStep)
        → Contains (map (λ p. p.now) front.items) path
        ↔ (Contains paths.now path × (is_shadowed paths.now path ≡ false))) }
{
    let mut front = refs_of(alloc, paths)?;
    front.sort_unstable_by(|a, b| compare(a, b));
    // One pass serves: what stands between a path and one that it shadows is shadowed by the first, or shadows the
    // second.
    front.dedup_by(|path, last| shadows(last.items(), path.items()));
    Ok(front)
}

/// A reference to each path.
fn refs_of<'a>(alloc: Global, paths: &'a [EdgeList]) -> Result<Vec<&'a EdgeList>, AllocError>
    ensures { IfOk result (λ refs. map (λ p. p.now) refs.items ≡ paths.now) }
{
    paths.iter().collect(alloc)
}

/// Whether the path is one of these, which are in order.
fn is_among(front: &[&EdgeList], path: &EdgeList) -> bool
    requires { IsSortedBy (λ a b. is_lt (by_rank a.now b.now)) front.now }
    ensures { IsTrue result ↔ Contains (map (λ p. p.now) front.now) path.now }
{
    front.binary_search_by(|other| compare(other, path)).is_ok()
}

/// Which of two paths has the higher rank: `Less` where the first has.
fn compare(a: &EdgeList, b: &EdgeList) -> Ordering
    ensures { result ≡ by_rank a.now b.now }
{
    b.items().cmp(a.items())
}

/// The paths without those that are marked, where the shadowed ones are. They are moved, so no step is copied.
pub(crate) fn keep_unmarked(
    alloc: Global,
    paths: Vec<EdgeList>,
    marks: &[bool],
) -> Result<Vec<EdgeList>, AllocError>
    requires { marks.now ≡ map (is_shadowed paths.items) paths.items }
    ensures { IfOk result (λ kept. kept.items ≡ unshadowed paths.items) }
{
    let mut kept = Vec::new(alloc);
    let mut rest = paths.into_iter();
    for mark in marks {
        let Some(path) = rest.next() else {
            break;
        };
        if !*mark {
            kept.push(path)?;
        }
    }
    Ok(kept)
}

/// Whether the first path shadows the second.
pub(crate) fn shadows(first: &[EdgeStep], second: &[EdgeStep]) -> bool
    ensures { result ≡ shadows first.now second.now }
{
    for (x, y) in first.iter().zip(second) {
        if !is_same(x, y) {
            return y.precedence < x.precedence;
        }
    }
    false
}

/// Whether two steps are equal.
fn is_same(a: &EdgeStep, b: &EdgeStep) -> bool
    ensures { result ≡ same_step a.now b.now }
{
    a.edge.file == b.edge.file && a.edge.edge == b.edge.edge && a.precedence == b.precedence
}
