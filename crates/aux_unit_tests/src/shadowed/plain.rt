//! The plain body of `unshadowed`, which compares every two paths.
ghost use Rattle.std.specs.Prelude.{◌≡◌, map, IfOk};
ghost use Rattle.shadowing.specs.Shadow.{same_step, shadows, is_shadowed, unshadowed};

use shadowing::{EdgeList, EdgeStep};
use std::alloc::{AllocError, Global};

/// The paths that no path of the list shadows, as often as they stand, in the list's order.
pub(crate) fn plain_unshadowed<'a>(
    alloc: Global,
    paths: &'a [EdgeList],
) -> Result<Vec<&'a EdgeList>, AllocError>
    ensures { IfOk result (λ kept. map (λ p. p.now) kept.items ≡ unshadowed paths.now) }
{
    paths
        .iter()
        .filter(|path| !is_shadowed(paths, path))
        .collect(alloc)
}

/// Whether one of the paths shadows this one.
fn is_shadowed(paths: &[EdgeList], path: &EdgeList) -> bool
    ensures { result ≡ is_shadowed paths.now path.now }
{
    paths
        .iter()
        .any(|other| shadows(other.items(), path.items()))
}

/// Whether the first path shadows the second.
fn shadows(first: &[EdgeStep], second: &[EdgeStep]) -> bool
    ensures { result ≡ shadows first.now second.now }
{
    let [x, xs @ ..] = first else {
        return false;
    };
    let [y, ys @ ..] = second else {
        return false;
    };
    if is_same(x, y) {
        shadows(xs, ys)
    } else {
        y.precedence < x.precedence
    }
}

/// Whether two steps are equal.
fn is_same(a: &EdgeStep, b: &EdgeStep) -> bool
    ensures { result ≡ same_step a.now b.now }
{
    a.edge.file == b.edge.file && a.edge.edge == b.edge.edge && a.precedence == b.precedence
}
