ghost use Rattle.std.specs.Prelude.{◌≡◌, ◌≤◌, ◌<◌, ◌+◌, ◌^◌, ◌&&◌, ℕ, nat_le, length, IfSome};
ghost use Rattle.partial_path.specs.{Apply.{height}, Moved.{moved, moved_end, FitsEnd}, Sources.{graphs_of}, Laws.{IsSpotOf}};
ghost use Rattle.stitcher.specs.{Ends.{IsEndOf, end_cut, may_land}, Joins.{is_at_cut, is_at_result}};

use crate::search::Search;
use partial_path::{End, LentConfig, PathSource, Spot, StoredPath};
use stacks_vars::NodeAt;

/// Whether runs are within the search's bounds with a path more, which meets the configuration where they stand:
/// whether they have few enough edges with it, and it isn't too high there. In any case so many edges can be counted.
pub fn is_within<P: PathSource>(
    search: &Search<'_, P>,
    edges: usize,
    path: &StoredPath<'_>,
    at: &LentConfig<'_>,
) -> bool
    requires met { length path.now.pre.symbols ≤ length at.now.stacks.symbols }
    requires few { edges ≤ search.now.bounds.edges }
    ensures counts { edges + length path.now.edges < 2 ^ 64 }
    ensures within { (base : ℕ)
        → result
        ≡ (nat_le (edges + length path.now.edges) search.now.bounds.edges && nat_le
        (height (moved base path.now) at.now) search.now.bounds.depth) }
{
    let bounds = search.bounds;
    let left = at.symbols().len() - path.asked().len();
    path.edge_numbers().len() <= bounds.edges as usize - edges
        && path.peak() <= bounds.depth
        && left <= (bounds.depth - path.peak()) as usize
}

/// Whether runs are cut where a path of the file ends; None where the stack tells where that is.
pub fn is_cut_end<P: PathSource>(
    search: &Search<'_, P>,
    file: u32,
    path: &StoredPath<'_>,
) -> Option<bool>
    requires fits { FitsEnd file path.now.end }
    requires spot { IsEndOf (graphs_of search.now.files) (moved_end file path.now.end) }
    ensures { result ≡ end_cut (graphs_of search.now.files) (moved_end file path.now.end) }
{
    match path.end() {
        End::At(Spot::At(end)) => Some(
            search.source.is_cut(&NodeAt {
                file: file + end.file,
                node: end.node,
            }),
        ),
        End::At(Spot::Root) => Some(true),
        End::ByStack => None,
    }
}

/// Whether anything can come of a run with the path, told whether it ends at a cut, where that is known. It costs two
/// comparisons.
pub fn may_land(cut: Option<bool>, path: &StoredPath<'_>, at: &LentConfig<'_>) -> bool
    ensures { result ≡ may_land cut path.now at.now }
{
    cut.unwrap_or(true) || (path.made().is_empty() && path.asked().len() == at.symbols().len())
}

/// Whether a run that lands there is cut there; it may be known.
pub fn is_at_cut<P: PathSource>(
    search: &Search<'_, P>,
    known: Option<bool>,
    at: &LentConfig<'_>,
) -> bool
    requires known { IfSome known (λ cut. cut ≡ is_at_cut search.now at.now) }
    requires spot { IsSpotOf (graphs_of search.now.files) at.now.spot }
    ensures { result ≡ is_at_cut search.now at.now }
{
    match (known, at.spot()) {
        (Some(cut), _) => cut,
        (None, Spot::Root) => true,
        (None, Spot::At(node)) => search.source.is_cut(&node),
    }
}

/// Whether a run that lands there has its definition.
pub fn is_at_result<P: PathSource>(search: &Search<'_, P>, at: &LentConfig<'_>) -> bool
    requires { IsSpotOf (graphs_of search.now.files) at.now.spot }
    ensures { result ≡ is_at_result search.now at.now }
{
    match at.spot() {
        Spot::Root => false,
        Spot::At(node) => at.symbols().is_empty() && search.source.is_definition(&node),
    }
}
