//! All paths that may end at a spot, one by one.
ghost use Rattle.std.specs.Prelude.{◌≡◌, ◌+◌, length, filter, slice_get, IfNone};
ghost use Rattle.partial_path.specs.{Moved.{moved}, Sources.{graphs_of}};
ghost use Rattle.root_index.specs.Offers.{files_of};
ghost use Rattle.back_stitch.specs.Sources.{may_end_at, rules_to};

use crate::inside::ends_inside;
use crate::nodes::is_exported_spot;
use partial_path::{Spot, StoredPath, StoredPaths, ends_by_stack};
use version_tree::View;

/// The path at place `k` of those that may end at the spot, with its file's number. It goes over all paths.
pub(crate) fn path_to(view: &View, spot: Spot, k: usize) -> Option<(u32, StoredPath<'_>)>
    ensures { result ≡ slice_get (rules_to (files_of view.now) spot) k }
{
    let mut left = k;
    for file in 0..view.row_count() {
        let paths = view.paths(file).get().paths();
        if let Some(path) = ending(view, file, &paths, spot, &mut left) {
            return Some((file, path));
        }
    }
    None
}

/// The path at place `left` of those of the file with that number that may end at the spot. Where there is none, `left`
/// falls by their number.
fn ending<'a>(
    view: &View,
    file: u32,
    paths: &StoredPaths<'a>,
    spot: Spot,
    left: &mut usize,
) -> Option<StoredPath<'a>>
    ensures found { result
        ≡ slice_get (filter
        (λ rule. may_end_at (graphs_of (files_of view.now)) spot
        (moved file rule)) paths.now) left.old }
    ensures rest { IfNone result (left.new + length (filter
        (λ rule. may_end_at (graphs_of (files_of view.now)) spot (moved file rule)) paths.now)
        ≡ left.old) }
{
    for place in 0..paths.len() {
        let path = paths.at(place);
        if !may_end(view, file, &path, spot) {
            continue;
        }
        if *left == 0 {
            return Some(path);
        }
        *left -= 1;
    }
    None
}

/// Whether the path of the file with that number may end at the spot.
fn may_end(view: &View, file: u32, path: &StoredPath<'_>, spot: Spot) -> bool
    ensures { result ≡ may_end_at (graphs_of (files_of view.now)) spot (moved file path.now) }
{
    if ends_by_stack(path) {
        is_exported_spot(view, spot)
    } else {
        ends_inside(path, file, spot)
    }
}
