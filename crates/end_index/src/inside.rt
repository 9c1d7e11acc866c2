//! The paths of a file that end at one of its nodes, whatever the stack.
ghost use Rattle.std.specs.Prelude.{◌≡◌, [], ◌∷◌, drop, filter, MatchOption};
ghost use Rattle.partial_path.specs.{Same.{spot_eq}, Moved.{moved_node, moved_spot}};
ghost use Rattle.partial_path.specs.declared.config.Spot.TheVariants as spots;
ghost use Rattle.root_index.specs.Offers.{files_of};
ghost use Rattle.end_index.specs.Looks.{ends_inside, inside_left};

use crate::nodes::file_in;
use partial_path::{End, Spot, StoredPath, StoredPaths};
use stacks_vars::NodeAt;
use version_tree::View;

/// The first path of the node's file, from that place on, that ends at the node, with the file's number and the place
/// behind it.
pub(crate) fn next_inside(
    view: &View,
    node: NodeAt,
    place: usize,
) -> Option<(u32, StoredPath<'_>, usize)>
    ensures { MatchOption result (inside_left (files_of view.now) node place ≡ [])
        (λ found. inside_left (files_of view.now) node place
        ≡ (found.0, found.1) ∷ inside_left (files_of view.now) node found.2) }
{
    let file = file_in(view, node.file as usize)?;
    match next_ending(&file.paths(), node, place) {
        Some((path, behind)) => Some((node.file, path, behind)),
        None => None,
    }
}

/// The first of the paths of the node's file, from that place on, that ends at the node, and the place behind it.
fn next_ending<'a>(
    paths: &StoredPaths<'a>,
    node: NodeAt,
    place: usize,
) -> Option<(StoredPath<'a>, usize)>
    ensures { MatchOption result (filter (ends_inside (spots.At node) node.file)
        (drop place paths.now) ≡ []) (λ found. filter (ends_inside (spots.At node) node.file)
        (drop place paths.now) ≡ found.0 ∷ filter (ends_inside (spots.At node) node.file)
        (drop found.1 paths.now)) }
{
    for i in place..paths.len() {
        let path = paths.at(i);
        if ends_inside(&path, node.file, Spot::At(node)) {
            return Some((path, i + 1));
        }
    }
    None
}

/// Whether the path of the file with that number ends at the spot, whatever the stack.
pub(crate) fn ends_inside(path: &StoredPath<'_>, file: u32, at: Spot) -> bool
    ensures { result ≡ ends_inside at file path.now }
{
    match path.end() {
        End::At(there) => is_moved_spot(there, file, at),
        End::ByStack => match path.scopes().get(0) {
            Some(scope) => is_moved_node(*scope, file, at),
            None => false,
        },
    }
}

/// Whether the spot of the file with that number is the other.
fn is_moved_spot(there: Spot, file: u32, at: Spot) -> bool
    ensures { result ≡ spot_eq (moved_spot file there) at }
{
    match (there, at) {
        (Spot::Root, Spot::Root) => true,
        (Spot::Root, Spot::At(_)) => false,
        (Spot::At(node), _) => is_moved_node(node, file, at),
    }
}

/// Whether the node of the file with that number is at the spot.
fn is_moved_node(node: NodeAt, file: u32, at: Spot) -> bool
    ensures { result ≡ spot_eq (spots.At (moved_node file node)) at }
{
    match at {
        Spot::Root => false,
        Spot::At(other) => {
            file as u64 + node.file as u64 == other.file as u64 && node.node == other.node
        }
    }
}
