//! Where the paths of a list of files may end, and what its nodes are.
ghost use Rattle.std.specs.Prelude.{◌≡◌};
ghost use Rattle.graph_nodes.specs.Whole.{is_definition_of};
ghost use Rattle.partial_path.specs.{Same.{spot_eq}, Moved.{moved, moved_node, moved_spot}, Sources.{graphs_of}};
ghost use Rattle.partial_path.specs.declared.config.Spot.TheVariants as spots;
ghost use Rattle.back_stitch.specs.{Cuts.{is_exported_of}, Sources.{is_exported_spot, may_end_at}};

use partial_path::{End, FilePaths, Spot, StoredPath};
use stacks_vars::NodeAt;

/// Whether the path of the file with that number may end at the spot.
pub fn may_end(files: &[FilePaths], number: u32, path: &StoredPath<'_>, spot: Spot) -> bool
    ensures { result ≡ may_end_at (graphs_of files.now) spot (moved number path.now) }
{
    match path.end() {
        End::At(there) => is_moved_spot(number, there, spot),
        End::ByStack => match path.scopes().get(0) {
            Some(scope) => is_moved_node(number, *scope, spot),
            None => is_exported_at(files, spot),
        },
    }
}

/// Whether the spot of the file with that number is the other.
fn is_moved_spot(number: u32, there: Spot, spot: Spot) -> bool
    ensures { result ≡ spot_eq (moved_spot number there) spot }
{
    match (there, spot) {
        (Spot::Root, Spot::Root) => true,
        (Spot::Root, Spot::At(_)) => false,
        (Spot::At(node), _) => is_moved_node(number, node, spot),
    }
}

/// Whether the node of the file with that number is at the spot.
fn is_moved_node(number: u32, node: NodeAt, spot: Spot) -> bool
    ensures { result ≡ spot_eq (spots.At (moved_node number node)) spot }
{
    match spot {
        Spot::Root => false,
        Spot::At(other) => {
            number as u64 + node.file as u64 == other.file as u64 && node.node == other.node
        }
    }
}

/// Whether the spot is an exported scope of the files.
fn is_exported_at(files: &[FilePaths], spot: Spot) -> bool
    ensures { result ≡ is_exported_spot (graphs_of files.now) spot }
{
    match spot {
        Spot::Root => false,
        Spot::At(node) => is_exported_in(files, node),
    }
}

/// Whether the node is an exported scope of its file.
pub fn is_exported_in(files: &[FilePaths], at: NodeAt) -> bool
    ensures { result ≡ is_exported_of (graphs_of files.now) at.file at.node }
{
    match files.get(at.file as usize) {
        Some(file) => file.is_exported(at.node),
        None => false,
    }
}

/// Whether the node is a definition of its file; false where there is no such file or node.
pub fn is_definition_in(files: &[FilePaths], at: NodeAt) -> bool
    ensures { result ≡ is_definition_of (graphs_of files.now) at.file at.node }
{
    match files.get(at.file as usize) {
        Some(file) => file.is_definition(at.node),
        None => false,
    }
}
