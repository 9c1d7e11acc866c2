//! The nodes of the files that a user sees.
ghost use Rattle.std.specs.Prelude.{◌≡◌, ◌<◌, ◌^◌, slice_get, option_copied, IfSome};
ghost use Rattle.partial_path.specs.Sources.{graphs_of};
ghost use Rattle.root_index.specs.Offers.{files_of};
ghost use Rattle.back_stitch.specs.{Cuts.{is_exported_of}, Sources.{is_exported_spot}};

use partial_path::{FilePaths, Spot};
use stacks_vars::NodeAt;
use version_tree::View;

/// The paths of the file with that number; None where there is none.
pub fn file_in(view: &View, file: usize) -> Option<&FilePaths>
    ensures value { option_copied result ≡ slice_get (files_of view.now) file }
    ensures small { IfSome result (λ _. file < 2 ^ 32) }
{
    if file < view.row_count() as usize {
        Some(view.paths(file as u32).get())
    } else {
        None
    }
}

/// Whether the spot is an exported scope.
pub(crate) fn is_exported_spot(view: &View, spot: Spot) -> bool
    ensures { result ≡ is_exported_spot (graphs_of (files_of view.now)) spot }
{
    match spot {
        Spot::Root => false,
        Spot::At(node) => is_exported(view, node),
    }
}

/// Whether the node is an exported scope of its file; false where there is no such file or node.
pub(crate) fn is_exported(view: &View, at: NodeAt) -> bool
    ensures { result ≡ is_exported_of (graphs_of (files_of view.now)) at.file at.node }
{
    match file_in(view, at.file as usize) {
        Some(file) => file.is_exported(at.node),
        None => false,
    }
}
