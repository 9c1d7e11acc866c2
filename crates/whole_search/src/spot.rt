ghost use Rattle.std.specs.Prelude.{◌≡◌};
ghost use Rattle.partial_path.specs.Step.{is_cut_edge};
ghost use Rattle.whole_search.specs.Walk.{is_at_definition, ends_cut};

use graph_nodes::FileGraph;
use partial_path::{Config, EdgeAt, is_cut_edge, is_definition_spot};

/// Whether the configuration is a result: at a definition, with no symbols left.
pub fn is_at_definition(files: &[FileGraph], at: &Config) -> bool
    ensures { result ≡ is_at_definition files.now at.now }
{
    is_definition_spot(files, at.spot) && at.stacks.symbols.is_empty()
}

/// Whether the last edge is a cut edge.
pub fn ends_cut(files: &[FileGraph], edges: &[EdgeAt]) -> bool
    ensures { result ≡ ends_cut files.now edges.now }
{
    match edges.last() {
        Some(edge) => is_cut_edge(files, *edge),
        None => false,
    }
}
