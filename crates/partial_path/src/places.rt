ghost use Rattle.std.specs.{Prelude.{◌≡◌, ◌↔◌, ◌&&◌, nat_eq, length, IsTrue, option_copied}, Option.{option_map}};
ghost use Rattle.graph_nodes.specs.{declared.node.Node.{Node}, Whole.{node_of, edge_of, is_definition_of}};
ghost use Rattle.partial_path.specs.{Spots.{is_definition_spot}, Runs.{IsAtDefinition}};

use crate::config::{Config, EdgeAt, Spot};
use graph_nodes::{Edge, FileGraph, NodeKind};
use stacks_vars::NodeAt;

/// The kind of the node of the files; None where there is none.
pub fn kind_at(files: &[FileGraph], at: NodeAt) -> Option<&NodeKind>
    ensures { option_copied result
        ≡ option_map (λ (node : Node). node.kind) (node_of files.now at.file at.node) }
{
    let graph = files.get(at.file as usize)?;
    if at.node < graph.node_count() {
        Some(graph.kind(at.node))
    } else {
        None
    }
}

/// The edge of the files; None where there is none.
pub fn edge_at(files: &[FileGraph], at: EdgeAt) -> Option<Edge>
    ensures { result ≡ edge_of files.now at.file at.edge }
{
    let graph = files.get(at.file as usize)?;
    if at.edge < graph.edge_count() {
        Some(graph.edge(at.edge))
    } else {
        None
    }
}

/// Whether the spot is a definition of the files.
pub fn is_definition_spot(files: &[FileGraph], spot: Spot) -> bool
    ensures { result ≡ is_definition_spot files.now spot }
{
    let Spot::At(at) = spot else {
        return false;
    };
    match files.get(at.file as usize) {
        Some(graph) => graph.is_definition(at.node),
        None => false,
    }
}

/// Whether the configuration is a result: at a definition of the files, with no symbols left.
pub fn is_at_definition(files: &[FileGraph], at: &Config) -> bool
    ensures value { result
        ≡ (is_definition_spot files.now at.now.spot && nat_eq (length at.now.stacks.symbols) 0) }
    ensures exact { IsTrue result ↔ IsAtDefinition files.now at.now }
{
    is_definition_spot(files, at.spot) && at.stacks.symbols.len() == 0
}
