//! Files without edges, whose path set is known at once.
ghost use Rattle.std.specs.Prelude.{◌≡◌, []};

use graph_nodes::{FileGraph, Node, NodeKind};
use partial_path::{FilePaths, SharedPaths, no_edges_no_walks};
use std::alloc::{AllocError, Global};
use std::test::Fail;

/// The file of this graph, which has no edges. The one error is want of memory.
fn without_edges(alloc: Global, graph: FileGraph) -> Result<FilePaths, AllocError>
    requires { graph.edges ≡ [] }
{
    no_edges_no_walks();
    FilePaths::new(graph, Vec::new(alloc), 0)
}

/// A file of so many nodes, at most 100, and no edges.
pub(crate) fn paths_of(alloc: Global, count: u32) -> Result<SharedPaths, Fail> {
    let mut nodes = Vec::new(alloc);
    for _ in 0..count.min(100) {
        nodes.push(Node {
            kind: NodeKind::Drops,
            span: None,
        })?;
    }
    if nodes.len() > 100 {
        return Err(Fail::new("too many nodes"));
    }
    match FileGraph::check(alloc, nodes, Vec::new(alloc)) {
        Ok(graph) => Ok(SharedPaths::of(alloc, without_edges(alloc, graph)?)?),
        Err(_) => Err(Fail::new("the nodes make no graph")),
    }
}
