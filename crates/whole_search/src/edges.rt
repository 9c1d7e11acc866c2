ghost use Rattle.std.specs.Prelude.{◌≡◌, ◌<◌, ◌^◌, ◌++◌, length, IfOk, OnOk};
ghost use Rattle.graph_nodes.specs.Graph.{has_place};
ghost use Rattle.whole_search.specs.Walk.{out, out_of_file, out_of_root};

use graph_nodes::{FileGraph, Place};
use partial_path::{EdgeAt, Spot};
use std::alloc::{AllocError, Global};

/// The edges that leave the spot, by file and then by position; the one error is want of memory. It takes
/// time that follows their number, and at the root also the number of files.
pub fn edges_out(alloc: Global, files: &[FileGraph], spot: Spot) -> Result<Vec<EdgeAt>, AllocError>
    requires { length files.now < 2 ^ 32 }
    ensures { IfOk result (λ edges. edges.items ≡ out files.now spot) }
{
    match spot {
        Spot::Root => edges_out_of_root(alloc, files),
        Spot::At(at) => {
            let mut edges = Vec::new(alloc);
            if let Some(graph) = files.get(at.file as usize) {
                push_edges(at.file, graph, Place::At(at.node), &mut edges)?;
            }
            Ok(edges)
        }
    }
}

/// The edges that leave the root.
fn edges_out_of_root(alloc: Global, files: &[FileGraph]) -> Result<Vec<EdgeAt>, AllocError>
    requires { length files.now < 2 ^ 32 }
    ensures { IfOk result (λ edges. edges.items ≡ out_of_root 0 files.now) }
{
    let mut edges = Vec::new(alloc);
    for (file, graph) in files.iter().enumerate() {
        push_edges(file as u32, graph, Place::Root, &mut edges)?;
    }
    Ok(edges)
}

/// Adds the edges of this file's graph that leave the place.
fn push_edges(
    file: u32,
    graph: &FileGraph,
    place: Place,
    edges: &mut Vec<EdgeAt>,
) -> Result<(), AllocError>
    ensures { OnOk result (edges.new.items ≡ edges.old.items ++ out_of_file file place graph.now) }
{
    let count = graph.node_count();
    if !has_place(count, place) {
        return Ok(());
    }
    for edge in graph.edges_from(place) {
        edges.push(EdgeAt { file, edge })?;
    }
    Ok(())
}

/// Whether the place is there, among so many nodes.
fn has_place(count: u32, place: Place) -> bool
    ensures { result ≡ has_place count place }
{
    match place {
        Place::Root | Place::Jump => true,
        Place::At(n) => n < count,
    }
}
