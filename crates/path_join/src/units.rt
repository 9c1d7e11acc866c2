ghost use Rattle.std.specs.Prelude.{◌≡◌, [], ◌∷◌, ◌<◌, ◌≤◌, length, slice_get, IfOk, IsTrue, Some, false};
ghost use Rattle.graph_nodes.specs.{Graph.{is_reference, has_place}, Checked.{is_jump}};
ghost use Rattle.partial_path.specs.{declared.rule.Start.TheVariants.{Before}, Spots.{node_at}, FileNumbers.{IsOfFileZero}, PathSets.{IsRuleOf}};
ghost use Rattle.path_join.specs.Units.{place_spot, place_rule, edge_alone, after_source};

use crate::entering::{entering, passing};
use graph_nodes::{Edge, FileGraph, Place};
use partial_path::{EdgeAt, End, PartialPath, Spot, Start};
use stacks_vars::NodeAt;
use std::alloc::{AllocError, Global};

/// For how many edges a path has room at first that starts after a place: most grow to about so many.
const EDGES_ROOM: usize = 3;

/// For how many one has room that starts before a reference: it mostly pushes some symbols more on its way.
const OPENING_ROOM: usize = 6;

/// The partial path of one edge of the file, from after its source: applied to any configuration it does
/// what following the edge does. The one error is want of memory.
pub fn unit(alloc: Global, graph: &FileGraph, edge: u32) -> Result<PartialPath, AllocError>
    requires { edge < length graph.now.edges }
    ensures start { IfOk result (λ path. after_source graph.now edge ≡ Some path.start) }
    ensures edges { IfOk result (λ path. path.edges ≡ edge_alone edge ∷ []) }
    ensures peak { IfOk result (λ path. path.peak ≤ 1) }
    ensures rule { IfOk result (IsRuleOf graph.now) }
    ensures files { IfOk result IsOfFileZero }
{
    let found = edge_of(graph, edge);
    let start = Start::After(spot_of(found.source));
    let mut edges = Vec::with_capacity(alloc, EDGES_ROOM)?;
    edges.push(EdgeAt { file: 0, edge })?;
    place_entered(alloc, graph, start, found.sink, edges)
}

/// The partial path without edges that starts before a reference of the file: applied to any configuration
/// it does the reference's push. The one error is want of memory.
pub fn opening(alloc: Global, graph: &FileGraph, node: u32) -> Result<PartialPath, AllocError>
    requires { IsTrue (is_reference graph.now.nodes node) }
    ensures start { IfOk result (λ path. path.start ≡ Before (node_at 0 node)) }
    ensures edges { IfOk result (λ path. path.edges ≡ []) }
    ensures peak { IfOk result (λ path. path.peak ≤ 1) }
    ensures rule { IfOk result (IsRuleOf graph.now) }
    ensures files { IfOk result IsOfFileZero }
{
    let start = Start::Before(NodeAt { file: 0, node });
    let edges = Vec::with_capacity(alloc, OPENING_ROOM)?;
    place_entered(alloc, graph, start, Place::At(node), edges)
}

/// The file's edge: it doesn't leave the jump, and its sink is there.
pub(crate) fn edge_of(graph: &FileGraph, edge: u32) -> Edge
    requires { edge < length graph.now.edges }
    ensures is { slice_get graph.now.edges edge ≡ Some result }
    ensures source { is_jump result.source ≡ false }
    ensures sink { IsTrue (has_place (length graph.now.nodes) result.sink) }
{
    let _ = graph.edge_count();
    graph.edge(edge)
}

/// The path of these edges that enters the place of the file.
fn place_entered(
    alloc: Global,
    graph: &FileGraph,
    start: Start,
    place: Place,
    edges: Vec<EdgeAt>,
) -> Result<PartialPath, AllocError>
    requires { IsTrue (has_place (length graph.now.nodes) place) }
    ensures { IfOk result (λ path. path ≡ place_rule graph.now start place edges.items) }
{
    match place {
        Place::Root => Ok(passing(alloc, start, End::At(Spot::Root), edges)),
        Place::Jump => Ok(passing(alloc, start, End::ByStack, edges)),
        Place::At(node) => {
            let kind = graph.kind(node);
            let end = End::At(Spot::At(NodeAt { file: 0, node }));
            entering(alloc, kind, start, end, edges)
        }
    }
}

/// The spot at a place of a file that stands alone.
pub(crate) fn spot_of(place: Place) -> Spot
    requires { is_jump place ≡ false }
    ensures { place_spot place ≡ Some result }
{
    match place {
        Place::Root => Spot::Root,
        Place::At(node) => Spot::At(NodeAt { file: 0, node }),
        Place::Jump => unreachable!(),
    }
}
