ghost use Rattle.std.specs.Prelude.{◌≡◌, ℕ, ◌<◌, ◌≤◌, ◌^◌, length, not, position, slice_get, nat_lt, IfSome, IsSomeAnd, OnSome};
ghost use Rattle.graph_nodes.specs.{declared.node.Node.{Node}, declared.node.Edge.{Edge}, Graph.{has_place, is_exported}, Checked.{has_ends, is_jump, has_scope, graph_fault}};

use crate::fault::GraphFault;
use crate::graph::{MAX_EDGES, MAX_NODES};
use crate::node::{Edge, Node, NodeKind, Place};

/// The first fault of these lists, in the order of the variants of `GraphFault`.
pub fn first_fault(nodes: &[Node], edges: &[Edge]) -> Option<GraphFault>
    requires nodes { length nodes.now < 2 ^ 32 }
    requires edges { length edges.now < 2 ^ 32 }
    ensures { result ≡ graph_fault nodes.now edges.now }
{
    // The numbers come first, so that no list that is too long is gone over.
    if nodes.len() > MAX_NODES {
        return Some(GraphFault::TooManyNodes(nodes.len() as u32));
    }
    if edges.len() > MAX_EDGES {
        return Some(GraphFault::TooManyEdges(edges.len() as u32));
    }
    if let Some(e) = bad_end(nodes.len(), edges) {
        return Some(GraphFault::BadEnd(e as u32));
    }
    if let Some(e) = jump_source(edges) {
        return Some(GraphFault::JumpSource(e as u32));
    }
    if let Some(n) = bad_scope(nodes) {
        return Some(GraphFault::BadScope(n as u32));
    }
    None
}

/// The first edge with an end that isn't there, among so many nodes.
fn bad_end(count: usize, edges: &[Edge]) -> Option<usize>
    ensures value { result ≡ position (λ (e : Edge). not (has_ends count e)) edges.now }
    ensures bound { IfSome result (λ e. e < length edges.now) }
{
    edges.iter().position(|e| !has_both_ends(count, e))
}

/// The first edge that leaves jump.
fn jump_source(edges: &[Edge]) -> Option<usize>
    ensures value { result ≡ position (λ (e : Edge). is_jump e.source) edges.now }
    ensures bound { IfSome result (λ e. e < length edges.now) }
{
    edges.iter().position(|e| is_the_jump(e.source))
}

/// The first push_scoped node whose scope isn't an exported scope.
fn bad_scope(nodes: &[Node]) -> Option<usize>
    ensures value { result ≡ position (λ (n : Node). not (has_scope nodes.now n.kind)) nodes.now }
    ensures bound { IfSome result (λ n. n < length nodes.now) }
{
    nodes.iter().position(|n| !has_its_scope(nodes, &n.kind))
}

fn has_both_ends(count: usize, edge: &Edge) -> bool
    ensures { result ≡ has_ends count edge.now }
{
    is_there(count, edge.source) && is_there(count, edge.sink)
}

fn is_there(count: usize, place: Place) -> bool
    ensures { result ≡ has_place count place }
{
    match place {
        Place::Root | Place::Jump => true,
        Place::At(n) => (n as usize) < count,
    }
}

fn is_the_jump(place: Place) -> bool
    ensures { result ≡ is_jump place }
{
    match place {
        Place::Jump => true,
        Place::Root | Place::At(_) => false,
    }
}

fn has_its_scope(nodes: &[Node], kind: &NodeKind) -> bool
    ensures { result ≡ has_scope nodes.now kind.now }
{
    match kind {
        NodeKind::PushScoped { scope, .. } => is_exported_at(nodes, *scope as usize),
        NodeKind::Scope { .. }
        | NodeKind::Push { .. }
        | NodeKind::Pop { .. }
        | NodeKind::PopScoped { .. }
        | NodeKind::Drops => true,
    }
}

/// Whether an exported scope stands at the position; false past the last node.
fn is_exported_at(nodes: &[Node], n: usize) -> bool
    ensures { result ≡ is_exported nodes.now n }
{
    match nodes.get(n) {
        Some(node) => node.kind.is_exported(),
        None => false,
    }
}
