ghost use Rattle.std.specs.{Prelude.{◌≡◌, ◌^◌, ◌<◌, length, map, position, codes, IfSome}, List.{enumerate_from}};
ghost use Rattle.serde_json.specs.View.{view};
ghost use Rattle.graph_json.specs.Named as named;

use crate::fault::{GraphTextFault, Part};
use crate::names::{Names, item_name, member_name};
use serde_json::Value;

fn lacks_scope(names: &Names, node: &Value) -> bool
    ensures { result ≡ named.has_unknown_scope names.now (view node.now) }
{
    names.lacks(member_name(node, "scope"))
}

fn lacks_end(names: &Names, edge: &Value) -> bool
    ensures { result ≡ named.has_unknown_end names.now (view edge.now) }
{
    names.lacks(item_name(edge, 0)) || names.lacks(item_name(edge, 1))
}

/// The first node whose name an earlier node has.
fn first_repeat(names: &Names, nodes: &[Value]) -> Option<usize>
    ensures value { result ≡ position
        (λ p. named.is_repeat names.now p.0 (named.name_in (codes "name") (view p.1)))
        (enumerate_from 0 nodes.now) }
    ensures bound { IfSome result (λ n. n < length nodes.now) }
{
    nodes
        .iter()
        .enumerate()
        .position(|(n, node)| names.repeats(n, node))
}

/// The first node with a scope that no node has as its name; it may be the name of a later one.
fn first_unknown_scope(names: &Names, nodes: &[Value]) -> Option<usize>
    ensures value { result ≡ position (λ v. named.has_unknown_scope names.now (view v)) nodes.now }
    ensures bound { IfSome result (λ n. n < length nodes.now) }
{
    nodes.iter().position(|node| lacks_scope(names, node))
}

/// The first edge with an end that no node has as its name.
fn first_unknown_end(names: &Names, edges: &[Value]) -> Option<usize>
    ensures value { result ≡ position (λ v. named.has_unknown_end names.now (view v)) edges.now }
    ensures bound { IfSome result (λ e. e < length edges.now) }
{
    edges.iter().position(|edge| lacks_end(names, edge))
}

/// The first fault of the names: a name that stands twice, then a node's, then an edge's. In that order, since a name is
/// unknown or known only among names that are told apart.
pub(crate) fn name_fault(names: &Names, nodes: &[Value], edges: &[Value]) -> Option<GraphTextFault>
    requires names { names.now ≡ named.names_of (map view nodes.now) }
    requires nodes { length nodes.now < 2 ^ 32 }
    requires edges { length edges.now < 2 ^ 32 }
    ensures { result ≡ named.name_fault names.now (map view nodes.now) (map view edges.now) }
{
    if let Some(n) = first_repeat(names, nodes) {
        return Some(GraphTextFault::SameName(n as u32));
    }
    if let Some(n) = first_unknown_scope(names, nodes) {
        return Some(GraphTextFault::UnknownName(Part::Node(n as u32)));
    }
    if let Some(e) = first_unknown_end(names, edges) {
        return Some(GraphTextFault::UnknownName(Part::Edge(e as u32)));
    }
    None
}
