ghost use Rattle.std.specs.{Prelude.{◌≡◌, ◌^◌, ◌<◌, length, vec_len, map, IfOk}, Option.{option_copied}};
ghost use Rattle.graph_json.specs.{Collect.{TextGives, collected}, Plain.{bad_node, bad_edge}, Named.{node_among, edge_among}};
ghost use Rattle.serde_json.specs.View.{view};

use crate::edge::plain_edge;
use crate::fault::{GraphTextFault, Part};
use crate::named::{named_edge, named_node};
use crate::names::Names;
use crate::node::plain_node;
use graph_nodes::{Edge, Node};
use serde_json::Value;
use std::alloc::{AllocError, Global};

/// A node of format 2 where there are names, else of format 1.
fn node_among(alloc: Global, v: &Value, names: Option<&Names>) -> Result<Option<Node>, AllocError>
    ensures { IfOk result (λ n. n ≡ node_among (option_copied names.entry) (view v.now)) }
{
    match names {
        Some(names) => named_node(alloc, v, names),
        None => plain_node(alloc, v),
    }
}

/// An edge, likewise.
fn edge_among(v: &Value, names: Option<&Names>) -> Option<Edge>
    ensures { result ≡ edge_among (option_copied names.entry) (view v.now) }
{
    match names {
        Some(names) => named_edge(v, names),
        None => plain_edge(v),
    }
}

/// The nodes, up to the first that has a wrong form. Positions fit 32 bits, since an array has no more items than its
/// text has bytes.
pub(crate) fn all_nodes(
    alloc: Global,
    values: &[Value],
    names: Option<&Names>,
) -> Result<Vec<Node>, GraphTextFault>
    requires { length values.now < 2 ^ 32 }
    ensures gives { TextGives (λ v. v.items) result (collected bad_node
        (map (node_among (option_copied names.entry)) (map view values.now))) }
    ensures short { IfOk result (λ v. vec_len v < 2 ^ 32) }
{
    let mut nodes = Vec::new(alloc);
    for (i, value) in values.iter().enumerate() {
        match node_among(alloc, value, names)? {
            Some(node) => nodes.push(node)?,
            None => return Err(GraphTextFault::BadShape(Part::Node(i as u32))),
        }
    }
    Ok(nodes)
}

/// The edges, likewise.
pub(crate) fn all_edges(
    alloc: Global,
    values: &[Value],
    names: Option<&Names>,
) -> Result<Vec<Edge>, GraphTextFault>
    requires { length values.now < 2 ^ 32 }
    ensures gives { TextGives (λ v. v.items) result (collected bad_edge
        (map (edge_among (option_copied names.entry)) (map view values.now))) }
    ensures short { IfOk result (λ v. vec_len v < 2 ^ 32) }
{
    let mut edges = Vec::new(alloc);
    for (i, value) in values.iter().enumerate() {
        match edge_among(value, names) {
            Some(edge) => edges.push(edge)?,
            None => return Err(GraphTextFault::BadShape(Part::Edge(i as u32))),
        }
    }
    Ok(edges)
}
