ghost use Rattle.std.specs.Prelude.{◌≡◌, ◌^◌, ◌<◌, length, vec_len, map, option_map, option_and_then, codes, IfOk, IfSome};
ghost use Rattle.serde_json.specs.{Find.{get}, View.{view}};
ghost use Rattle.json_values.specs.Numbers.{u32_of};
ghost use Rattle.graph_json.specs.{Pieces.{HasShortLists}, Collect.{TextGives}, Named.{name_in, number_of, named_node, place_called, named_place_at, named_edge, has_format_2, named_lists, named_parts}};

use crate::edge::{edge_between, shared};
use crate::fault::{GraphTextFault, Part};
use crate::name_fault::name_fault;
use crate::names::{Names, may_be_name, member_name};
use crate::node::node;
use crate::parts::{all_edges, all_nodes};
use crate::top::lists;
use graph_nodes::{Edge, Node, Place};
use json_values::u32_of;
use serde_json::Value;
use std::alloc::{AllocError, Global};

fn scope_number(v: &Value, names: &Names) -> Option<u32>
    ensures { result ≡ option_map (number_of names.now) (name_in (codes "scope") (view v.now)) }
{
    Some(names.number(member_name(v, "scope")?))
}

/// A node of format 2, among nodes of these names.
pub(crate) fn named_node(
    alloc: Global,
    v: &Value,
    names: &Names,
) -> Result<Option<Node>, AllocError>
    ensures { IfOk result (λ n. n ≡ named_node names.now (view v.now)) }
{
    if member_name(v, "name").is_none() {
        return Ok(None);
    }
    node(alloc, v, true, scope_number(v, names))
}

fn place_of_text(text: &str, names: &Names) -> Option<Place>
    ensures { result ≡ place_called names.now text.now }
{
    match shared(text, "@root", "@jump") {
        Some(place) => Some(place),
        None if may_be_name(text) => Some(Place::At(names.number(text))),
        None => None,
    }
}

fn place_among(v: &Value, i: usize, names: &Names) -> Option<Place>
    ensures { result ≡ named_place_at names.now i (view v.now) }
{
    place_of_text(v.get(i)?.as_str()?, names)
}

/// An edge of format 2, among nodes of these names.
pub(crate) fn named_edge(v: &Value, names: &Names) -> Option<Edge>
    ensures { result ≡ named_edge names.now (view v.now) }
{
    edge_between(v, place_among(v, 0, names), place_among(v, 1, names))
}

fn format(v: &Value) -> Option<u32>
    ensures { result ≡ option_and_then u32_of (get (codes "format") (view v.now)) }
{
    u32_of(v.get("format")?)
}

fn is_format_2(v: &Value) -> bool
    ensures { result ≡ has_format_2 (view v.now) }
{
    match format(v) {
        Some(n) => n == 2,
        None => false,
    }
}

/// The values of the nodes and of the edges, in a value that says it is in format 2.
fn lists_of(v: &Value) -> Option<(&[Value], &[Value])>
    requires { HasShortLists (view v.now) }
    ensures lists { option_map (λ p. (map view p.0.now, map view p.1.now)) result
        ≡ named_lists (view v.now) }
    ensures short { IfSome result (λ p. (length p.0.now < 2 ^ 32) × (length p.1.now < 2 ^ 32)) }
{
    if is_format_2(v) { lists(v, true) } else { None }
}

/// The nodes and edges of a value in format 2, or its first fault: those of shape, in the order of format 1, and then
/// those of names.
#[tactic(auto, unfolding(crate::specs::Named::named_parts))]
pub(crate) fn named_graph(
    alloc: Global,
    v: &Value,
) -> Result<(Vec<Node>, Vec<Edge>), GraphTextFault>
    requires { HasShortLists (view v.now) }
    ensures gives { TextGives (λ p. (p.0.items, p.1.items)) result (named_parts (view v.now)) }
    ensures short { IfOk result (λ p. (vec_len p.0 < 2 ^ 32) × (vec_len p.1 < 2 ^ 32)) }
{
    let Some((nodes, edges)) = lists_of(v) else {
        return Err(GraphTextFault::BadShape(Part::Top));
    };
    let names = Names::of(alloc, nodes)?;
    let among = Some(&names);
    let found_nodes = all_nodes(alloc, nodes, among)?;
    let found_edges = all_edges(alloc, edges, among)?;
    // Behind the shapes, which come first, so the nodes and edges are made before it is known whether they serve.
    match name_fault(&names, nodes, edges) {
        Some(fault) => Err(fault),
        None => Ok((found_nodes, found_edges)),
    }
}
