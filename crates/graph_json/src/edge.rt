ghost use Rattle.std.specs.{Prelude.{◌≡◌, codes}, Option.{option_copied}};
ghost use Rattle.serde_json.specs.{Find.{at, get}, View.{view}};
ghost use Rattle.graph_json.specs.{Edges.{edge_in}, Plain.{shared_place, place_of, edge_of, place_at}};

use crate::pieces::is_array_of;
use graph_nodes::{Edge, Place};
use json_values::{u16_of, u32_of};
use serde_json::Value;

/// The place that files share and that has this text: the formats differ in these words alone.
pub(crate) fn shared(text: &str, root: &str, jump: &str) -> Option<Place>
    ensures { result ≡ shared_place root.now jump.now text.now }
{
    if text == root {
        Some(Place::Root)
    } else if text == jump {
        Some(Place::Jump)
    } else {
        None
    }
}

/// An edge of that value between these places, which each format reads in its own way.
#[tactic(auto, unfolding(crate::specs::Edges::edge_in))]
pub(crate) fn edge_between(v: &Value, source: Option<Place>, sink: Option<Place>) -> Option<Edge>
    ensures { result ≡ edge_in source sink (view v.now) }
{
    let source = source?;
    let sink = sink?;
    let precedence = u16_of(v.get(2)?)?;
    if is_array_of(v, 3) {
        Some(Edge {
            source,
            sink,
            precedence,
        })
    } else {
        None
    }
}

fn plain_place(v: &Value) -> Option<Place>
    ensures { result ≡ place_of (view v.now) }
{
    match v.as_str() {
        Some(text) => shared(text, "root", "jump"),
        None => u32_of(v).map(Place::At),
    }
}

fn plain_place_at(v: &Value, i: usize) -> Option<Place>
    ensures { result ≡ place_at i (view v.now) }
{
    plain_place(v.get(i)?)
}

/// An edge of format 1.
pub(crate) fn plain_edge(v: &Value) -> Option<Edge>
    ensures { result ≡ edge_of (view v.now) }
{
    edge_between(v, plain_place_at(v, 0), plain_place_at(v, 1))
}
