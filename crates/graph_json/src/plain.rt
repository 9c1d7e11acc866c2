ghost use Rattle.std.specs.Prelude.{◌^◌, ◌<◌, vec_len, IfOk};
ghost use Rattle.graph_json.specs.{Pieces.{HasShortLists}, Collect.{TextGives}, Plain.{plain_parts}};
ghost use Rattle.serde_json.specs.View.{view};

use crate::fault::{GraphTextFault, Part};
use crate::parts::{all_edges, all_nodes};
use crate::top::lists;
use graph_nodes::{Edge, Node};
use serde_json::Value;
use std::alloc::Global;

/// The nodes and edges of a value in format 1, or its first fault: the top's, then the first node's, then the first
/// edge's.
#[tactic(auto, unfolding(crate::specs::Plain::plain_parts, crate::specs::Top::lists_in))]
pub(crate) fn plain_graph(
    alloc: Global,
    v: &Value,
) -> Result<(Vec<Node>, Vec<Edge>), GraphTextFault>
    requires { HasShortLists (view v.now) }
    ensures gives { TextGives (λ p. (p.0.items, p.1.items)) result (plain_parts (view v.now)) }
    ensures short { IfOk result (λ p. (vec_len p.0 < 2 ^ 32) × (vec_len p.1 < 2 ^ 32)) }
{
    let Some((nodes, edges)) = lists(v, false) else {
        return Err(GraphTextFault::BadShape(Part::Top));
    };
    let nodes = all_nodes(alloc, nodes, None)?;
    let edges = all_edges(alloc, edges, None)?;
    Ok((nodes, edges))
}
