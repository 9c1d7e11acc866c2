ghost use Rattle.std.specs.Prelude.{◌≡◌, ◌≢◌, ◌↔◌, ◌^◌, ◌<◌, length, vec_len, IfOk, IfErr, Ok, Err, ok_or};
ghost use Rattle.serde_json.specs.View.{view};
ghost use Rattle.json_values.specs.Text.{json_of};
ghost use Rattle.graph_json.specs.{Pieces.{HasShortLists}, Collect.{TextGives}, Reading.{parts_of, graph_from}, Top.{checked}};

use crate::fault::GraphTextFault;
use crate::named::named_graph;
use crate::plain::plain_graph;
use graph_nodes::{Edge, FileGraph, GraphFault, Node};
use json_values::{JsonFault, parse};
use serde_json::Value;
use std::alloc::Global;

/// The graph that the bytes are, in format 1 or in format 2, or the first fault in them.
///
/// A value with a member `format` is read as format 2, any other as format 1. The faults come in
/// the order of the README. `NoMemory` may come in place of any answer, `Graph(NoMemory)` never.
/// It takes time and memory that follow the number of bytes: the nodes and edges of the parsed
/// value are gone over a fixed number of times, with names found by a hash table.
#[tactic(auto, using(crate::proofs::Parsing::causes))]
pub fn read_graph(alloc: Global, bytes: &[u8]) -> Result<FileGraph, GraphTextFault>
    requires { length bytes.now < 2 ^ 32 }
    ensures ok { IfOk result (λ g. graph_from bytes.now ≡ Ok (g.nodes, g.edges)) }
    ensures err { IfErr result (λ e. e ≢ GraphTextFault.NoMemory → graph_from bytes.now ≡ Err e) }
    ensures memory { result ≢ Err (GraphTextFault.Graph GraphFault.NoMemory) }
{
    read(alloc, bytes)
}

#[tactic(auto, unfolding(crate::specs::Reading::graph_from))]
fn read(alloc: Global, bytes: &[u8]) -> Result<FileGraph, GraphTextFault>
    requires { length bytes.now < 2 ^ 32 }
    ensures { TextGives (λ g. (g.nodes, g.edges)) result (graph_from bytes.now) }
{
    let value = value_of(alloc, bytes)?;
    let (nodes, edges) = parts(alloc, &value)?;
    check(alloc, nodes, edges)
}

/// The graph of these nodes and edges, whose faults come behind all those of the text.
fn check(alloc: Global, nodes: Vec<Node>, edges: Vec<Edge>) -> Result<FileGraph, GraphTextFault>
    requires nodes { vec_len nodes < 2 ^ 32 }
    requires edges { vec_len edges < 2 ^ 32 }
    ensures { TextGives (λ g. (g.nodes, g.edges)) result (checked nodes.items edges.items) }
{
    match FileGraph::check(alloc, nodes, edges) {
        Ok(graph) => Ok(graph),
        Err(GraphFault::NoMemory) => Err(GraphTextFault::NoMemory),
        Err(fault) => Err(GraphTextFault::Graph(fault)),
    }
}

/// The nodes and edges of a value: a member `format` alone tells the formats apart, whatever it holds.
fn parts(alloc: Global, v: &Value) -> Result<(Vec<Node>, Vec<Edge>), GraphTextFault>
    requires { HasShortLists (view v.now) }
    ensures gives { TextGives (λ p. (p.0.items, p.1.items)) result (parts_of (view v.now)) }
    ensures short { IfOk result (λ p. (vec_len p.0 < 2 ^ 32) × (vec_len p.1 < 2 ^ 32)) }
{
    match v.get("format") {
        Some(_) => named_graph(alloc, v),
        None => plain_graph(alloc, v),
    }
}

/// The value of the bytes. Each of its arrays has fewer than 2^32 items, since it has no more than its text has bytes. No
/// memory is wanting where there are no bytes.
#[tactic(auto, using(crate::proofs::Parsing::texts))]
fn value_of(alloc: Global, bytes: &[u8]) -> Result<Value, GraphTextFault>
    requires { length bytes.now < 2 ^ 32 }
    ensures value { TextGives view result (ok_or (json_of bytes.now) GraphTextFault.BadJson) }
    ensures short { IfOk result (λ v. HasShortLists (view v)) }
    ensures memory { result ≡ Err GraphTextFault.NoMemory → 0 < length bytes.now }
{
    match parse(alloc, bytes) {
        Ok(value) => Ok(value),
        Err(fault) => Err(fault_of(fault)),
    }
}

/// The fault of bytes that have no value for this reason.
fn fault_of(fault: JsonFault) -> GraphTextFault
    ensures json { (result ≡ GraphTextFault.BadJson) ↔ (fault ≡ JsonFault.BadJson) }
    ensures memory { (result ≡ GraphTextFault.NoMemory) ↔ (fault ≡ JsonFault.NoMemory) }
{
    match fault {
        JsonFault::BadJson => GraphTextFault::BadJson,
        JsonFault::NoMemory => GraphTextFault::NoMemory,
    }
}
