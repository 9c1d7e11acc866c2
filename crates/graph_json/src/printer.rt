ghost use Rattle.std.specs.{Prelude.{◌≡◌, OnOk, IfOk, Ok, codes}, Str.{IsUtf8}, List.{AllByRecursion}};
ghost use Rattle.json.specs.{Lex.{tokens}, Tree.{json_tokens, items_tokens}};
ghost use Rattle.graph_nodes.specs.Checked.{IsChecked};
ghost use Rattle.graph_json.specs.{Reading.{graph_from}, Printed.{nodes_json, edges_json, graph_json, text_of, graph_text, named_text, HasForwardSpans, number_json}, PrintSteps.{Adds, NodeFits, EdgeFits, value_tokens}};
ghost use Rattle.json_values.specs.Numbers.{only_if};

use crate::print::{put_edge, put_node};
use graph_nodes::FileGraph;
use json::Writer;
use std::alloc::{AllocError, Global};

/// The graph's text in format 1: compact JSON, with members in the order of their names' bytes.
/// Where no span ends before its start, `read_graph` reads the text as the same graph. The one error
/// is want of memory. It takes time and memory that follow the length of the text.
#[tactic(auto, using(crate::proofs::GraphBack::laws))]
pub fn print_graph(alloc: Global, graph: &FileGraph) -> Result<Vec<u8>, AllocError>
    ensures text { IfOk result (λ v. v.items ≡ graph_text graph.now) }
    ensures reads_back { IfOk result (λ v. HasForwardSpans graph.now.nodes
        → graph_from v.items ≡ Ok (graph.now.nodes, graph.now.edges)) }
{
    text(alloc, false, graph)
}

/// The same in format 2, which `read_graph` reads as the same graph likewise; each node has the name `n` and
/// its position in decimal.
#[tactic(auto, using(crate::proofs::NamedBack::laws))]
pub fn print_named(alloc: Global, graph: &FileGraph) -> Result<Vec<u8>, AllocError>
    ensures text { IfOk result (λ v. v.items ≡ named_text graph.now) }
    ensures reads_back { IfOk result (λ v. HasForwardSpans graph.now.nodes
        → graph_from v.items ≡ Ok (graph.now.nodes, graph.now.edges)) }
{
    text(alloc, true, graph)
}

/// The items of the array of nodes, with its end.
fn put_nodes(
    alloc: Global,
    out: &mut Writer,
    named: bool,
    graph: &FileGraph,
) -> Result<(), AllocError>
    ensures adds { Adds result out.old out.new (items_tokens (nodes_json named 0 graph.now.nodes)) }
    ensures fits { OnOk result (AllByRecursion NodeFits graph.now.nodes) }
    ensures checked { OnOk result (IsChecked graph.now) }
{
    for n in 0..graph.node_count() {
        put_node(alloc, out, named, n, graph.kind(n), graph.span(n))?;
    }
    out.end_array()
}

/// The items of the array of edges, with its end.
fn put_edges(
    alloc: Global,
    out: &mut Writer,
    named: bool,
    graph: &FileGraph,
) -> Result<(), AllocError>
    ensures adds { Adds result out.old out.new (items_tokens (edges_json named graph.now.edges)) }
    ensures fits { OnOk result (AllByRecursion EdgeFits graph.now.edges) }
{
    for e in 0..graph.edge_count() {
        put_edge(alloc, out, named, &graph.edge(e))?;
    }
    out.end_array()
}

#[tactic(auto, using(crate::proofs::Tokens::wholes))]
fn put_graph(
    alloc: Global,
    out: &mut Writer,
    named: bool,
    graph: &FileGraph,
) -> Result<(), AllocError>
    ensures adds { Adds result out.old out.new (json_tokens (graph_json named graph.now)) }
    ensures nodes { OnOk result (AllByRecursion NodeFits graph.now.nodes) }
    ensures edges { OnOk result (AllByRecursion EdgeFits graph.now.edges) }
    ensures checked { OnOk result (IsChecked graph.now) }
{
    // The members stand in the order of their names' bytes: edges, format, nodes.
    out.begin_object()?;
    out.key("edges")?;
    out.begin_array()?;
    put_edges(alloc, out, named, graph)?;
    put_format(out, named)?;
    out.key("nodes")?;
    out.begin_array()?;
    put_nodes(alloc, out, named, graph)?;
    out.end_object()
}

fn put_format(out: &mut Writer, named: bool) -> Result<(), AllocError>
    ensures { Adds result out.old out.new
        (value_tokens (codes "format") (only_if named (number_json 2))) }
{
    if !named {
        return Ok(());
    }
    out.key("format")?;
    out.u64(2)
}

/// The text in format 2 where it is named, with what the proof of the round trip needs of the graph.
fn text(alloc: Global, named: bool, graph: &FileGraph) -> Result<Vec<u8>, AllocError>
    ensures text { IfOk result (λ v. v.items ≡ text_of named graph.now) }
    ensures tokens { OnOk result
        (tokens (text_of named graph.now) ≡ json_tokens (graph_json named graph.now)) }
    ensures utf8 { OnOk result (IsUtf8 (text_of named graph.now)) }
    ensures nodes { OnOk result (AllByRecursion NodeFits graph.now.nodes) }
    ensures edges { OnOk result (AllByRecursion EdgeFits graph.now.edges) }
    ensures checked { OnOk result (IsChecked graph.now) }
{
    let mut out = Writer::new(Vec::new(alloc));
    put_graph(alloc, &mut out, named, graph)?;
    Ok(out.into_inner())
}
