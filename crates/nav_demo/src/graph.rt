//! A file of a made tree: its path and its graph.
ghost use Rattle.std.specs.Prelude.{◌≡◌, ◌<◌, ◌^◌, string_bytes, vec_len, IfOk};
ghost use Rattle.graph_json.specs.Printed.{graph_text};
ghost use Rattle.nav_demo.specs.MadeTree.{symbol, plain_node, plain_edge, made_nodes, made_edges, made_graph, made_path};

use graph_json::print_graph;
use graph_nodes::{Edge, FileGraph, Name, Node, NodeKind, Place};
use nav_proto::DocText;
use std::alloc::{AllocError, Global};
use version_tree::PathText;

/// The path of the file with this number: `f`, the number in four digits, and `.sg.json`.
pub(crate) fn path(alloc: Global, k: u32) -> Result<PathText, AllocError>
    ensures { IfOk result (λ path. path ≡ made_path k) }
{
    let thousands = k / 1000 % 10;
    let hundreds = k / 100 % 10;
    let tens = k / 10 % 10;
    let ones = k % 10;
    let text = format!(in alloc; "f{thousands}{hundreds}{tens}{ones}.sg.json")?;
    PathText::of(alloc, text.as_str())
}

// The letter with a number behind it.
fn symbol(alloc: Global, letter: &str, n: u64) -> Result<Name, AllocError>
    ensures { IfOk result (λ name. name ≡ symbol letter.now n) }
{
    let text = format!(in alloc; "{letter}{n}")?;
    Name::of(alloc, text.as_str())
}

// A node of this kind, which stands for no part of a text.
fn plain_node(kind: NodeKind) -> Node
    ensures { result ≡ plain_node kind }
{
    Node { kind, span: None }
}

// The nodes of file k, where j and t were drawn for it.
fn nodes(alloc: Global, k: u32, j: u64, t: u64) -> Result<Vec<Node>, AllocError>
    ensures { IfOk result (λ nodes. nodes.items ≡ made_nodes k j t) }
{
    let own = u64::from(k);
    let mut nodes = Vec::with_capacity(alloc, 4)?;
    let symbol_d = symbol(alloc, "d", own)?;
    let symbol_j = symbol(alloc, "a", j)?;
    let symbol_a = symbol(alloc, "a", own)?;
    let symbol_t = symbol(alloc, "d", t)?;
    nodes.push(plain_node(NodeKind::Pop {
        symbol: symbol_d,
        definition: true,
    }))?;
    nodes.push(plain_node(NodeKind::Push {
        symbol: symbol_j,
        reference: true,
    }))?;
    nodes.push(plain_node(NodeKind::Pop {
        symbol: symbol_a,
        definition: false,
    }))?;
    nodes.push(plain_node(NodeKind::Push {
        symbol: symbol_t,
        reference: false,
    }))?;
    Ok(nodes)
}

// An edge of precedence 0.
fn plain_edge(source: Place, sink: Place) -> Edge
    ensures { result ≡ plain_edge source sink }
{
    Edge {
        source,
        sink,
        precedence: 0,
    }
}

// The edges of every file.
fn edges(alloc: Global) -> Result<Vec<Edge>, AllocError>
    ensures { IfOk result (λ edges. edges.items ≡ made_edges) }
{
    Vec::from_slice(
        alloc,
        &[
            plain_edge(Place::Root, Place::At(0)),
            plain_edge(Place::At(1), Place::Root),
            plain_edge(Place::Root, Place::At(2)),
            plain_edge(Place::At(2), Place::At(3)),
            plain_edge(Place::At(3), Place::Root),
        ],
    )
}

// The graph of file k, where j and t were drawn for it. It has no fault, so the one error is want of memory.
fn graph(alloc: Global, k: u32, j: u64, t: u64) -> Result<FileGraph, AllocError>
    ensures { IfOk result (λ g. g ≡ made_graph k j t) }
{
    let nodes = nodes(alloc, k, j, t)?;
    let edges = edges(alloc)?;
    match FileGraph::check(alloc, nodes, edges) {
        Ok(graph) => Ok(graph),
        Err(_) => Err(AllocError),
    }
}

/// The document of file k, where j and t were drawn for it: the text of its graph. The one error is want of memory.
pub(crate) fn document(alloc: Global, k: u32, j: u64, t: u64) -> Result<DocText, AllocError>
    ensures { IfOk result (λ text. text ≡ graph_text (made_graph k j t)) }
{
    let bytes = print_graph(alloc, &graph(alloc, k, j, t)?)?;
    match String::from_utf8(bytes) {
        Ok(text) => Ok(DocText::from_string(text)),
        Err(_) => Err(AllocError),
    }
}
