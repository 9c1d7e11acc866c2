use crate::fault::TextFault;
use graph_nodes::{Edge, FileGraph, Name, Node, NodeKind, Place};
use std::alloc::Global;

/// How many nodes, and how many edges, the text of one file may stand for.
pub const MAX_PARTS: usize = 100_000;

/// The files that a text stands for.
///
/// ` & ` stands between two files, and ` | ` between the nodes and the edges of one. Nodes stand between
/// semicolons: `push x`, `pop x`, `push_scoped x 4` with its scope, `pop_scoped x`, `drop` and `scope`. A
/// last `R` marks a reference, `D` a definition, `E` an exported scope. Edges stand between commas, as
/// `0>1`, `root>0`, `2>jump`, or `1>2/3` with a precedence, else 0; `4-6` stands for `4>5, 5>6` and `6-4`
/// for `5>4, 6>5`. A last ` *9` says that a node, an edge or a chain stands there nine times.
///
/// The first fault is told: `Word` where a word is none of these or no number, `Long` where a file would have
/// more than `MAX_PARTS` nodes or edges, `Graph` where they are no graph.
pub fn files_of(alloc: Global, text: &str) -> Result<Vec<FileGraph>, TextFault> {
    let mut files = Vec::new(alloc);
    for part in text.split(" & ") {
        files.push(file_of(alloc, part)?)?;
    }
    Ok(files)
}

/// The file that a text such as `push x R; scope; pop x D | 0>1, 1>2` stands for.
fn file_of(alloc: Global, text: &str) -> Result<FileGraph, TextFault> {
    let (node_text, edge_text) = text.split_once(" | ").unwrap_or((text, ""));
    let nodes = nodes_of(alloc, node_text)?;
    let edges = edges_of(alloc, edge_text)?;
    if nodes.len() > MAX_PARTS || edges.len() > MAX_PARTS {
        return Err(TextFault::Long);
    }
    match FileGraph::check(alloc, nodes, edges) {
        Ok(graph) => Ok(graph),
        Err(fault) => Err(TextFault::Graph(fault)),
    }
}

fn nodes_of(alloc: Global, text: &str) -> Result<Vec<Node>, TextFault> {
    let mut nodes = Vec::new(alloc);
    for part in text.split("; ") {
        let (words, times) = repeated(part)?;
        for _ in 0..times {
            nodes.push(node_of(alloc, words)?)?;
        }
    }
    Ok(nodes)
}

fn edges_of(alloc: Global, text: &str) -> Result<Vec<Edge>, TextFault> {
    let mut edges = Vec::new(alloc);
    if text.is_empty() {
        return Ok(edges);
    }
    for part in text.split(", ") {
        let (words, times) = repeated(part)?;
        for _ in 0..times {
            push_edges(&mut edges, words)?;
        }
    }
    Ok(edges)
}

/// What a text such as `scope *13` repeats, and how often.
fn repeated(text: &str) -> Result<(&str, u32), TextFault> {
    match text.split_once(" *") {
        Some((what, times)) => Ok((what, number(times)?)),
        None => Ok((text, 1)),
    }
}

/// The node that words such as `push x R` stand for.
fn node_of(alloc: Global, text: &str) -> Result<Node, TextFault> {
    let (words, marked) = match text.rsplit_once(' ') {
        Some((words, "R" | "D" | "E")) => (words, true),
        _ => (text, false),
    };
    let (verb, rest) = words.split_once(' ').unwrap_or((words, ""));
    let (name, scope) = rest.split_once(' ').unwrap_or((rest, "0"));
    let symbol = Name::of(alloc, name)?;
    let scope = number(scope)?;
    let kind = match verb {
        "push" => NodeKind::Push {
            symbol,
            reference: marked,
        },
        "push_scoped" => NodeKind::PushScoped {
            symbol,
            scope,
            reference: marked,
        },
        "pop" => NodeKind::Pop {
            symbol,
            definition: marked,
        },
        "pop_scoped" => NodeKind::PopScoped {
            symbol,
            definition: marked,
        },
        "drop" => NodeKind::Drops,
        "scope" => NodeKind::Scope { exported: marked },
        _ => return Err(TextFault::Word),
    };
    Ok(Node { kind, span: None })
}

/// Adds the edge that `0>1`, or `0>1/2` with a precedence, stands for; or those of a chain such as `1-13`.
fn push_edges(edges: &mut Vec<Edge>, text: &str) -> Result<(), TextFault> {
    if let Some((from, to)) = text.split_once('-') {
        return push_chain(edges, number(from)?, number(to)?);
    }
    let (ends, precedence) = text.split_once('/').unwrap_or((text, "0"));
    let Some((source, sink)) = ends.split_once('>') else {
        return Err(TextFault::Word);
    };
    let Ok(precedence) = precedence.parse::<u16>() else {
        return Err(TextFault::Word);
    };
    edges.push(Edge {
        source: place_of(source)?,
        sink: place_of(sink)?,
        precedence,
    })?;
    Ok(())
}

/// Adds an edge from each node to the next, from the one to the other.
fn push_chain(edges: &mut Vec<Edge>, from: u32, to: u32) -> Result<(), TextFault> {
    for n in from.min(to)..from.max(to) {
        let (source, sink) = if from < to { (n, n + 1) } else { (n + 1, n) };
        edges.push(Edge {
            source: Place::At(source),
            sink: Place::At(sink),
            precedence: 0,
        })?;
    }
    Ok(())
}

fn place_of(text: &str) -> Result<Place, TextFault> {
    match text {
        "root" => Ok(Place::Root),
        "jump" => Ok(Place::Jump),
        _ => Ok(Place::At(number(text)?)),
    }
}

fn number(text: &str) -> Result<u32, TextFault> {
    match text.parse::<u32>() {
        Ok(number) => Ok(number),
        Err(_) => Err(TextFault::Word),
    }
}
