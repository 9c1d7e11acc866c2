use crate::check::first_fault;
use crate::edges::EdgeIter;
use crate::fault::GraphFault;
use crate::index::{Rows, row_of, rows_of};
use crate::marks::{Mark, is_definition_at, is_exported_at, is_reference_at, marks_of};
use crate::node::{Edge, Node, NodeKind, Place, Span};
use crate::packed::{EdgeRow, edge_in, packed};
use crate::spans::{NodeSpan, kinds_of, span_in, spans_of};
use std::alloc::{AllocError, Global};
use std::marker::Model;

/// How many nodes a file may have.
pub const MAX_NODES: usize = 16_384;

/// How many edges a file may have.
pub const MAX_EDGES: usize = 65_536;

/// A checked graph of one file. A contract sees its nodes and its edges.
#[derive(Debug, Drop)]
pub struct FileGraph {
    kinds: Vec<NodeKind>,
    /// The spans of the nodes that have one, in their order.
    spans: Vec<NodeSpan>,
    edges: Vec<EdgeRow>,
    /// For each place the positions of the edges that leave it, rising.
    rows: Rows,
    /// For each node what a search asks of it.
    marks: Vec<Mark>,
}

impl Model for FileGraph {
    ghost use Rattle.std.specs.Prelude.{◌≡◌, map};
    ghost use Rattle.graph_nodes.specs.{Graph.{Graph}, Inside.{IsIndexed}, Packed.{edge_in}, Spans.{nodes_from, spans_from}};

    ghost Value = { Graph };

    ghost view = { λ g. record {
      nodes = nodes_from 0 g.kinds.items g.spans.items;
      edges = map edge_in g.edges.items;
    } };

    ghost invariant = { λ g.
        (g.spans.items ≡ spans_from 0 (nodes_from 0 g.kinds.items g.spans.items))
        × IsIndexed (nodes_from 0 g.kinds.items g.spans.items) (map edge_in g.edges.items)
        g.rows.starts.items g.rows.order.items g.marks.items };
}

impl FileGraph {
    ghost use Rattle.std.specs.{Prelude.{◌≡◌, ◌≢◌, ℕ, ◌<◌, ◌≤◌, ◌^◌, length, vec_len, slice_get, IfOk, IfErr, OnOk, Some, None, IsTrue}, Option.{option_map, option_and_then}};
    ghost use Rattle.graph_nodes.specs.{declared.node.Node.{Node}, Graph.{Graph, has_place, is_exported, is_reference, is_definition}, Checked.{graph_fault, IsChecked}, Cut.{is_cut}, Out.{edges_from}, Spans.{spans_from}};

    /// The graph of these nodes and edges, or the first fault, in the order of the variants of
    /// `GraphFault`. It takes time and memory that follow the number of nodes and edges.
    pub fn check(alloc: Global, nodes: Vec<Node>, edges: Vec<Edge>) -> Result<FileGraph, GraphFault>
        requires nodes { vec_len nodes < 2 ^ 32 }
        requires edges { vec_len edges < 2 ^ 32 }
        ensures nodes { IfOk result (λ g. g.nodes ≡ nodes.items) }
        ensures edges { IfOk result (λ g. g.edges ≡ edges.items) }
        ensures ok { OnOk result (graph_fault nodes.items edges.items ≡ None) }
        ensures err { IfErr result
            (λ e. e ≢ GraphFault.NoMemory → graph_fault nodes.items edges.items ≡ Some e) }
    {
        if let Some(fault) = first_fault(nodes.as_slice(), edges.as_slice()) {
            return Err(fault);
        }
        match FileGraph::indexed(alloc, nodes, edges) {
            Ok(graph) => Ok(graph),
            Err(AllocError) => Err(GraphFault::NoMemory),
        }
    }

    /// The graph of nodes and edges without a fault, with its rows and marks.
    fn indexed(alloc: Global, nodes: Vec<Node>, edges: Vec<Edge>) -> Result<FileGraph, AllocError>
        requires { graph_fault nodes.items edges.items ≡ None }
        ensures nodes { IfOk result (λ g. g.nodes ≡ nodes.items) }
        ensures edges { IfOk result (λ g. g.edges ≡ edges.items) }
    {
        let count = nodes.as_slice().len();
        let rows = rows_of(alloc, count, edges.as_slice())?;
        let marks = marks_of(alloc, nodes.as_slice(), edges.as_slice())?;
        let edges = packed(alloc, edges.as_slice())?;
        let spans = spans_of(alloc, nodes.as_slice())?;
        let kinds = kinds_of(alloc, nodes)?;
        Ok(FileGraph {
            kinds,
            spans,
            edges,
            rows,
            marks,
        })
    }

    /// How many nodes the graph has.
    pub fn node_count(&self) -> u32
        ensures value { result ≡ length self.now.nodes }
        ensures checked { IsChecked self.now }
    {
        self.kinds.len() as u32
    }

    /// How many edges the graph has.
    pub fn edge_count(&self) -> u32
        ensures value { result ≡ length self.now.edges }
        ensures checked { IsChecked self.now }
    {
        self.edges.len() as u32
    }

    /// The kind of the node at the position.
    pub fn kind(&self, n: u32) -> &NodeKind
        requires { n < length self.now.nodes }
        ensures { option_map (λ (node : Node). node.kind) (slice_get self.now.nodes n)
            ≡ Some result.now }
    {
        &self.kinds[n as usize]
    }

    /// The part of the file that the node at the position stands for; None where it has none, and past the last node.
    /// It takes time that follows the logarithm of the number of spans.
    pub fn span(&self, n: u32) -> Option<Span>
        ensures { result ≡ option_and_then (λ (node : Node). node.span)
            (slice_get self.now.nodes n) }
    {
        if n as usize >= self.kinds.len() {
            return None;
        }
        span_in(self.spans.as_slice(), n)
    }

    /// The nodes that stand for a part of the file, each with it, in their order.
    pub fn spans(&self) -> &[NodeSpan]
        ensures { result.now ≡ spans_from 0 self.now.nodes }
    {
        self.spans.as_slice()
    }

    /// Whether there is an exported scope at the position; false past the last node. It takes constant time, and looks at one
    /// byte.
    pub fn is_exported(&self, n: u32) -> bool
        ensures { result ≡ is_exported self.now.nodes n }
    {
        is_exported_at(self.marks.as_slice(), n)
    }

    /// Whether there is a reference at the position; false past the last node. It takes constant time, and looks at one
    /// byte.
    pub fn is_reference(&self, n: u32) -> bool
        ensures { result ≡ is_reference self.now.nodes n }
    {
        is_reference_at(self.marks.as_slice(), n)
    }

    /// Whether there is a definition at the position; false past the last node. It takes constant time, and looks at one
    /// byte.
    pub fn is_definition(&self, n: u32) -> bool
        ensures { result ≡ is_definition self.now.nodes n }
    {
        is_definition_at(self.marks.as_slice(), n)
    }

    /// The edge at the position.
    pub fn edge(&self, e: u32) -> Edge
        requires { e < length self.now.edges }
        ensures { slice_get self.now.edges e ≡ Some result }
    {
        edge_in(self.edges[e as usize])
    }

    /// Whether a path is cut at the place: at the root, at jump, at exported scopes and at turning
    /// nodes. It takes constant time, and looks at one byte.
    pub fn is_cut(&self, place: Place) -> bool
        requires { IsTrue (has_place (length self.now.nodes) place) }
        ensures { result ≡ is_cut self.now place }
    {
        match place {
            Place::Root | Place::Jump => true,
            Place::At(n) => self.marks[n as usize].is_cut(),
        }
    }

    /// The positions of the edges that leave the place, rising. It takes time that follows their number.
    pub fn edges_from(&self, place: Place) -> EdgeIter<'_>
        requires { IsTrue (has_place (length self.now.nodes) place) }
        ensures { result ≡ edges_from self.now place }
    {
        EdgeIter::over(row_of(&self.rows, self.kinds.len(), place))
    }
}
