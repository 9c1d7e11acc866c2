ghost use Rattle.std.specs.Prelude.{◌≡◌, ◌≤◌, ◌^◌, length, map, IfOk};
ghost use Rattle.graph_nodes.specs.{declared.node.Node.{Node}, Spans.{spans_from, span_of, IsFirstFrom, AreRising}};

use crate::node::{Node, NodeKind, Span};
use std::alloc::{AllocError, Global};

/// A node that has a span, by its position, with that span.
#[derive(Clone, Copy, Debug)]
pub struct NodeSpan {
    pub node: u32,
    pub span: Span,
}

/// The nodes that have a span, each with it, in their order; the one error is want of memory.
pub fn spans_of(alloc: Global, nodes: &[Node]) -> Result<Vec<NodeSpan>, AllocError>
    requires { length nodes.now ≤ 2 ^ 32 }
    ensures { IfOk result (λ spans. spans.items ≡ spans_from 0 nodes.now) }
{
    let mut spans = Vec::with_capacity(alloc, span_count(nodes))?;
    for (n, node) in nodes.iter().enumerate() {
        if let Some(span) = node.span {
            spans.push(NodeSpan {
                node: n as u32,
                span,
            })?;
        }
    }
    Ok(spans)
}

/// How many of the nodes have a span.
fn span_count(nodes: &[Node]) -> usize
    ensures { result ≤ length nodes.now }
{
    let mut count = 0;
    for node in nodes {
        if node.span.is_some() {
            count += 1;
        }
    }
    count
}

/// The kinds of the nodes; the one error is want of memory.
pub fn kinds_of(alloc: Global, nodes: Vec<Node>) -> Result<Vec<NodeKind>, AllocError>
    ensures { IfOk result (λ kinds. kinds.items ≡ map (λ (n : Node). n.kind) nodes.items) }
{
    let mut kinds = Vec::with_capacity(alloc, nodes.len())?;
    for node in nodes {
        kinds.push(node.kind)?;
    }
    Ok(kinds)
}

/// The span of the node, by halving; None where it has none.
pub fn span_in(spans: &[NodeSpan], n: u32) -> Option<Span>
    requires { AreRising spans.now }
    ensures { result ≡ span_of n spans.now }
{
    match spans.get(first_from(spans, n)) {
        Some(found) if found.node == n => Some(found.span),
        Some(_) | None => None,
    }
}

/// The place of the first span that is of this node or a later one.
fn first_from(spans: &[NodeSpan], n: u32) -> usize
    requires { AreRising spans.now }
    ensures { IsFirstFrom n result spans.now }
{
    let mut low = 0;
    let mut high = spans.len();
    while low < high {
        let middle = low + (high - low) / 2;
        if spans[middle].node < n {
            low = middle + 1;
            continue;
        }
        high = middle;
    }
    low
}
