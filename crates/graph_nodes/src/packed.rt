ghost use Rattle.std.specs.Prelude.{◌≡◌, map, All, IfOk, IsTrue};
ghost use Rattle.graph_nodes.specs.{declared.node.Edge.{Edge}, Limits.{max_nodes}, Graph.{has_place}, Checked.{has_ends}, Packed.{place_in, edge_in}};

use crate::node::{Edge, Place};
use std::alloc::{AllocError, Global};

/// An edge in six bytes: a file has so few nodes that two bytes name each of them, the root and jump.
#[derive(Clone, Copy, Debug)]
pub struct EdgeRow {
    source: u16,
    sink: u16,
    precedence: u16,
}

/// The number that stands for the root; no node has it.
const ROOT: u16 = 65_535;

/// The number that stands for jump; no node has it.
const JUMP: u16 = 65_534;

/// The edges in rows of six bytes; the one error is want of memory.
pub fn packed(alloc: Global, edges: &[Edge]) -> Result<Vec<EdgeRow>, AllocError>
    requires { All (λ (e : Edge). IsTrue (has_ends max_nodes e)) edges.now }
    ensures { IfOk result (λ rows. map edge_in rows.items ≡ edges.now) }
{
    let mut rows = Vec::with_capacity(alloc, edges.len())?;
    for edge in edges {
        rows.push(row_of(edge))?;
    }
    Ok(rows)
}

/// The edge that the row holds.
pub fn edge_in(row: EdgeRow) -> Edge
    ensures { result ≡ edge_in row }
{
    Edge {
        source: place_in(row.source),
        sink: place_in(row.sink),
        precedence: row.precedence,
    }
}

/// The row of the edge.
fn row_of(edge: &Edge) -> EdgeRow
    requires { IsTrue (has_ends max_nodes edge.now) }
    ensures { edge_in result ≡ edge.now }
{
    EdgeRow {
        source: number_of(edge.source),
        sink: number_of(edge.sink),
        precedence: edge.precedence,
    }
}

/// The number that stands for the place.
fn number_of(place: Place) -> u16
    requires { IsTrue (has_place max_nodes place) }
    ensures { place_in result ≡ place }
{
    match place {
        Place::Root => ROOT,
        Place::Jump => JUMP,
        Place::At(n) => n as u16,
    }
}

/// The place that the number stands for.
fn place_in(number: u16) -> Place
    ensures { result ≡ place_in number }
{
    if number == ROOT {
        Place::Root
    } else if number == JUMP {
        Place::Jump
    } else {
        Place::At(number as u32)
    }
}
