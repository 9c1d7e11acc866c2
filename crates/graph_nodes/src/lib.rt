//! Checked file graphs: the nodes and edges of one file, each edge between places that are there.
#![tactic(auto)]

mod check;
mod edges;
mod fault;
mod graph;
mod index;
mod marks;
mod node;
mod packed;
mod spans;
mod steps;

pub use edges::EdgeIter;
pub use fault::GraphFault;
pub use graph::{FileGraph, MAX_EDGES, MAX_NODES};
pub use node::{Edge, Name, Node, NodeKind, Place, Span};
pub use spans::NodeSpan;
pub use steps::Steps;
