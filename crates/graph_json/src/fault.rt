ghost use Rattle.std.specs.Prelude.{◌≡◌};
ghost use Rattle.graph_json.specs.declared.fault.GraphTextFault.TheVariants.{NoMemory};

use graph_nodes::GraphFault;
use std::alloc::{AllocError, AllocFailed};
use std::fmt;

/// A part of a graph file.
#[derive(Clone, Copy, Debug, PartialEq, Eq)]
pub enum Part {
    /// The whole value.
    Top,
    /// A node, by its position from 0.
    Node(u32),
    /// An edge, by its position from 0.
    Edge(u32),
}

/// Why a text is no graph file: the first fault, in the order of the variants, but that want of
/// memory may come at any time and the faults of the graph come last.
#[derive(Clone, Copy, Debug, PartialEq, Eq)]
pub enum GraphTextFault {
    /// The bytes aren't JSON in UTF-8, or nest deeper than 127.
    BadJson,
    /// This part has a wrong form: the top, else the first such node, else the first such edge.
    BadShape(Part),
    /// The nodes and edges are no graph, and why. Never with `NoMemory`.
    Graph(GraphFault),
    /// Memory was refused.
    NoMemory,
    /// The first node whose name an earlier node has, by its position.
    SameName(u32),
    /// The first node, else the first edge, that names a node that isn't there.
    UnknownName(Part),
}

impl From<AllocError> for GraphTextFault {
    ghost from_gives = { λ _ e. e ≡ NoMemory };

    fn from(_e: AllocError) -> GraphTextFault {
        GraphTextFault::NoMemory
    }
}

impl<T: Drop> From<AllocFailed<T>> for GraphTextFault {
    ghost from_gives = { λ _ e. e ≡ NoMemory };

    fn from(_e: AllocFailed<T>) -> GraphTextFault {
        GraphTextFault::NoMemory
    }
}

impl fmt::Display for Part {
    fn fmt<W: fmt::Write>(&self, f: &mut fmt::Formatter<W>) -> fmt::Result {
        match self {
            Part::Top => f.write_str("the graph"),
            Part::Node(n) => write!(f, "node {n}"),
            Part::Edge(e) => write!(f, "edge {e}"),
        }
    }
}

impl fmt::Display for GraphTextFault {
    fn fmt<W: fmt::Write>(&self, f: &mut fmt::Formatter<W>) -> fmt::Result {
        match self {
            GraphTextFault::BadJson => f.write_str("not JSON"),
            GraphTextFault::BadShape(part) => write!(f, "{part} has a wrong form"),
            GraphTextFault::Graph(fault) => write!(f, "{fault}"),
            GraphTextFault::NoMemory => f.write_str("memory was refused"),
            GraphTextFault::SameName(n) => write!(f, "node {n} has the name of an earlier node"),
            GraphTextFault::UnknownName(part) => write!(f, "{part} names a node that isn't there"),
        }
    }
}
