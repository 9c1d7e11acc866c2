use std::fmt;

/// Why lists of nodes and edges are no file graph.
#[derive(Clone, Copy, Debug, PartialEq, Eq)]
pub enum GraphFault {
    /// There are more than `MAX_NODES` nodes; how many there are.
    TooManyNodes(u32),
    /// There are more than `MAX_EDGES` edges; how many there are.
    TooManyEdges(u32),
    /// The first edge with an end that is no node, by its position.
    BadEnd(u32),
    /// The first edge that leaves `jump`, by its position.
    JumpSource(u32),
    /// The first push_scoped node whose scope isn't an exported scope, by its position.
    BadScope(u32),
    /// Memory was refused.
    NoMemory,
}

impl fmt::Display for GraphFault {
    fn fmt<W: fmt::Write>(&self, f: &mut fmt::Formatter<W>) -> fmt::Result {
        match self {
            GraphFault::TooManyNodes(n) => write!(f, "{n} nodes are too many"),
            GraphFault::TooManyEdges(n) => write!(f, "{n} edges are too many"),
            GraphFault::BadEnd(e) => write!(f, "edge {e} has an end that is no node"),
            GraphFault::JumpSource(e) => write!(f, "edge {e} leaves the jump"),
            GraphFault::BadScope(n) => write!(f, "node {n} names a scope that isn't exported"),
            GraphFault::NoMemory => f.write_str("memory was refused"),
        }
    }
}
