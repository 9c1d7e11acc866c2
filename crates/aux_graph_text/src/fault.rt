use graph_nodes::GraphFault;
use std::alloc::{AllocError, AllocFailed};
use std::fmt;

/// Why a text stands for no files.
#[derive(Clone, Copy, Debug, PartialEq, Eq)]
pub enum TextFault {
    /// A word that is none, or stands where none is wanted.
    Word,
    /// More nodes or edges than a text may stand for.
    Long,
    /// The nodes and edges are no graph, and why.
    Graph(GraphFault),
    /// Memory was refused.
    NoMemory,
}

impl fmt::Display for TextFault {
    fn fmt<W: fmt::Write>(&self, f: &mut fmt::Formatter<W>) -> fmt::Result {
        match self {
            TextFault::Word => f.write_str("a word has no meaning there"),
            TextFault::Long => f.write_str("there are too many nodes or edges"),
            TextFault::Graph(fault) => write!(f, "{fault}"),
            TextFault::NoMemory => f.write_str("memory was refused"),
        }
    }
}

impl From<AllocError> for TextFault {
    fn from(_: AllocError) -> TextFault {
        TextFault::NoMemory
    }
}

impl<T: Drop> From<AllocFailed<T>> for TextFault {
    fn from(_: AllocFailed<T>) -> TextFault {
        TextFault::NoMemory
    }
}
