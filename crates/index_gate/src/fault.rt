use graph_json::GraphTextFault;
use graph_nodes::Name;
use py_graph::TransFault;
use py_subset::PyFault;
use std::alloc::{AllocError, AllocFailed};
use std::fmt;

/// How many bytes a document may have.
pub const MAX_BYTES: usize = 1_048_576;

/// Why a document can't be indexed: the first fault in the order of the variants. Want of memory stands
/// in none of them.
#[derive(Clone, Copy, Debug, PartialEq, Eq)]
pub enum FileFault {
    /// The path ends neither with `.sg.json` nor with `.py`.
    UnknownKind,
    /// The document has more than `MAX_BYTES` bytes: this many.
    TooLarge(u64),
    /// The bytes are no graph file, and why.
    Text(GraphTextFault),
    /// The bytes are no module of the Python subset, and why.
    Python(PyFault),
    /// The module has no graph, and why: its path gives no name, or the graph would be too large.
    Named(TransFault),
    /// The walks of the graph have more edges together than a file may have: one more than that.
    Heavy(u32),
}

impl fmt::Display for FileFault {
    fn fmt<W: fmt::Write>(&self, f: &mut fmt::Formatter<W>) -> fmt::Result {
        match self {
            FileFault::UnknownKind => f.write_str("the path has no ending that is known"),
            FileFault::TooLarge(bytes) => write!(f, "{bytes} bytes are too many"),
            FileFault::Text(fault) => write!(f, "{fault}"),
            FileFault::Python(fault) => write!(f, "{fault}"),
            FileFault::Named(fault) => write!(f, "{fault}"),
            FileFault::Heavy(_) => f.write_str("the file's walks have too many edges together"),
        }
    }
}

/// Why a document has no graph, or no paths.
#[derive(Clone, Copy, Debug, PartialEq, Eq)]
pub enum ReadFault {
    /// The document has this fault.
    File(FileFault),
    /// Memory was refused.
    NoMemory,
}

impl fmt::Display for ReadFault {
    fn fmt<W: fmt::Write>(&self, f: &mut fmt::Formatter<W>) -> fmt::Result {
        match self {
            ReadFault::File(fault) => write!(f, "{fault}"),
            ReadFault::NoMemory => f.write_str("memory was refused"),
        }
    }
}

impl From<AllocError> for ReadFault {
    ghost use Rattle.std.specs.Prelude.{◌≡◌};
    ghost use Rattle.index_gate.specs.declared.fault.ReadFault.TheVariants.{NoMemory};

    ghost from_gives = { λ _ e. e ≡ NoMemory };

    fn from(_e: AllocError) -> ReadFault {
        ReadFault::NoMemory
    }
}

/// Why documents aren't indexed.
#[derive(Debug, Drop)]
pub enum IndexFault {
    /// The first document that has a fault, by its path, and its first fault.
    BadFile { path: Name, fault: FileFault },
    /// Memory was refused.
    NoMemory,
}

impl fmt::Display for IndexFault {
    fn fmt<W: fmt::Write>(&self, f: &mut fmt::Formatter<W>) -> fmt::Result {
        match self {
            IndexFault::BadFile { path, fault } => write!(f, "{}: {fault}", path.as_str()),
            IndexFault::NoMemory => f.write_str("memory was refused"),
        }
    }
}

impl From<AllocError> for IndexFault {
    ghost use Rattle.std.specs.Prelude.{◌≡◌};
    ghost use Rattle.index_gate.specs.declared.fault.IndexFault.TheVariants.{NoMemory};

    ghost from_gives = { λ _ e. e ≡ NoMemory };

    fn from(_e: AllocError) -> IndexFault {
        IndexFault::NoMemory
    }
}

impl<T: Drop> From<AllocFailed<T>> for IndexFault {
    ghost use Rattle.std.specs.Prelude.{◌≡◌};
    ghost use Rattle.index_gate.specs.declared.fault.IndexFault.TheVariants.{NoMemory};

    ghost from_gives = { λ _ e. e ≡ NoMemory };

    fn from(_e: AllocFailed<T>) -> IndexFault {
        IndexFault::NoMemory
    }
}
