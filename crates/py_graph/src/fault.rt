use std::alloc::AllocError;
use std::fmt;

/// Why a module has no graph.
#[derive(Clone, Copy, Debug, PartialEq, Eq)]
pub enum TransFault {
    /// The path gives no name of a module.
    BadName,
    /// The graph has more than 16,384 nodes; the number is 16,385.
    TooManyNodes(u32),
    /// The graph has more than 65,536 edges; the number is 65,537.
    TooManyEdges(u32),
    /// Memory ran out.
    NoMemory,
}

impl From<AllocError> for TransFault {
    ghost use Rattle.std.specs.Prelude.{◌≡◌};
    ghost use Rattle.py_graph.specs.declared.fault.TransFault.TheVariants.{NoMemory};

    ghost from_gives = { λ _ e. e ≡ NoMemory };

    fn from(_: AllocError) -> TransFault {
        TransFault::NoMemory
    }
}

impl fmt::Display for TransFault {
    fn fmt<W: fmt::Write>(&self, f: &mut fmt::Formatter<W>) -> fmt::Result {
        match self {
            TransFault::BadName => f.write_str("the path gives no name of a module"),
            TransFault::TooManyNodes(n) => write!(f, "{n} nodes are too many"),
            TransFault::TooManyEdges(n) => write!(f, "{n} edges are too many"),
            TransFault::NoMemory => f.write_str("memory was refused"),
        }
    }
}
