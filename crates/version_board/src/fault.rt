ghost use Rattle.std.specs.Prelude.{◌≡◌};
ghost use Rattle.version_board.specs.declared.fault.CommitFault.TheVariants.{NoMemory};

use std::alloc::{AllocError, AllocFailed};
use std::fmt;
use version_tree::EditFault;

/// Why a commit was refused, in the order in which the refusals are looked for.
#[derive(Debug, Drop)]
pub enum CommitFault {
    /// A base was given, and isn't the head, which is told.
    Stale(u32),
    /// The edits are refused on the head; the fault is never want of memory.
    Edit(EditFault),
    /// Memory was refused.
    NoMemory,
}

impl fmt::Display for CommitFault {
    fn fmt<W: fmt::Write>(&self, f: &mut fmt::Formatter<W>) -> fmt::Result {
        match self {
            CommitFault::Stale(head) => write!(f, "the head is {head}"),
            CommitFault::Edit(fault) => write!(f, "{fault}"),
            CommitFault::NoMemory => f.write_str("memory was refused"),
        }
    }
}

impl From<AllocError> for CommitFault {
    ghost from_gives = { λ _ fault. fault ≡ NoMemory };

    fn from(_: AllocError) -> CommitFault {
        CommitFault::NoMemory
    }
}

impl<T: Drop> From<AllocFailed<T>> for CommitFault {
    ghost from_gives = { λ _ fault. fault ≡ NoMemory };

    fn from(_: AllocFailed<T>) -> CommitFault {
        CommitFault::NoMemory
    }
}
