ghost use Rattle.std.specs.Prelude.{◌≡◌};
ghost use Rattle.nav_answers.specs.{declared.found.AskFault.TheVariants.{NoMemory}, Faults.{ask_fault}};

use std::alloc::{AllocError, AllocFailed};
use std::fmt;
use stitcher::StitchFault;

/// Where in a file a query asks: at a node, by its position from 0, or at a point of the text, by its line and its
/// column in bytes, both from 0.
#[derive(Clone, Copy, Debug, PartialEq, Eq)]
pub enum At {
    Node(u32),
    Point(u32, u32),
}

/// Why a query has no answer. Where several stand, it is the first of them.
#[derive(Clone, Copy, Debug, PartialEq, Eq)]
pub enum AskFault {
    /// The user sees no file with that path.
    NoFile,
    /// The file has no reference there.
    NoReference,
    /// The file has no definition there.
    NoDefinition,
    /// The reference, or one of those that are asked about, has too many runs.
    Crowded,
    /// Memory was refused.
    NoMemory,
}

impl fmt::Display for AskFault {
    fn fmt<W: fmt::Write>(&self, f: &mut fmt::Formatter<W>) -> fmt::Result {
        f.write_str(match self {
            AskFault::NoFile => "no such file is seen",
            AskFault::NoReference => "there is no reference",
            AskFault::NoDefinition => "there is no definition",
            AskFault::Crowded => "a reference has too many runs",
            AskFault::NoMemory => "memory was refused",
        })
    }
}

/// What a query says where stitching has the fault.
pub fn ask_fault(fault: StitchFault) -> AskFault
    ensures { result ≡ ask_fault fault }
{
    match fault {
        StitchFault::Crowded => AskFault::Crowded,
        StitchFault::NoMemory => AskFault::NoMemory,
    }
}

impl From<AllocError> for AskFault {
    ghost from_gives = { λ _ fault. fault ≡ NoMemory };

    fn from(_: AllocError) -> AskFault {
        AskFault::NoMemory
    }
}

impl<T: Drop> From<AllocFailed<T>> for AskFault {
    ghost from_gives = { λ _ fault. fault ≡ NoMemory };

    fn from(_: AllocFailed<T>) -> AskFault {
        AskFault::NoMemory
    }
}
