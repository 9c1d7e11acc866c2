ghost use Rattle.std.specs.Prelude.{◌≡◌};
ghost use Rattle.stitcher.specs.declared.found.StitchFault.TheVariants.{NoMemory};

use crate::complete::CompleteRun;
use std::alloc::AllocError;
use std::fmt;

/// The bounded complete runs of a reference, each once, and whether a counted run was left out for its length or
/// depth.
#[derive(Drop)]
pub struct Stitched<'a> {
    pub complete: Vec<CompleteRun<'a>>,
    pub limit: bool,
}

/// Why a reference has no runs told.
#[derive(Clone, Copy, Debug, PartialEq, Eq)]
pub enum StitchFault {
    /// More than 8,192 bounded counted runs start at the reference.
    Crowded,
    /// Memory was refused.
    NoMemory,
}

impl fmt::Display for StitchFault {
    fn fmt<W: fmt::Write>(&self, f: &mut fmt::Formatter<W>) -> fmt::Result {
        f.write_str(match self {
            StitchFault::Crowded => "the reference has too many runs",
            StitchFault::NoMemory => "memory was refused",
        })
    }
}

impl From<AllocError> for StitchFault {
    ghost from_gives = { λ _ fault. fault ≡ NoMemory };

    fn from(_: AllocError) -> StitchFault {
        StitchFault::NoMemory
    }
}
