ghost use Rattle.std.specs.Prelude.{◌≡◌};
ghost use Rattle.back_stitch.specs.declared.fault.BackFault.TheVariants.{NoMemory};

use std::alloc::AllocError;
use std::fmt;

/// Why the references that lead to a definition aren't told.
#[derive(Clone, Copy, Debug, PartialEq, Eq)]
pub enum BackFault {
    /// More than 8,192 back lists lead to the definition.
    Many,
    /// Memory was refused.
    NoMemory,
}

impl fmt::Display for BackFault {
    fn fmt<W: fmt::Write>(&self, f: &mut fmt::Formatter<W>) -> fmt::Result {
        f.write_str(match self {
            BackFault::Many => "too many lists of edges lead to the definition",
            BackFault::NoMemory => "memory was refused",
        })
    }
}

impl From<AllocError> for BackFault {
    ghost from_gives = { λ _ fault. fault ≡ NoMemory };

    fn from(_: AllocError) -> BackFault {
        BackFault::NoMemory
    }
}
