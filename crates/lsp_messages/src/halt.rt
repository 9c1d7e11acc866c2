ghost use Rattle.std.specs.Prelude.{◌≡◌};
ghost use Rattle.lsp_messages.specs.Ends.{halt_of_frame, halt_of_write, status_of};

use lsp_frames::FrameError;
use nav_io::{NoMemory, WriteError};
use std::alloc::AllocError;

/// Why a session halted before its work was done.
#[derive(Clone, Copy, Debug, PartialEq, Eq)]
pub enum Halt {
    /// The source failed; its count of faults rose.
    SourceFailed,
    /// The sink failed; its count of faults rose.
    SinkFailed,
    /// Memory was refused.
    NoMemory,
    /// A block of header lines states a longer body than one may be.
    Large,
    /// A block of header lines isn't of the form or is too long, or the input ends within a message.
    Broken,
}

impl Halt {
    /// The status that tells of it: 3, 4, 5, 6 and 9 in their order.
    pub fn status(self) -> u8
        ensures { result ≡ status_of self }
    {
        match self {
            Halt::SourceFailed => 3,
            Halt::SinkFailed => 4,
            Halt::NoMemory => 5,
            Halt::Large => 6,
            Halt::Broken => 9,
        }
    }
}

impl From<FrameError> for Halt {
    ghost from_gives = { λ error halt. halt ≡ halt_of_frame error };

    fn from(error: FrameError) -> Halt {
        match error {
            FrameError::ReadFault => Halt::SourceFailed,
            FrameError::Broken => Halt::Broken,
            FrameError::TooLong => Halt::Large,
            FrameError::NoMemory => Halt::NoMemory,
        }
    }
}

impl From<WriteError> for Halt {
    ghost from_gives = { λ error halt. halt ≡ halt_of_write error };

    fn from(error: WriteError) -> Halt {
        match error {
            WriteError::WriteFault => Halt::SinkFailed,
            WriteError::NoMemory => Halt::NoMemory,
        }
    }
}

impl From<NoMemory> for Halt {
    ghost use Rattle.lsp_messages.specs.declared.halt.Halt.TheVariants as halt;

    ghost from_gives = { λ _ h. h ≡ halt.NoMemory };

    fn from(_: NoMemory) -> Halt {
        Halt::NoMemory
    }
}

impl From<AllocError> for Halt {
    ghost use Rattle.lsp_messages.specs.declared.halt.Halt.TheVariants as halt;

    ghost from_gives = { λ _ h. h ≡ halt.NoMemory };

    fn from(_: AllocError) -> Halt {
        Halt::NoMemory
    }
}
