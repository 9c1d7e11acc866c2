ghost use Rattle.std.specs.Prelude.{◌≡◌, ℕ, IsTrue};
ghost use Rattle.nav_session.specs.Halts.{halt_of_line, halt_of_write, status_of};

use nav_io::{LineError, NoMemory, WriteError};
use std::alloc::{AllocError, AllocFailed};

/// The command did its work.
pub const ANSWERED: u8 = 0;

/// The words are no command.
pub const BAD_WORDS: u8 = 2;

/// The source failed.
pub const SOURCE_FAILED: u8 = 3;

/// The sink failed.
pub const SINK_FAILED: u8 = 4;

/// Memory was refused.
pub const NO_MEMORY: u8 = 5;

/// A line is longer than a line may be.
pub const LONG_LINE: u8 = 6;

/// Why a command halted before its work was done.
#[derive(Clone, Copy, Debug, PartialEq, Eq)]
pub enum Halt {
    /// The source failed; its count of faults rose.
    SourceFailed,
    /// The sink failed; its count of faults rose.
    SinkFailed,
    /// Memory was refused.
    NoMemory,
    /// The next line is longer than a line may be.
    LongLine,
}

impl Halt {
    /// The status that tells of it.
    pub fn status(self) -> u8
        ensures { result ≡ status_of self }
    {
        match self {
            Halt::SourceFailed => SOURCE_FAILED,
            Halt::SinkFailed => SINK_FAILED,
            Halt::NoMemory => NO_MEMORY,
            Halt::LongLine => LONG_LINE,
        }
    }
}

impl From<LineError> for Halt {
    ghost from_gives = { λ error stop. stop ≡ halt_of_line error };

    fn from(error: LineError) -> Halt {
        match error {
            LineError::ReadFault => Halt::SourceFailed,
            LineError::TooLong => Halt::LongLine,
            LineError::NoMemory => Halt::NoMemory,
        }
    }
}

impl From<WriteError> for Halt {
    ghost from_gives = { λ error stop. stop ≡ halt_of_write error };

    fn from(error: WriteError) -> Halt {
        match error {
            WriteError::WriteFault => Halt::SinkFailed,
            WriteError::NoMemory => Halt::NoMemory,
        }
    }
}

impl From<NoMemory> for Halt {
    ghost use Rattle.nav_session.specs.declared.halt.Halt.TheVariants as halt;

    ghost from_gives = { λ _ s. s ≡ halt.NoMemory };

    fn from(_: NoMemory) -> Halt {
        Halt::NoMemory
    }
}

impl From<AllocError> for Halt {
    ghost use Rattle.std.specs.Prelude.{◌≡◌};
    ghost use Rattle.nav_session.specs.declared.halt.Halt.TheVariants as halt;

    ghost from_gives = { λ _ s. s ≡ halt.NoMemory };

    fn from(_: AllocError) -> Halt {
        Halt::NoMemory
    }
}
