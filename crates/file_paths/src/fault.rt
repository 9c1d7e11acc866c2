ghost use Rattle.std.specs.Prelude.{◌≡◌};
ghost use Rattle.file_paths.specs.declared.fault.PathsFault.TheVariants.{NoMemory};

use std::alloc::AllocError;
use std::fmt;

/// Why the paths of a file aren't stored.
#[derive(Clone, Copy, Debug, PartialEq, Eq)]
pub enum PathsFault {
    /// The file's weight exceeds `MAX_WEIGHT`. The number is `MAX_WEIGHT` and one.
    Heavy(u32),
    /// Memory was wanting.
    NoMemory,
}

/// How heavy a file may be: how many edges all its walks may have together.
pub const MAX_WEIGHT: u32 = 1_000_000;

impl fmt::Display for PathsFault {
    fn fmt<W: fmt::Write>(&self, f: &mut fmt::Formatter<W>) -> fmt::Result {
        match self {
            PathsFault::Heavy(_) => f.write_str("the file's walks have too many edges together"),
            PathsFault::NoMemory => f.write_str("memory was refused"),
        }
    }
}

impl From<AllocError> for PathsFault {
    ghost from_gives = { λ _ fault. fault ≡ NoMemory };

    fn from(_: AllocError) -> PathsFault {
        PathsFault::NoMemory
    }
}
