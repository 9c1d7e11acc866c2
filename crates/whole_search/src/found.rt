ghost use Rattle.std.specs.Prelude.{◌≡◌};
ghost use Rattle.whole_search.specs.declared.found.SearchFault.TheVariants.{NoMemory};

use stacks_vars::Listed;
use std::alloc::AllocError;
use std::fmt;

/// A node that answers a query: its file's place in the list of files, and its position in that file.
#[derive(Clone, Copy, Debug, PartialEq, Eq, PartialOrd, Ord)]
pub struct Hit {
    pub file: u32,
    pub node: u32,
}

/// The rows of an answer.
pub type Hits = Listed<Hit>;

/// An answer: its rows in file order, each once, and whether a run was left out for its length or depth.
#[derive(Debug, Drop)]
pub struct Found {
    pub rows: Hits,
    pub limit: bool,
}

/// Why a search has no answer.
#[derive(Clone, Copy, Debug, PartialEq, Eq)]
pub enum SearchFault {
    /// More than `MAX_RUNS` bounded counted runs start at the reference.
    Crowded,
    /// Memory was refused.
    NoMemory,
}

impl fmt::Display for SearchFault {
    fn fmt<W: fmt::Write>(&self, f: &mut fmt::Formatter<W>) -> fmt::Result {
        f.write_str(match self {
            SearchFault::Crowded => "the reference has too many runs",
            SearchFault::NoMemory => "memory was refused",
        })
    }
}

impl From<AllocError> for SearchFault {
    ghost from_gives = { λ _ fault. fault ≡ NoMemory };

    fn from(_: AllocError) -> SearchFault {
        SearchFault::NoMemory
    }
}
