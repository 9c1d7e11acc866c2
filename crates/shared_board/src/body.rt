//! What goes with a log that is published: its version, and how many entries each seat has.
ghost use Rattle.std.specs.{Prelude.{◌≡◌, ◌<◌, ◌+◌, ◌^◌, ℕ, [], Err, IfOk, length, slice_index, slice_set}, Arc.{arc_value}};
ghost use Rattle.shared_board.specs.Bodies.{IsBodyOf};

use root_index::RootIndex;
use std::alloc::{AllocError, Global};
use std::sync::Arc;
use version_board::Pinned;
use version_tree::Version;

/// The version of a log with its index, and how many entries each seat has.
#[derive(Drop)]
pub struct Body {
    pub pinned: Pinned,
    pub counts: Vec<u32>,
}

impl Body {
    /// That of the empty log, for so many seats.
    #[tactic(auto, using(crate::proofs::Counted::no_counts))]
    pub fn first(alloc: Global, seats: u32) -> Result<Body, AllocError>
        ensures { IfOk result (λ body. IsBodyOf seats body []) }
    {
        let version = Arc::new(alloc, Version::empty(alloc, 0))?;
        let index = Arc::new(alloc, RootIndex::empty(alloc))?;
        let counts = Vec::from_elem(alloc, 0u32, seats as usize)?;
        Ok(Body {
            pinned: Pinned { version, index },
            counts,
        })
    }
}
