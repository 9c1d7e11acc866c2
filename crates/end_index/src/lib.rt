//! The stored paths of what a user sees, found by where they end: a source for joining backward.
#![tactic(auto)]

mod index;
mod inside;
mod listing;
mod nodes;
mod outside;
mod place;
mod runs;
mod sharing;
mod side;
mod source;

pub use index::EndIndex;
pub use nodes::file_in;
pub use place::EndPlace;
pub use runs::EndRuns;
pub use source::{EndLook, EndSource};
