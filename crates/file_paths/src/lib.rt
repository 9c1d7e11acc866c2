//! Finds all partial paths of a file, by walks that are made one edge longer at a time.
#![tactic(auto)]

mod enumerating;
mod fault;
mod growing;
mod starting;

pub use enumerating::{enumerate, find_paths};
pub use fault::{MAX_WEIGHT, PathsFault};
