//! Stitching: the runs of a reference over the whole graph of a list of files, found by joining stored paths.
#![tactic(auto)]

mod complete;
mod found;
mod join;
mod landing;
mod laws;
mod matching;
mod note;
mod room;
mod search;
mod stitching;
mod tally;
mod trail;

pub use complete::CompleteRun;
pub use found::{StitchFault, Stitched};
pub use laws::joined_paths_tell;
pub use room::Room;
pub use stitching::stitch;
