//! Graphs, stacks and paths of tests, from short texts. No part of the server.
#![tactic(auto)]

mod fault;
mod files;
mod inside;
mod rows;
mod stacks;

pub use fault::TextFault;
pub use files::{MAX_PARTS, files_of};
pub use inside::apply_inside;
pub use rows::{ANSWERED, COMPARED};
pub use stacks::stacks_of;
