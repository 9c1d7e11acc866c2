//! The partial paths of files, kept under a digest of each file's path and bytes.
#![tactic(auto)]

mod buckets;
mod digested;
mod document;
mod held;
mod laws;
mod store;

pub use digested::Digested;
pub use document::Document;
pub use laws::{a_sweep_leaves_the_newest, what_is_kept_is_found};
pub use store::PathStore;
