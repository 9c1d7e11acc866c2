//! A demonstration: a made tree of any size is committed and queried in one session, and told as a summary.
#![tactic(auto)]

mod graph;
mod laws;
mod session;
mod showing;
mod totals;
mod tree;

pub use laws::trees_have_one_summary;
pub use showing::demo;
pub use totals::Totals;
