//! The plain search: the definitions of a reference, by runs over the whole graph of a list of files.
#![tactic(auto)]

mod answer;
mod dead_ends;
mod edges;
mod follow;
mod found;
mod leads;
mod open;
mod paths;
mod query;
mod rows;
mod run;
mod spot;
mod tally;
mod walk;
mod watch;

pub use answer::{is_reference, search};
pub use found::{Found, Hit, Hits, SearchFault};
pub use partial_path::Bounds;
pub use rows::in_order;
