//! Joining backward: the references from which runs lead to a definition, found by joining stored paths on the left.
#![tactic(auto)]

mod ending;
mod extend;
mod fault;
mod join;
mod kept;
mod laws;
mod plain;
mod searching;
mod source;
mod tally;

pub use ending::is_definition_in;
pub use fault::BackFault;
pub use laws::{
    cuts_from_are_unique, exported_scopes_stay, landing_runs_are_cut, leading_paths_are_runs,
    moved_by_nothing_stays, rounds_can_be_cut,
};
pub use plain::PlainEnds;
pub use searching::back;
pub use source::BackSource;
