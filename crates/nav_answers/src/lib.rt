//! The queries of the server over what a user may see: where a reference is defined, and where a definition is
//! referred to.
#![tactic(auto)]

mod asked_view;
mod asking;
mod calling;
mod defining;
mod found;
mod in_file;
mod jobs;
mod laws;
mod links;
mod listing;
mod meaning;
mod over;
mod parts;
mod referring;
mod rows;
mod sharing;
mod source;
mod twins;
mod uniting;
mod viewed;

pub use asked_view::AskedView;
pub use calling::callers;
pub use defining::define;
pub use end_index::EndIndex;
pub use found::{AskFault, At};
pub use laws::{callers_have_one_reply, queries_have_one_reply, twins_are_found_alike};
pub use meaning::definition_at;
pub use over::Over;
pub use referring::references;
pub use uniting::references_of_any;
pub use version_tree::{Answer, Row};
