//! The versions of a set of files: what a version holds, what edits make of it, what a user sees of
//! it; and the rows and flag of an answer.
#![tactic(auto)]

mod block;
mod blocks;
mod checks;
mod edit;
mod entry;
mod laws;
mod passes;
mod repeats;
mod row;
mod row_handle;
mod shared_rules;
mod sorted_rows;
mod store;
mod text;
mod version;
mod view;

pub use edit::{Edit, EditFault, MAX_FILES, MAX_NUMBER, MAX_VERSION_WEIGHT};
pub use entry::{EditList, Entry};
pub use laws::{logs_make_graphs, users_see_graphs};
pub use row::{Answer, Row, Rows};
pub use text::{PathText, UserText};
pub use version::Version;
pub use view::View;
