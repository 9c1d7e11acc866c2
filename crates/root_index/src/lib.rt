//! The index of a version's paths from the root: which of them a user may see and a stack can meet.
#![tactic(auto)]

mod block;
mod blocks;
mod edited_files;
mod file_handle;
mod file_numbers;
mod file_roots;
mod group;
mod group_list;
mod groups;
mod halving;
mod hints;
mod index;
mod key_heads;
mod laws;
mod looks;
mod met;
mod offers;
mod seen_files;
mod slot;
mod slot_list;
mod with_files;
mod without_files;

pub use index::RootIndex;
pub use laws::rows_have_one_index;
pub use looks::RootLook;
pub use offers::RootOffers;
pub use seen_files::SeenFiles;
