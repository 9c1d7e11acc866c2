//! Runs in the whole graph of a list of files, and partial paths: rules that do at once what following their
//! edges does.
#![tactic(auto)]

mod applying;
mod bounds;
mod config;
mod end_table;
mod fault;
mod file_list;
mod file_paths;
mod filling;
mod halving;
mod heads;
mod laws;
mod lent_config;
mod list_paths;
mod marks;
mod matching;
mod moving;
mod offers;
mod path;
mod path_row;
mod places;
mod pools;
mod rule;
mod shared;
mod slots;
mod sorting;
mod source;
mod start_table;
mod stepping;
mod stored;
mod stored_paths;

pub use bounds::{Bounds, MAX_RUNS};
pub use config::{Config, EdgeAt, Spot};
pub use end_table::{EndMark, ends_by_stack};
pub use fault::PathFault;
pub use file_list::{FileList, ListOffers};
pub use file_paths::FilePaths;
pub use laws::{
    applied_paths_are_offered, beginnings_are_cut, counted_runs_are_cut, cut_prefixes_are_closed,
    cuts_are_unique, cycles_are_cut, files_offer_their_own, joined_paths_are_runs,
    joined_paths_tell_bounds, landings_tell, limits_are_as_stated, moved_paths_are_runs,
    moved_starts_are_starts, no_edges_no_walks, offered_paths_are_stored, returns_are_starts,
    runs_end_in_files,
};
pub use lent_config::LentConfig;
pub use list_paths::asks;
pub use marks::{end_key, with_symbol};
pub use moving::file_zero_moves;
pub use offers::FileOffers;
pub use path::{PartialPath, PathParts};
pub use places::{edge_at, is_at_definition, is_definition_spot, kind_at};
pub use rule::{End, Start};
pub use shared::SharedPaths;
pub use slots::{KEY_SIZE, key_side, keys_cmp, symbol_at};
pub use source::PathSource;
pub use start_table::count_before;
pub use stepping::{is_cut_edge, start, step, symbol_of};
pub use stored::StoredPath;
pub use stored_paths::StoredPaths;
