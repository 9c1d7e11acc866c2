//! Which files the edits of a version put or remove.

ghost use Rattle.std.specs.Prelude.{◌≡◌, option_copied};
ghost use Rattle.root_index.specs.Amended.{edit_path, names, is_touched};

use version_tree::{Edit, Version};

/// Of up to how many edits an index is amended path by path.
pub(crate) const FEW_EDITS: usize = 64;

/// Up to how many edits an index is amended by one sort of the edited files' paths behind the others.
const MANY_EDITS: usize = 512;

/// Whether the edits are more than an index is amended of, or more than a few of them name a file that the
/// old version has, whose paths would be taken out one by one.
pub(crate) fn are_many(old: &Version, edits: &[Edit]) -> bool {
    edits.len() > MANY_EDITS || edits.len() > FEW_EDITS && known_among(old, edits) > FEW_EDITS
}

/// How many of the edits name a file that the version has.
fn known_among(old: &Version, edits: &[Edit]) -> usize {
    edits.iter().filter(|edit| is_known(old, edit)).count()
}

/// Whether the edit puts or removes a file that the version has.
fn is_known(old: &Version, edit: &Edit) -> bool {
    match path_of(edit) {
        Some(path) => old.paths_at(path).is_some(),
        None => false,
    }
}

/// Whether one of the edits puts or removes the file at the path.
pub(crate) fn is_touched(edits: &[Edit], path: &str) -> bool
    ensures { result ≡ is_touched edits.now path.now }
{
    edits.iter().any(|edit| names(edit, path))
}

/// Whether the edit puts or removes the file at the path.
fn names(edit: &Edit, path: &str) -> bool
    ensures { result ≡ names path.now edit.now }
{
    match path_of(edit) {
        Some(other) => other.as_bytes().cmp(path.as_bytes()).is_eq(),
        None => false,
    }
}

/// The path of the file that the edit puts or removes; None where it changes who may see what.
pub(crate) fn path_of(edit: &Edit) -> Option<&str>
    ensures { option_copied result ≡ edit_path edit.now }
{
    match edit {
        Edit::Put { path, .. } => Some(path.as_str()),
        Edit::Remove { path } => Some(path.as_str()),
        Edit::Grant { .. } => None,
        Edit::Revoke { .. } => None,
        Edit::Deny { .. } => None,
        Edit::Undeny { .. } => None,
    }
}
