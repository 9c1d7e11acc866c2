//! Going over a user's paths from the root, file by file.
ghost use Rattle.std.specs.Prelude.{◌≡◌, ◌<◌, [], ◌∷◌, ◌+◌, drop, filter, option_copied, IfSome, MatchOption};
ghost use Rattle.partial_path.specs.Sources.{asks_rule};
ghost use Rattle.root_index.specs.{Roots.{root}, Offers.{files_of}, Looks.{look_behind, look_here, look_left}};

use partial_path::{Spot, Start, StoredPath, StoredPaths, asks};
use stacks_vars::Symbol;
use version_tree::View;

/// Where a look at the paths from the root stands.
#[derive(Clone, Copy, Debug)]
pub struct RootLook {
    /// The number of a file in the view.
    pub file: u32,
    /// The place of the path that comes next among those of the file that begin at the root.
    pub place: usize,
}

/// The path that comes next in the look, with its file's number, and where the look stands after it.
pub(crate) fn next_looked<'a>(
    view: &'a View,
    symbol: Option<&Symbol>,
    at: RootLook,
) -> Option<(u32, StoredPath<'a>, RootLook)>
    ensures { MatchOption result (look_left (files_of view.now) (option_copied symbol.entry) at
        ≡ []) (λ found. look_left (files_of view.now) (option_copied symbol.entry) at
        ≡ (found.0, found.1) ∷ look_left (files_of view.now) (option_copied symbol.entry) found.2) }
{
    match looked_here(view, symbol, at) {
        Some(found) => Some(found),
        None => looked_behind(view, symbol, at),
    }
}

/// The same of the file where the look stands alone.
fn looked_here<'a>(
    view: &'a View,
    symbol: Option<&Symbol>,
    at: RootLook,
) -> Option<(u32, StoredPath<'a>, RootLook)>
    ensures next { MatchOption result (look_here (files_of view.now)
        (option_copied symbol.entry) at ≡ []) (λ found. look_here (files_of view.now)
        (option_copied symbol.entry) at ≡ (found.0, found.1) ∷ look_here (files_of view.now)
        (option_copied symbol.entry) found.2) }
    ensures file { IfSome result (λ found. found.2.file ≡ at.file) }
{
    if at.file >= view.row_count() {
        return None;
    }
    let paths = view
        .paths(at.file)
        .get()
        .paths_from(Start::After(Spot::Root));
    match next_asked(&paths, symbol, at.place) {
        Some((path, place)) => {
            let after = RootLook {
                file: at.file,
                place,
            };
            Some((at.file, path, after))
        }
        None => None,
    }
}

/// The same of the files behind that one.
fn looked_behind<'a>(
    view: &'a View,
    symbol: Option<&Symbol>,
    at: RootLook,
) -> Option<(u32, StoredPath<'a>, RootLook)>
    ensures { MatchOption result (look_behind (files_of view.now) (option_copied symbol.entry) at
        ≡ []) (λ found. look_behind (files_of view.now) (option_copied symbol.entry) at
        ≡ (found.0, found.1) ∷ look_left (files_of view.now) (option_copied symbol.entry) found.2) }
{
    let count = view.row_count();
    if at.file >= count {
        return None;
    }
    for file in at.file + 1..count {
        if let Some(found) = looked_here(view, symbol, RootLook { file, place: 0 }) {
            return Some(found);
        }
    }
    None
}

/// The first of the paths from that place on that can be met with that symbol in front, and the place behind
/// it.
fn next_asked<'a>(
    paths: &StoredPaths<'a>,
    symbol: Option<&Symbol>,
    place: usize,
) -> Option<(StoredPath<'a>, usize)>
    ensures { MatchOption result (filter (asks_rule (option_copied symbol.entry))
        (drop place paths.now) ≡ []) (λ found. filter (asks_rule (option_copied symbol.entry))
        (drop place paths.now) ≡ found.0 ∷ filter (asks_rule (option_copied symbol.entry))
        (drop found.1 paths.now)) }
{
    for i in place..paths.len() {
        let path = paths.at(i);
        if asks(&path, symbol) {
            return Some((path, i + 1));
        }
    }
    None
}
