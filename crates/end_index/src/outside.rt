//! The paths of an index that may make what is asked for.
ghost use Rattle.std.specs.Prelude.{◌≡◌, ◌≤◌, [], ◌∷◌, length, All, MatchOption};
ghost use Rattle.partial_path.specs.Keys.{asked_texts, key_size};
ghost use Rattle.root_index.specs.Offers.{files_of};
ghost use Rattle.end_index.specs.{Ends.{all_of}, Runs.{AreByRank}, Looks.{AreThere, outside_left, rule_in}};

use crate::nodes::file_in;
use crate::place::EndPlace;
use crate::runs::{EndRuns, next_place};
use partial_path::StoredPath;
use stacks_vars::{Listed, SymPat};
use version_tree::View;

/// The path of the view that comes next in the look-up in these shares, with its file's number, and where the look-up
/// stands after it; None where there is no more.
pub(crate) fn next_outside<'a>(
    view: &'a View,
    shares: &[Listed<EndPlace>],
    symbols: &[SymPat],
    at: EndRuns,
) -> Option<(u32, StoredPath<'a>, EndRuns)>
    requires order { All AreByRank shares.now }
    requires few { length symbols.now ≤ key_size }
    requires there { AreThere (files_of view.now) (all_of shares.now) }
    ensures { MatchOption result
        (outside_left (files_of view.now) (asked_texts symbols.now) shares.now at ≡ [])
        (λ found. outside_left (files_of view.now) (asked_texts symbols.now) shares.now at
        ≡ (found.0, found.1)
        ∷ outside_left (files_of view.now) (asked_texts symbols.now) shares.now found.2) }
{
    let (place, after) = next_place(shares, symbols, at)?;
    let path = path_at(view, place)?;
    Some((place.file, path, after))
}

/// The path that an index names; None where the view has none there.
fn path_at(view: &View, at: EndPlace) -> Option<StoredPath<'_>>
    ensures { result ≡ rule_in (files_of view.now) at }
{
    let file = file_in(view, at.file as usize)?;
    file.paths().get(at.place as usize)
}
