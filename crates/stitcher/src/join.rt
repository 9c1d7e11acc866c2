//! Whether a stored path is joined, and where it lands.
ghost use Rattle.std.specs.{Prelude.{◌≡◌, ◌&&◌, ◌↔◌, ◌⊎◌, [], ◌∷◌, map, IfOk, IfSome, OnOk, IsTrue, Some, filter, length}, Option.{option_map_or, is_some}, List.{list_any}};
ghost use Rattle.partial_path.specs.{Same.{config_eq, spot_eq}, Apply.{apply, match_stacks}, Rules.{start_spot}, Moved.{moved, moved_start, moved_pre, moved_end}, Limits.{max_runs}, Sources.{graphs_of}, Laws.{IsSpotOf, IsAtStart}};
ghost use Rattle.stitcher.specs.{Ends.{end_cut}, Joins.{joined, with_path, joined_by, is_at_cut, is_bounded_counted}, Opens.{AreAdded, AreTaken}, Trail.{paths_of, landed_at, stood, IsOffered, IsStanding}};

use crate::found::StitchFault;
use crate::landing::{is_at_cut, is_cut_end, is_within, may_land};
use crate::matching::is_met;
use crate::note::{Run, note};
use crate::room::Room;
use crate::search::Search;
use crate::tally::Progress;
use crate::trail::{Level, Standing, has_landed, is_back};
use partial_path::{
    LentConfig, PathSource, StoredPath, file_zero_moves, joined_paths_are_runs, returns_are_starts,
    runs_end_in_files,
};
use std::alloc::AllocError;

/// Where a stored path lands that is joined, and whether runs are cut there.
#[derive(Drop)]
pub struct Landing<'a> {
    pub at: LentConfig<'a>,
    pub cut: bool,
}

/// Whether a run that lands there, at a cut, is where it was before: at its start, or where one of its paths landed.
fn comes_back<P: PathSource>(
    search: &Search<'_, P>,
    trail: &[Level],
    cut: bool,
    next: &LentConfig<'_>,
) -> bool
    ensures { IsTrue result ↔ (IsTrue cut × (IsAtStart search.now.node next.now
        ⊎ IsTrue (list_any (config_eq next.now) (map landed_at trail.now)))) }
{
    cut && (is_back(search.node, next) || has_landed(trail, next))
}

/// Where the path lands that is joined where the search stands, where the path is met; None where it ends by the stack
/// and no scope is there, or the run wouldn't be straight. It is told whether the path ends at a cut, where the path
/// tells that.
pub fn landing_of<'a, P: PathSource>(
    room: &mut Room<'a>,
    search: &Search<'a, P>,
    here: &Standing<'_, 'a>,
    file: u32,
    path: &StoredPath<'a>,
    cut: Option<bool>,
) -> Result<Option<Landing<'a>>, AllocError>
    requires here { IsStanding search.now here.now }
    requires offered { IsOffered search.now here.now.trail.now here.now.at.now (file, path.now) }
    requires met { IsTrue
        (spot_eq (start_spot (moved_start file path.now.start)) here.now.at.now.spot
        && is_some (match_stacks (moved_pre file path.now.pre) here.now.at.now.stacks)) }
    requires cut { cut ≡ end_cut (graphs_of search.now.files) (moved_end file path.now.end) }
    ensures applies { IfOk result (λ o. IfSome o
        (λ landing. apply (moved file path.now) here.now.at.now ≡ Some landing.at)) }
    ensures spot { IfOk result (λ o. IfSome o
        (λ landing. IsSpotOf (graphs_of search.now.files) landing.at.spot)) }
    ensures cut { IfOk result (λ o. IfSome o
        (λ landing. landing.cut ≡ is_at_cut search.now landing.at)) }
    ensures joined { IfOk result (λ o. joined_by search.now (stood here.now) (file, path.now)
        ≡ option_map_or (λ landing. joined
        (with_path (paths_of here.now.trail.now) (file, path.now)) landing.at ∷ []) o []) }
{
    file_zero_moves();
    joined_paths_are_runs();
    runs_end_in_files();
    returns_are_starts();
    let spare = room.take()?;
    let Some(next) = path.apply_met(room.alloc(), spare, file, here.at)? else {
        return Ok(None);
    };
    let is_cut = is_at_cut(search, cut, &next);
    if comes_back(search, here.trail, is_cut, &next) {
        room.give(next);
        return Ok(None);
    }
    Ok(Some(Landing {
        at: next,
        cut: is_cut,
    }))
}

/// Joins a stored path that is offered where the search stands, and notes what comes of it. A path that ends at no cut
/// and leaves symbols isn't applied: no run is told of there. Past the bounds it is looked at only until one counted run
/// past them is found.
pub fn join<'a, P: PathSource>(
    room: &mut Room<'a>,
    search: &Search<'a, P>,
    here: &Standing<'_, 'a>,
    file: u32,
    path: &StoredPath<'a>,
    progress: &mut Progress<'a>,
) -> Result<(), StitchFault>
    requires here { IsStanding search.now here.now }
    requires offered { IsOffered search.now here.now.trail.now here.now.at.now (file, path.now) }
    ensures taken { OnOk result (AreTaken search.now here.now.trail.now
        (joined_by search.now (stood here.now) (file, path.now)) progress.old progress.new) }
    ensures added { OnOk result (AreAdded search.now here.now.trail.now progress.old progress.new) }
    ensures full { result ≡ Err StitchFault.Crowded → progress.old.tally.counted ≡ max_runs }
    ensures crowded { result ≡ Err StitchFault.Crowded
        → length (filter (is_bounded_counted search.now)
        (joined_by search.now (stood here.now) (file, path.now))) ≡ 1 }
{
    file_zero_moves();
    joined_paths_are_runs();
    runs_end_in_files();
    let more = path.edge_numbers().len();
    if !is_met(file, path, here.at) {
        return Ok(());
    }
    let bounded = is_within(search, here.edges, path, here.at);
    if progress.tally.limit && !bounded {
        return Ok(());
    }
    let cut = is_cut_end(search, file, path);
    if !may_land(cut, path, here.at) {
        return Ok(());
    }
    let Some(landing) = landing_of(room, search, here, file, path, cut)? else {
        return Ok(());
    };
    let run = Run {
        cut: landing.cut,
        edges: here.edges + more,
        bounded,
        level: Level {
            file,
            path: path.again(),
            at: landing.at,
        },
    };
    note(room, search, here.trail, run, progress)
}
