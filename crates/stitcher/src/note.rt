//! What is noted of a run that is longer than the trail by a path.
ghost use Rattle.std.specs.Prelude.{◌≡◌, ◌++◌, [], ◌∷◌, All, IfOk, IsOk, IsTrue, OnOk, true, false};
ghost use Rattle.partial_path.specs.{declared.config.Spot.TheVariants.{Root}, Limits.{max_runs}};
ghost use Rattle.stitcher.specs.{Joins.{is_bounded_counted, with_path}, Opens.{AreAdded, AreTaken, IsLanded, joined_run, kept_runs, opened_at, opens_of, run_of, those}, Trail.{Moves, paths_of, path_of}};

use crate::complete::{CompleteRun, RunPath};
use crate::found::StitchFault;
use crate::landing::is_at_result;
use crate::room::Room;
use crate::search::Search;
use crate::tally::Progress;
use crate::trail::{Level, Open};
use partial_path::{PathSource, Spot};
use std::alloc::AllocError;

/// A run that is longer than the trail by a path, as it landed.
#[derive(Drop)]
pub struct Run<'a> {
    /// Its last path, and where that landed.
    pub level: Level<'a>,
    /// How many edges its paths have together.
    pub edges: usize,
    pub bounded: bool,
    /// Whether it ends at a cut.
    pub cut: bool,
}

/// Notes the run, which is longer than the trail by a path: it is counted and kept as it lands, and open where more
/// paths are joined to it.
pub fn note<'a, P: PathSource>(
    room: &mut Room<'a>,
    search: &Search<'a, P>,
    trail: &[Level<'a>],
    run: Run<'a>,
    progress: &mut Progress<'a>,
) -> Result<(), StitchFault>
    requires run { IsLanded search.now trail.now run }
    ensures taken { OnOk result (AreTaken search.now trail.now
        (run_of trail.now run.entry ∷ []) progress.old progress.new) }
    ensures added { OnOk result (AreAdded search.now trail.now progress.old progress.new) }
    ensures full { result ≡ Err StitchFault.Crowded → progress.old.tally.counted ≡ max_runs }
    ensures crowded { result ≡ Err StitchFault.Crowded
        → IsTrue (is_bounded_counted search.now (run_of trail.now run.entry)) }
{
    let complete = is_at_result(search, &run.level.at);
    let tally = &mut progress.tally;
    tally.count(run.cut | complete, run.bounded)?;
    let is_kept = complete & run.bounded;
    keep_if(room, &mut tally.complete, trail, &run, is_kept)?;
    let goes_on = run.cut & run.bounded;
    push_if(room, &mut progress.work, trail, run, goes_on)?;
    Ok(())
}

/// Keeps the run where it is complete: its paths, and the node where it ends. It takes memory for a complete one alone.
fn keep_if<'a>(
    room: &mut Room<'a>,
    complete: &mut Vec<CompleteRun<'a>>,
    trail: &[Level<'a>],
    run: &Run<'a>,
    is_complete: bool,
) -> Result<(), AllocError>
    requires trail { All (λ l. Moves l.file l.path) trail.now }
    requires level { Moves run.now.level.file run.now.level.path }
    requires node { is_complete ≡ true → run.now.level.at.spot ≡ Root → ⊥ }
    ensures kept { OnOk result (kept_runs complete.new.items ≡ kept_runs complete.old.items
        ++ those is_complete (joined_run (run_of trail.now run.now))) }
    ensures memory { is_complete ≡ false → IsOk result }
{
    if !is_complete {
        return Ok(());
    }
    let Spot::At(end) = run.level.at.spot() else {
        return Ok(());
    };
    let paths = paths_with(room, trail, &run.level)?;
    complete.push(CompleteRun::of(paths, run.edges, end))?;
    Ok(())
}

/// The paths of the trail, and one path more.
fn paths_with<'a>(
    room: &mut Room<'a>,
    trail: &[Level<'a>],
    level: &Level<'a>,
) -> Result<Vec<RunPath<'a>>, AllocError>
    requires trail { All (λ l. Moves l.file l.path) trail.now }
    requires level { Moves level.now.file level.now.path }
    ensures { IfOk result
        (λ paths. paths.items ≡ with_path (paths_of trail.now) (path_of level.now)) }
{
    let mut paths = room.take_paths();
    // For all of them at once, so that the vector never grows.
    paths.reserve(trail.len().saturating_add(1))?;
    for joined in trail {
        paths.push(RunPath::of(joined))?;
    }
    paths.push(RunPath::of(level))?;
    Ok(paths)
}

/// Adds the run to the open ones, where more paths are joined to it; else where it landed is spare. It takes memory for
/// an open one alone.
fn push_if<'a>(
    room: &mut Room<'a>,
    work: &mut Vec<Open<'a>>,
    trail: &[Level],
    run: Run<'a>,
    goes_on: bool,
) -> Result<(), AllocError>
    ensures opens { OnOk result (opens_of trail.now work.new.items
        ≡ opens_of trail.now work.old.items ++ those goes_on (run_of trail.now run.entry)) }
    ensures added { OnOk result (work.new.items
        ≡ work.old.items ++ those goes_on (opened_at trail.now run.entry)) }
    ensures memory { goes_on ≡ false → IsOk result }
{
    if !goes_on {
        room.give(run.level.at);
        return Ok(());
    }
    work.push(Open {
        depth: trail.len(),
        edges: run.edges,
        level: run.level,
    })?;
    Ok(())
}
