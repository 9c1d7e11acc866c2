ghost use Rattle.stitcher.specs.Laws.{CutLaws, MetPathsTell};

use partial_path::{
    applied_paths_are_offered, beginnings_are_cut, counted_runs_are_cut, cuts_are_unique,
    joined_paths_are_runs, joined_paths_tell_bounds, landings_tell,
};

/// A law: the lists of stored paths that are met from a reference, by joining to each of them that is within the
/// bounds and closed the paths that are offered where it lands, are all that tells of its runs: the bounded
/// complete ones, each once, whether there are too many bounded counted ones, and whether a counted run isn't
/// bounded.
pub fn joined_paths_tell()
    ensures { MetPathsTell }
{
    cutting_laws();
}

/// The laws of cut runs, together.
pub fn cutting_laws()
    ensures { CutLaws }
{
    applied_paths_are_offered();
    beginnings_are_cut();
    counted_runs_are_cut();
    cuts_are_unique();
    joined_paths_are_runs();
    joined_paths_tell_bounds();
    landings_tell();
}
