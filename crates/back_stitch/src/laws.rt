ghost use Rattle.back_stitch.specs.{Cuts.{CutsFromAreUnique, ExportedScopesStay, LandingRunsAreCut, LeadingPathsAreRuns, MovedByNothingStays}, Laws.{RoundsCanBeCut}};

/// A law: a reference begins a back list of a definition, on empty stacks, exactly where some bounded complete run
/// leads from it to the definition, since a round between equal configurations can be cut out.
pub fn rounds_can_be_cut()
    ensures { RoundsCanBeCut }
{}

/// A law: a run from any start of walks, on stacks that hold exported scopes alone, that is closed or ends at a
/// definition, is cut into stored paths that apply one after the other.
pub fn landing_runs_are_cut()
    ensures { LandingRunsAreCut }
{}

/// A law: a run is cut into stored paths in one way at most, wherever it starts and whatever the stacks are.
pub fn cuts_from_are_unique()
    ensures { CutsFromAreUnique }
{}

/// A law: stored paths that apply one after the other, from anywhere on, do what following their edges in the whole
/// graph does, and the highest of them is as high as that run.
pub fn leading_paths_are_runs()
    ensures { LeadingPathsAreRuns }
{}

/// A law: stored paths leave no scopes on the stacks but exported ones, where there were no others.
pub fn exported_scopes_stay()
    ensures { ExportedScopesStay }
{}

/// A law: a path moved by 0 is itself, so that one that was moved to its file's place is applied as it is.
pub fn moved_by_nothing_stays()
    ensures { MovedByNothingStays }
{}
