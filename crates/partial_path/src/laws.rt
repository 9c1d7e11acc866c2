ghost use Rattle.std.specs.Prelude.{◌≡◌};
ghost use Rattle.partial_path.specs.{declared.bounds.TheConstants.{MAX_RUNS}, declared.slots.TheConstants.{KEY_SIZE}, Limits.{max_runs}, Keys.{key_size}, Laws.{AppliedRulesAreOffered, AreOwnOffers, BeginningsAreCut, CountedRunsAreCut, CutPrefixesAreClosed, CutsAreUnique, CyclesAreCut, JoinedBounds, LandingsTell, MovedRulesAreRuns, MovedStartsAreStarts, NoEdgesNoWalks, OfferedRulesAreStored, PathsAreRuns, ReturnsAreStarts, RunsEndInFiles}};

/// A law: where a counted run has been followed up to one of its cut edges, that prefix is a closed and
/// straight run itself.
pub fn cut_prefixes_are_closed()
    ensures { CutPrefixesAreClosed }
{}

/// A law: every cycle within a file meets a cut node.
pub fn cycles_are_cut()
    ensures { CyclesAreCut }
{}

/// A law: a graph without edges has no walk, so no paths are its path set, and its weight is 0.
pub fn no_edges_no_walks()
    ensures { NoEdgesNoWalks }
{}

/// A law: a partial path of one file, moved to the file's place in a list of files, does what following its
/// edges there does, and its peak is exact.
pub fn moved_paths_are_runs()
    ensures { MovedRulesAreRuns }
{}

/// A law: a path that applies to a configuration is among those that are offered at its start to the
/// configuration's symbols.
pub fn applied_paths_are_offered()
    ensures { AppliedRulesAreOffered }
{}

/// A law: the paths that are offered at a start are stored ones, and begin there.
pub fn offered_paths_are_stored()
    ensures { OfferedRulesAreStored }
{}

/// A law: walks of a file start where walks of the list of files start, the start moved to the file's place.
pub fn moved_starts_are_starts()
    ensures { MovedStartsAreStarts }
{}

/// A law: what is offered at a start of one file is what that file alone offers; at the root each file offers
/// what it offers alone.
pub fn files_offer_their_own()
    ensures { AreOwnOffers }
{}

/// A law: a counted run from a reference, in the whole graph, is cut into stored paths that apply one after the
/// other.
pub fn counted_runs_are_cut()
    ensures { CountedRunsAreCut }
{}

/// A law: stored paths that apply one after the other, from a reference on, do what following their edges in the
/// whole graph does.
pub fn joined_paths_are_runs()
    ensures { PathsAreRuns }
{}

/// A law: a run from a reference is cut into stored paths in one way at most.
pub fn cuts_are_unique()
    ensures { CutsAreUnique }
{}

/// A law: stored paths that apply one after the other do so up to each of them, and all but the last end with a
/// cut edge.
pub fn beginnings_are_cut()
    ensures { BeginningsAreCut }
{}

/// A law: a run that stored paths make is bounded exactly where their edges are few enough together and no path is
/// too high where it applies.
pub fn joined_paths_tell_bounds()
    ensures { JoinedBounds }
{}

/// A law: where a run that stored paths make is cut, and whether it is closed, complete or counted, is told by where
/// the paths land.
pub fn landings_tell()
    ensures { LandingsTell }
{}

/// A law: a run from a reference ends at the root or at a node of the files.
pub fn runs_end_in_files()
    ensures { RunsEndInFiles }
{}

/// A law: a run from a reference is back at its start exactly where it is at the reference with one symbol and no
/// scopes, so that the start itself needn't be known to tell.
pub fn returns_are_starts()
    ensures { ReturnsAreStarts }
{}

/// A law: the limits of the program are those of the definitions.
pub fn limits_are_as_stated()
    ensures runs { MAX_RUNS ≡ max_runs }
    ensures keys { KEY_SIZE ≡ key_size }
{}
