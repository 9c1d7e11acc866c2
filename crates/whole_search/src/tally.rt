ghost use Rattle.std.specs.Prelude.{◌≡◌, ◌≤◌, [], false, IsTrue, ◌&&◌, OnOk};
ghost use Rattle.partial_path.specs.declared.bounds.TheConstants.{MAX_RUNS};
ghost use Rattle.whole_search.specs.Open.{open_completes, open_lands, IsNoted};

use crate::found::SearchFault;
use crate::open::Open;
use crate::run::Run;
use crate::spot::{ends_cut, is_at_definition};
use graph_nodes::FileGraph;
use partial_path::MAX_RUNS;
use std::alloc::Global;

/// What was found by the runs that were met so far.
#[derive(Debug, Drop)]
pub struct Tally {
    /// The bounded complete runs.
    pub runs: Vec<Run>,
    /// How many bounded counted runs there are.
    pub counted: usize,
    /// Whether some counted run isn't bounded.
    pub limit: bool,
}

impl Tally {
    /// Nothing found yet.
    pub fn new(alloc: Global) -> Tally
        ensures runs { result.runs.items ≡ [] }
        ensures counted { result.counted ≡ 0 }
        ensures limit { result.limit ≡ false }
    {
        Tally {
            runs: Vec::new(alloc),
            counted: 0,
            limit: false,
        }
    }

    /// Notes a run. It is `Crowded` where one bounded counted run more than `MAX_RUNS` is met.
    pub fn note(
        &mut self,
        alloc: Global,
        files: &[FileGraph],
        reached: &Open,
    ) -> Result<(), SearchFault>
        requires { self.old.counted ≤ MAX_RUNS }
        ensures noted { OnOk result (IsNoted files.now reached.now self.old self.new) }
        ensures few { OnOk result (self.new.counted ≤ MAX_RUNS) }
        ensures full { result ≡ Err SearchFault.Crowded → self.old.counted ≡ MAX_RUNS }
        ensures crowded { result ≡ Err SearchFault.Crowded
            → IsTrue (open_lands files.now reached.now && reached.now.bounded) }
    {
        let complete = completes(files, reached);
        if !complete && !ends_cut(files, reached.run.edges()) {
            return Ok(());
        }
        if !reached.bounded {
            self.limit = true;
            return Ok(());
        }
        // Asked before the run counts, so that exactly `MAX_RUNS` of them are no crowd.
        if self.counted == MAX_RUNS {
            return Err(SearchFault::Crowded);
        }
        self.counted += 1;
        if !complete {
            return Ok(());
        }
        self.runs.reserve(1)?;
        self.runs.push_reserved(reached.run.copy(alloc)?);
        Ok(())
    }
}

/// Whether the run is complete: it isn't empty and ends as a result.
fn completes(files: &[FileGraph], reached: &Open) -> bool
    ensures { result ≡ open_completes files.now reached.now }
{
    !reached.run.edges().is_empty() && is_at_definition(files, &reached.at)
}
