ghost use Rattle.std.specs.Prelude.{◌≡◌, ◌≢◌, ◌≤◌, ◌+◌, ◌&&◌, ◌||◌, not, [], false, IsTrue, OnOk, if◌then◌else◌};
ghost use Rattle.partial_path.specs.Limits.{max_runs};

use crate::complete::CompleteRun;
use crate::found::StitchFault;
use crate::trail::Open;
use partial_path::MAX_RUNS;

/// How far a search has come: the runs that are still to be gone on from, and what was found so far.
#[derive(Drop)]
pub struct Progress<'a> {
    pub work: Vec<Open<'a>>,
    pub tally: Tally<'a>,
}

/// What was found so far.
#[derive(Drop)]
pub struct Tally<'a> {
    /// The bounded complete runs.
    pub complete: Vec<CompleteRun<'a>>,
    /// How many bounded counted runs there are.
    pub counted: usize,
    /// Whether some counted run isn't bounded.
    pub limit: bool,
    // No more than a reference may have.
    ghost few: { counted ≤ max_runs },
}

impl<'a> Tally<'a> {
    /// Nothing found yet but these runs.
    pub fn with(complete: Vec<CompleteRun<'a>>) -> Tally<'a>
        ensures complete { result.complete ≡ complete.entry }
        ensures counted { result.counted ≡ 0 }
        ensures limit { result.limit ≡ false }
    {
        Tally {
            complete,
            counted: 0,
            limit: false,
        }
    }

    /// Counts a run, told whether it is counted and whether it is bounded; `Crowded` where there were as many that are
    /// both as a reference may have. It takes no memory.
    pub fn count(&mut self, lands: bool, bounded: bool) -> Result<(), StitchFault>
        ensures counted { OnOk result (self.new.counted
            ≡ self.old.counted + (if lands && bounded then 1 else 0)) }
        ensures complete { self.new.complete ≡ self.old.complete }
        ensures limit { OnOk result (self.new.limit ≡ (self.old.limit || (lands && not bounded))) }
        ensures full { result ≡ Err StitchFault.Crowded → self.old.counted ≡ max_runs }
        ensures crowded { result ≡ Err StitchFault.Crowded → IsTrue (lands && bounded) }
        ensures memory { result ≢ Err StitchFault.NoMemory }
    {
        if !lands {
            return Ok(());
        }
        if !bounded {
            self.limit = true;
            return Ok(());
        }
        if self.counted == MAX_RUNS {
            return Err(StitchFault::Crowded);
        }
        self.counted += 1;
        Ok(())
    }
}
