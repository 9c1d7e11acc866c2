//! Memory that serves one search after another.
ghost use Rattle.std.specs.Prelude.{◌≡◌, take, []};

use crate::complete::{CompleteRun, RunPath};
use crate::trail::{Level, Open};
use partial_path::{LentConfig, Spot};
use std::alloc::{AllocError, Global};
use std::mem;

/// How many spare configurations are kept: as many as the runs of a usual reference need at once.
const MOST_SPARE: usize = 64;

/// Memory that serves again: where runs stood that aren't gone on from any more, and the lists of a search. Whoever asks
/// many references hands the same room to each search, so that most take no memory. What is found doesn't depend on it.
#[derive(Drop)]
pub struct Room<'a> {
    alloc: Global,
    spare: Vec<LentConfig<'a>>,
    work: Vec<Open<'a>>,
    trail: Vec<Level<'a>>,
    paths: Vec<Vec<RunPath<'a>>>,
    complete: Vec<CompleteRun<'a>>,
}

impl<'a> Room<'a> {
    ghost use Rattle.std.specs.Prelude.{◌≡◌, []};

    /// No room yet. It takes no memory.
    pub fn new(alloc: Global) -> Room<'a> {
        Room {
            alloc,
            spare: Vec::new(alloc),
            work: Vec::new(alloc),
            trail: Vec::new(alloc),
            paths: Vec::new(alloc),
            complete: Vec::new(alloc),
        }
    }

    /// Where memory is taken from.
    pub fn alloc(&self) -> Global {
        self.alloc
    }

    /// A configuration to be written over: a spare one, where there is one. The one error is want of memory.
    pub(crate) fn take(&mut self) -> Result<LentConfig<'a>, AllocError> {
        match self.spare.pop() {
            Some(spare) => Ok(spare),
            None => LentConfig::new(self.alloc, Spot::Root),
        }
    }

    /// Keeps the configuration as a spare one, unless there are enough or memory is refused.
    pub(crate) fn give(&mut self, spare: LentConfig<'a>) {
        if self.spare.len() < MOST_SPARE {
            let _kept = self.spare.push(spare);
        }
    }

    /// The list of open runs, with none in it.
    pub(crate) fn take_work(&mut self) -> Vec<Open<'a>>
        ensures { result.items ≡ [] }
    {
        let mut work = mem::replace(&mut self.work, Vec::new(self.alloc));
        work.clear();
        work
    }

    /// The list of joined paths, with none in it.
    pub(crate) fn take_trail(&mut self) -> Vec<Level<'a>>
        ensures { result.items ≡ [] }
    {
        let mut trail = mem::replace(&mut self.trail, Vec::new(self.alloc));
        trail.clear();
        trail
    }

    /// A list of the paths of a run, with none in it: a spare one, where there is one.
    pub(crate) fn take_paths(&mut self) -> Vec<RunPath<'a>>
        ensures { result.items ≡ [] }
    {
        match self.paths.pop() {
            Some(paths) => {
                let mut paths = paths;
                paths.clear();
                paths
            }
            None => Vec::new(self.alloc),
        }
    }

    /// The list of complete runs, with none in it.
    pub(crate) fn take_complete(&mut self) -> Vec<CompleteRun<'a>>
        ensures { result.items ≡ [] }
    {
        let mut complete = mem::replace(&mut self.complete, Vec::new(self.alloc));
        complete.clear();
        complete
    }

    /// Keeps the lists of runs that were told and aren't needed any more.
    pub fn give_back(&mut self, runs: Vec<CompleteRun<'a>>) {
        let mut runs = runs;
        while let Some(run) = runs.pop() {
            if self.paths.len() < MOST_SPARE {
                let _kept = self.paths.push(run.into_paths());
            }
        }
        self.complete = runs;
    }

    /// Keeps the lists of a search, and where its last runs stood.
    pub(crate) fn keep(&mut self, trail: Vec<Level<'a>>, work: Vec<Open<'a>>) {
        let mut trail = trail;
        cut_back(self, &mut trail, 0);
        self.trail = trail;
        self.work = work;
    }
}

/// Cuts the trail back to so many levels. Where the others landed is spare then.
pub fn cut_back<'a>(room: &mut Room<'a>, trail: &mut Vec<Level<'a>>, depth: usize)
    ensures { trail.new.items ≡ take depth trail.old.items }
{
    while trail.len() > depth {
        if let Some(level) = trail.pop() {
            room.give(level.at);
        }
    }
}
