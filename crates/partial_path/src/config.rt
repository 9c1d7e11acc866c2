use stacks_vars::{NodeAt, Stacks};
use std::alloc::{AllocError, Global};

/// Where a path stands: at the root, or at a node of a file.
#[derive(Clone, Copy, Debug, PartialEq, Eq, PartialOrd, Ord)]
pub enum Spot {
    Root,
    At(NodeAt),
}

impl Spot {
    ghost use Rattle.std.specs.Prelude.{◌≡◌, ◌↔◌, IsTrue};
    ghost use Rattle.partial_path.specs.Same.{spot_eq};

    /// Whether both are the same spot.
    pub fn same(self, other: Spot) -> bool
        ensures eq { result ≡ spot_eq self other }
        ensures exact { IsTrue result ↔ (self ≡ other) }
    {
        match (self, other) {
            (Spot::Root, Spot::Root) => true,
            (Spot::At(left), Spot::At(right)) => left == right,
            _ => false,
        }
    }
}

/// Where a path stands, and with which stacks.
#[derive(Debug, Drop)]
pub struct Config {
    pub spot: Spot,
    pub stacks: Stacks,
}

impl Config {
    ghost use Rattle.std.specs.Prelude.{◌≡◌, ◌↔◌, IfOk, IsTrue};
    ghost use Rattle.partial_path.specs.Same.{config_eq};

    /// The same configuration once more, at the cost of its stacks; the one error is want of memory.
    pub fn copy(&self, alloc: Global) -> Result<Config, AllocError>
        ensures { IfOk result (λ copy. copy ≡ self.now) }
    {
        Ok(Config {
            spot: self.spot,
            stacks: self.stacks.copy(alloc)?,
        })
    }

    /// Whether both have the same spot and the same stacks.
    pub fn same(&self, other: &Config) -> bool
        ensures eq { result ≡ config_eq self.now other.now }
        ensures exact { IsTrue result ↔ (self.now ≡ other.now) }
    {
        self.spot.same(other.spot) && self.stacks.same(&other.stacks)
    }
}

/// An edge of the whole graph: its file's place in the list of files, and its position in that file.
#[derive(Clone, Copy, Debug, PartialEq, Eq)]
pub struct EdgeAt {
    pub file: u32,
    pub edge: u32,
}
