use partial_path::EdgeAt;
use std::alloc::{AllocError, Global};
use std::marker::Model;

/// The edges of a run, in order. A contract sees them as a list.
#[derive(Debug, Drop)]
pub struct Run {
    edges: Vec<EdgeAt>,
}

impl Model for Run {
    ghost use Rattle.std.specs.Prelude.{List};
    ghost use Rattle.partial_path.specs.declared.config.EdgeAt.{EdgeAt};

    ghost Value = { List EdgeAt };

    ghost view = { λ r. r.edges.items };
}

impl Run {
    ghost use Rattle.std.specs.Prelude.{◌≡◌, [], length, IfOk};
    ghost use Rattle.whole_search.specs.Walk.{with_edge};

    /// The run without edges. It takes no memory.
    pub fn new(alloc: Global) -> Run
        ensures { result ≡ [] }
    {
        Run {
            edges: Vec::new(alloc),
        }
    }

    /// How many edges it has.
    pub fn len(&self) -> usize
        ensures { result ≡ length self.now }
    {
        self.edges.len()
    }

    /// Its edges.
    pub fn edges(&self) -> &[EdgeAt]
        ensures { result.now ≡ self.now }
    {
        self.edges.as_slice()
    }

    /// The same edges once more; the one error is want of memory.
    pub fn copy(&self, alloc: Global) -> Result<Run, AllocError>
        ensures { IfOk result (λ copy. copy ≡ self.now) }
    {
        Ok(Run {
            edges: Vec::from_slice(alloc, self.edges.as_slice())?,
        })
    }

    /// The run with one more edge; the one error is want of memory.
    pub fn with(self, edge: EdgeAt) -> Result<Run, AllocError>
        ensures { IfOk result (λ longer. longer ≡ with_edge self edge) }
    {
        let mut edges = self.edges;
        edges.push(edge)?;
        Ok(Run { edges })
    }
}
