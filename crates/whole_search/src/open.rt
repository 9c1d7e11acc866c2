ghost use Rattle.std.specs.{Prelude.{◌≡◌, ◌∷◌, ◌&&◌, IfOk}, List.{list_any}};
ghost use Rattle.partial_path.specs.{Runs.{after_cuts}, Step.{is_cut_edge}, Same.{config_eq}};
ghost use Rattle.whole_search.specs.Walk.{keeps_straight};

use crate::run::Run;
use graph_nodes::FileGraph;
use partial_path::{Bounds, Config, EdgeAt, is_cut_edge, step};
use std::alloc::{AllocError, Global};

/// A run that was met, with where it stands.
#[derive(Debug, Drop)]
pub struct Open {
    pub run: Run,
    pub at: Config,
    /// Whether it is within the bounds.
    pub bounded: bool,
}

impl Open {
    ghost use Rattle.std.specs.Prelude.{◌≡◌, [], length, nat_le, IfOk};

    /// The run without edges; the one error is want of memory.
    pub fn first(alloc: Global, bounds: Bounds, start: &Config) -> Result<Open, AllocError>
        ensures run { IfOk result (λ first. first.run ≡ []) }
        ensures at { IfOk result (λ first. first.at ≡ start.now) }
        ensures bounded { IfOk result
            (λ first. first.bounded ≡ nat_le (length start.now.stacks.symbols) bounds.depth) }
    {
        Ok(Open {
            run: Run::new(alloc),
            at: start.copy(alloc)?,
            bounded: start.stacks.symbols.len() <= bounds.depth as usize,
        })
    }

    /// The same run once more, at the cost of its length and of its stacks; the one error is want of memory.
    pub fn copy(&self, alloc: Global) -> Result<Open, AllocError>
        ensures { IfOk result (λ copy. copy ≡ self.now) }
    {
        Ok(Open {
            run: self.run.copy(alloc)?,
            at: self.at.copy(alloc)?,
            bounded: self.bounded,
        })
    }
}

/// Whether the configuration after the edge leaves the run of these edges straight; the one error is
/// want of memory. After a cut edge it takes time that follows the number of edges, after any other none.
pub fn keeps_straight(
    alloc: Global,
    files: &[FileGraph],
    start: &Config,
    edges: &[EdgeAt],
    edge: EdgeAt,
    next: &Config,
) -> Result<bool, AllocError>
    ensures { IfOk result (λ keeps. keeps ≡ keeps_straight files.now
        (start.now ∷ after_cuts files.now start.now edges.now) edge next.now) }
{
    if !is_cut_edge(files, edge) {
        return Ok(true);
    }
    Ok(!has_met(alloc, files, start, edges, next)?)
}

/// Whether the run of these edges met the configuration: at the start, or after a cut edge. The run is
/// followed once more, so that none of these configurations has to be kept.
fn has_met(
    alloc: Global,
    files: &[FileGraph],
    start: &Config,
    edges: &[EdgeAt],
    at: &Config,
) -> Result<bool, AllocError>
    ensures { IfOk result (λ met. met ≡ list_any (config_eq at.now)
        (start.now ∷ after_cuts files.now start.now edges.now)) }
{
    if at.same(start) {
        return Ok(true);
    }
    let mut here = start.copy(alloc)?;
    for edge in edges {
        let Some(next) = step(alloc, files, here, *edge)? else {
            return Ok(false);
        };
        if is_met_after(files, *edge, at, &next) {
            return Ok(true);
        }
        here = next;
    }
    Ok(false)
}

/// Whether the edge is a cut edge, and the configuration is the one after it.
fn is_met_after(files: &[FileGraph], edge: EdgeAt, at: &Config, next: &Config) -> bool
    ensures { result ≡ (is_cut_edge files.now edge && config_eq at.now next.now) }
{
    is_cut_edge(files, edge) && at.same(next)
}
