ghost use Rattle.std.specs.Prelude.{◌≡◌, ◌↔◌, map, All, Contains, IfOk, IsTrue, ◌<◌, length};
ghost use Rattle.shadowing.specs.Shadow.{unshadowed};
ghost use Rattle.whole_search.specs.{declared.found.Hit.{Hit}, Answers.{IsRising, path_of, precedence_of, step_of}};
ghost use Rattle.nav_answers.specs.{Kept.{HasEdges, IsEdgeOf, are_by, ends_of, is_by, is_next, run_paths}, Replies.{hit_of}, Sources.{graphs_seen}};

use end_index::file_in;
use partial_path::EdgeAt;
use shadowing::{EdgeList, EdgeNo, EdgeStep, unshadowed};
use stacks_vars::NodeAt;
use std::alloc::{AllocError, Global};
use stitcher::CompleteRun;
use version_tree::View;
use whole_search::{Hit, in_order};

/// The nodes at which those of the runs end that no other of them shadows, each once in file order; the one error
/// is want of memory.
pub fn rows_of(alloc: Global, view: &View, runs: &[CompleteRun<'_>]) -> Result<Vec<Hit>, AllocError>
    requires { All (HasEdges (graphs_seen view.now)) runs.now }
    ensures rising { IfOk result (λ rows. IsRising rows.items) }
    ensures exact { IfOk result (λ rows. (hit : Hit) → Contains rows.items hit
        ↔ Contains (ends_of (graphs_seen view.now) runs.now) hit) }
{
    if runs.len() < 2 {
        return ends_alone(alloc, view, runs);
    }
    let kept = unshadowed(alloc, paths_of(alloc, view, runs)?)?;
    let ends = ends_of(alloc, view, runs, &kept)?;
    Ok(in_order(ends))
}

/// The same of at most one run, which nothing shadows.
fn ends_alone(alloc: Global, _view: &View, runs: &[CompleteRun<'_>]) -> Result<Vec<Hit>, AllocError>
    requires { length runs.now < 2 }
    ensures rising { IfOk result (λ rows. IsRising rows.items) }
    ensures exact { IfOk result (λ rows. (hit : Hit) → Contains rows.items hit
        ↔ Contains (ends_of (graphs_seen _view.now) runs.now) hit) }
{
    let mut rows = Vec::new(alloc);
    for run in runs {
        rows.push(hit_of(run.end()))?;
    }
    Ok(rows)
}

/// The nodes at which those of the runs end that are kept; the kept ones stand in the order of the runs.
fn ends_of(
    alloc: Global,
    _view: &View,
    runs: &[CompleteRun<'_>],
    kept: &[EdgeList],
) -> Result<Vec<Hit>, AllocError>
    requires { kept.now ≡ unshadowed (run_paths (graphs_seen _view.now) runs.now) }
    ensures { IfOk result (λ ends. ends.items ≡ ends_of (graphs_seen _view.now) runs.now) }
{
    let mut ends = Vec::new(alloc);
    let mut place = 0;
    for run in runs {
        let edges = run.edges(alloc)?;
        if is_next(kept, place, edges.as_slice()) {
            ends.push(hit_of(run.end()))?;
            place += 1;
        }
    }
    Ok(ends)
}

/// Whether the path at that place is by those edges; false where there is none.
fn is_next(kept: &[EdgeList], place: usize, edges: &[EdgeAt]) -> bool
    ensures value { result ≡ is_next kept.now place edges.now }
    ensures inside { IsTrue result → place < length kept.now }
{
    match kept.get(place) {
        Some(path) => are_by(path.items(), edges),
        None => false,
    }
}

/// Whether the path is by those edges.
fn are_by(path: &[EdgeStep], edges: &[EdgeAt]) -> bool
    ensures { result ≡ are_by path.now edges.now }
{
    if path.len() != edges.len() {
        return false;
    }
    for i in 0..edges.len() {
        if !is_by(&path[i], &edges[i]) {
            return false;
        }
    }
    true
}

/// Whether the step is by that edge.
fn is_by(step: &EdgeStep, edge: &EdgeAt) -> bool
    ensures { result ≡ is_by step.now edge.now }
{
    step.edge.file == edge.file && step.edge.edge == edge.edge
}

/// The node as one that answers.
pub fn hit_of(node: NodeAt) -> Hit
    ensures { result ≡ hit_of node }
{
    Hit {
        file: node.file,
        node: node.node,
    }
}

/// The runs as paths with precedences; the one error is want of memory.
fn paths_of(
    alloc: Global,
    view: &View,
    runs: &[CompleteRun<'_>],
) -> Result<Vec<EdgeList>, AllocError>
    requires { All (HasEdges (graphs_seen view.now)) runs.now }
    ensures { IfOk result (λ paths. paths.items ≡ run_paths (graphs_seen view.now) runs.now) }
{
    let mut paths = Vec::with_capacity(alloc, runs.len())?;
    for run in runs {
        let edges = run.edges(alloc)?;
        paths.push(path_of(alloc, view, edges.as_slice())?)?;
    }
    Ok(paths)
}

/// The run's edges as a path.
fn path_of(alloc: Global, view: &View, edges: &[EdgeAt]) -> Result<EdgeList, AllocError>
    requires { All (IsEdgeOf (graphs_seen view.now)) edges.now }
    ensures { IfOk result (λ path. path ≡ path_of (graphs_seen view.now) edges.now) }
{
    let mut steps = Vec::with_capacity(alloc, edges.len())?;
    for edge in edges {
        steps.push(step_of(view, *edge))?;
    }
    Ok(EdgeList::of(steps))
}

/// The edge as a step of a path.
fn step_of(view: &View, edge: EdgeAt) -> EdgeStep
    requires { IsEdgeOf (graphs_seen view.now) edge }
    ensures { result ≡ step_of (graphs_seen view.now) edge }
{
    EdgeStep {
        edge: EdgeNo {
            file: edge.file,
            edge: edge.edge,
        },
        precedence: precedence_of(view, edge),
    }
}

/// The precedence of the edge.
fn precedence_of(view: &View, edge: EdgeAt) -> u16
    requires { IsEdgeOf (graphs_seen view.now) edge }
    ensures { result ≡ precedence_of (graphs_seen view.now) edge }
{
    match file_in(view, edge.file as usize) {
        Some(file) => file.precedence(edge.edge),
        None => 0,
    }
}
