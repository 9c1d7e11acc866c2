ghost use Rattle.std.specs.Prelude.{◌≡◌, map, IfOk};
ghost use Rattle.whole_search.specs.Answers.{precedence_of, step_of, path_of};

use crate::run::Run;
use graph_nodes::FileGraph;
use partial_path::{EdgeAt, edge_at};
use shadowing::{EdgeList, EdgeNo, EdgeStep};
use std::alloc::{AllocError, Global};

/// The paths of these runs; the one error is want of memory.
pub fn paths_of(
    alloc: Global,
    files: &[FileGraph],
    runs: &[Run],
) -> Result<Vec<EdgeList>, AllocError>
    ensures { IfOk result (λ paths. paths.items ≡ map (path_of files.now) runs.now) }
{
    let mut paths = Vec::with_capacity(alloc, runs.len())?;
    for run in runs {
        paths.push(path_of(alloc, files, run.edges())?)?;
    }
    Ok(paths)
}

/// The run's edges as a path.
fn path_of(alloc: Global, files: &[FileGraph], edges: &[EdgeAt]) -> Result<EdgeList, AllocError>
    ensures { IfOk result (λ path. path ≡ path_of files.now edges.now) }
{
    Ok(EdgeList::of(steps_of(alloc, files, edges)?))
}

/// The steps of the run's edges.
fn steps_of(
    alloc: Global,
    files: &[FileGraph],
    edges: &[EdgeAt],
) -> Result<Vec<EdgeStep>, AllocError>
    ensures { IfOk result (λ steps. steps.items ≡ path_of files.now edges.now) }
{
    edges
        .iter()
        .map(|edge| step_of(files, *edge))
        .collect(alloc)
}

/// The edge as a step of a path.
fn step_of(files: &[FileGraph], edge: EdgeAt) -> EdgeStep
    ensures { result ≡ step_of files.now edge }
{
    EdgeStep {
        edge: EdgeNo {
            file: edge.file,
            edge: edge.edge,
        },
        precedence: precedence_of(files, edge),
    }
}

/// The precedence of an edge of the files; 0 where there is no such edge.
fn precedence_of(files: &[FileGraph], edge: EdgeAt) -> u16
    ensures { result ≡ precedence_of files.now edge }
{
    match edge_at(files, edge) {
        Some(found) => found.precedence,
        None => 0,
    }
}
