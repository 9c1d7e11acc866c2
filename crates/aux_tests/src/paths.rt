//! The paths of graphs that are short texts.
ghost use Rattle.std.specs.Prelude.{◌≡◌, ◌<◌};

use aux_graph_text::files_of;
use file_paths::{PathsFault, enumerate};
use graph_nodes::{FileGraph, Steps};
use partial_path::{FilePaths, SharedPaths};
use std::alloc::Global;
use std::marker::Brand;
use std::sync::ledger::{Blank, Ledger};
use std::test::Fail;

/// All paths of a graph, counted on a ledger of its own.
fn paths_on<L: Ledger>(
    alloc: Global,
    graph: FileGraph,
    blank: Blank,
) -> Result<FilePaths, PathsFault>
    requires name { blank.name ≡ L.name }
    requires parts { blank.parts ≡ L.parts }
    requires some { 0 < blank.parts }
{
    let mut steps = Steps::<L>::new(blank);
    enumerate(alloc, graph, &mut steps)
}

/// All paths of a graph.
pub fn paths_in(alloc: Global, graph: FileGraph) -> Result<FilePaths, PathsFault> {
    paths_on::<Brand>(alloc, graph, Blank::new(1))
}

/// All paths of the graph that a text stands for.
pub fn paths_of(alloc: Global, text: &str) -> Result<SharedPaths, Fail> {
    let mut files = files_of(alloc, text)?;
    let Some(graph) = files.pop() else {
        return Err(Fail::new("there is no file"));
    };
    Ok(SharedPaths::of(alloc, paths_in(alloc, graph)?)?)
}
