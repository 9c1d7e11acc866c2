//! The work on one document: its graph, and the paths of that.
ghost use Rattle.std.specs.Prelude.{◌≡◌, ◌≤◌, ℕ, IfOk, IfErr};
ghost use Rattle.file_paths.specs.Finds.{AddsWalks};
ghost use Rattle.path_store.specs.Store.{kept_of};
ghost use Rattle.index_gate.specs.{Graphs.{graph_of_doc}, Indexed.{IsIndexed, IsDocWeight}, Reading.{IsReading, HasNone}, Ahead.{IsDone}};

use crate::documents::read_document;
use crate::fault::{FileFault, ReadFault};
use file_paths::{PathsFault, find_paths};
use graph_nodes::FileGraph;
use nav_io::Gate;
use partial_path::SharedPaths;
use path_store::Document;
use std::alloc::Global;

/// What came of the work on a document: all paths of its graph or why there are none, and how many walks were made.
#[derive(Drop)]
pub struct Done {
    pub found: Result<SharedPaths, ReadFault>,
    pub walks: u64,
}

/// Works on the document, as the job of that number.
pub fn work<G: Gate>(alloc: Global, doc: &Document, job: usize, gate: &G) -> Done
    ensures { IsDone doc.now result }
{
    let mut walks = 0;
    gate.enter(job);
    let found = paths_of(alloc, doc, &mut walks);
    gate.leave(job);
    Done { found, walks }
}

// The paths of the document's graph. The walks made are counted in a number, which is 0 before.
#[tactic(auto, using(crate::proofs::Adding::weight_none))]
fn paths_of(alloc: Global, doc: &Document, walks: &mut u64) -> Result<SharedPaths, ReadFault>
    requires { walks.old ≡ 0 }
    ensures file { IfOk result (λ file. IsIndexed (kept_of doc.now file)) }
    ensures walks { IfOk result (λ file. AddsWalks file.graph 0 walks.new) }
    ensures fault { IfErr result (HasNone doc.now) }
    ensures few { (w : ℕ) → IsDocWeight doc.now w → walks.new ≤ w }
{
    let graph = graph_of(alloc, doc)?;
    match find_paths(alloc, graph, walks) {
        Ok(paths) => Ok(SharedPaths::of(alloc, paths)?),
        Err(PathsFault::Heavy(weight)) => Err(ReadFault::File(FileFault::Heavy(weight))),
        Err(PathsFault::NoMemory) => Err(ReadFault::NoMemory),
    }
}

// The graph of the document.
fn graph_of(alloc: Global, doc: &Document) -> Result<FileGraph, ReadFault>
    ensures { IsReading result (graph_of_doc doc.now) }
{
    read_document(alloc, doc.path(), doc.bytes())
}
