//! What the search of the whole graph and stitching answer to a reference, as texts.

use aux_graph_text::{TextFault, files_of};
use file_paths::{PathsFault, find_paths};
use graph_nodes::{FileGraph, Place};
use partial_path::{Bounds, EdgeAt, FileList, FilePaths, PathSource, edge_at};
use shadowing::{EdgeList, EdgeNo, EdgeStep, unshadowed};
use stacks_vars::NodeAt;
use std::alloc::{AllocError, Global};
use stitcher::{CompleteRun, Room, StitchFault, Stitched, stitch};
use whole_search::{Hit, SearchFault, is_reference, search};

/// Rows, each as its file and its node, and a flag, as a text.
fn told(alloc: Global, rows: &[Hit], limit: bool) -> Result<String, AllocError> {
    let mut text = String::new(alloc);
    for hit in rows {
        text.push_str(format!(in alloc; "{}/{} ", hit.file, hit.node)?.as_str())?;
    }
    text.push_str(if limit { "limit" } else { "whole" })?;
    Ok(text)
}

/// What the search of the whole graph answers, as such a text.
pub fn searched(
    alloc: Global,
    files: &[FileGraph],
    at: NodeAt,
    bounds: Bounds,
) -> Result<String, AllocError> {
    if files.len() > 100 || !is_reference(files, at.file, at.node) {
        return String::from_str(alloc, "no reference");
    }
    match search(alloc, files, at.file, at.node, bounds) {
        Ok(found) => told(alloc, found.rows.items(), found.limit),
        Err(SearchFault::Crowded) => String::from_str(alloc, "crowded"),
        Err(SearchFault::NoMemory) => Err(AllocError),
    }
}

/// All paths of a graph.
fn paths_in(alloc: Global, graph: FileGraph) -> Result<FilePaths, TextFault> {
    let mut walks = 0;
    match find_paths(alloc, graph, &mut walks) {
        Ok(paths) => Ok(paths),
        Err(PathsFault::NoMemory) => Err(TextFault::NoMemory),
        Err(_) => Err(TextFault::Long),
    }
}

/// All paths of the graphs of the files that a text stands for.
pub fn list_of(alloc: Global, text: &str) -> Result<FileList, TextFault> {
    let mut list = FileList::new(alloc);
    for graph in files_of(alloc, text)? {
        if list.len() < 100 {
            list.push(paths_in(alloc, graph)?)?;
        }
    }
    Ok(list)
}

/// The edges with their precedences; fewer where there is no such edge.
fn steps_of(
    alloc: Global,
    files: &[FileGraph],
    run: &CompleteRun<'_>,
) -> Result<EdgeList, AllocError> {
    let mut steps = Vec::new(alloc);
    let edges = run.edges(alloc)?;
    for at in &edges {
        let Some(edge) = edge_at(files, *at) else {
            continue;
        };
        steps.push(EdgeStep {
            precedence: edge.precedence,
            edge: EdgeNo {
                file: at.file,
                edge: at.edge,
            },
        })?;
    }
    Ok(EdgeList::of(steps))
}

/// The node that the last edge of a path enters.
fn end_of(files: &[FileGraph], path: &EdgeList) -> Option<Hit> {
    let step = path.items().last()?;
    let at = EdgeAt {
        file: step.edge.file,
        edge: step.edge.edge,
    };
    match edge_at(files, at)?.sink {
        Place::At(node) => Some(Hit {
            file: at.file,
            node,
        }),
        Place::Root | Place::Jump => None,
    }
}

/// The rows of what a stitching found: where those of its paths end that no other of them shadows, each once.
fn rows_of(
    alloc: Global,
    files: &[FileGraph],
    found: &Stitched<'_>,
) -> Result<Vec<Hit>, AllocError> {
    let mut paths = Vec::new(alloc);
    for path in &found.complete {
        paths.push(steps_of(alloc, files, path)?)?;
    }
    let mut rows = Vec::new(alloc);
    for path in unshadowed(alloc, paths)? {
        if let Some(hit) = end_of(files, &path) {
            rows.push(hit)?;
        }
    }
    rows.sort_unstable();
    rows.dedup();
    Ok(rows)
}

/// Whether each path ends where its last edge leads.
fn end_there(alloc: Global, files: &[FileGraph], found: &Stitched<'_>) -> Result<bool, AllocError> {
    for path in &found.complete {
        let end = end_of(files, &steps_of(alloc, files, path)?);
        let wanted = Hit {
            file: path.end().file,
            node: path.end().node,
        };
        if end != Some(wanted) {
            return Ok(false);
        }
    }
    Ok(true)
}

/// What stitching answers, as such a text.
pub fn stitched(
    alloc: Global,
    files: &[FileGraph],
    list: &FileList,
    at: NodeAt,
    bounds: Bounds,
) -> Result<String, AllocError> {
    if !list.is_reference(&at) {
        return String::from_str(alloc, "no reference");
    }
    match stitch(&mut Room::new(alloc), list, at.file, at.node, bounds) {
        Ok(found) => {
            if !end_there(alloc, files, &found)? {
                return String::from_str(alloc, "another end");
            }
            let rows = rows_of(alloc, files, &found)?;
            told(alloc, &rows, found.limit)
        }
        Err(StitchFault::Crowded) => String::from_str(alloc, "crowded"),
        Err(StitchFault::NoMemory) => Err(AllocError),
    }
}
