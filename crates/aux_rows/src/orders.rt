//! That the search and stitching answer alike, for every order of the files.
use crate::answers::{list_of, searched, stitched};
use crate::counts::Tally;
use aux_graph_text::{TextFault, files_of};
use graph_nodes::FileGraph;
use partial_path::{Bounds, FileList, PathSource};
use stacks_vars::NodeAt;
use std::alloc::{AllocError, Global};

/// The bounds within which each reference is asked.
const BOUNDS: [Bounds; 3] = [
    Bounds {
        edges: 128,
        depth: 48,
    },
    Bounds { edges: 6, depth: 3 },
    Bounds { edges: 2, depth: 1 },
];

/// The text of the files in another order, told by a number.
pub fn in_order(alloc: Global, text: &str, order: usize) -> Result<String, AllocError> {
    let mut parts = Vec::new(alloc);
    for part in text.split(" & ") {
        parts.push(part)?;
    }
    let mut left = order;
    let mut told = String::new(alloc);
    for _ in 0..parts.len() {
        let count = parts.len();
        if count == 0 {
            continue;
        }
        if !told.is_empty() {
            told.push_str(" & ")?;
        }
        told.push_str(parts.remove(left % count))?;
        left /= count;
    }
    Ok(told)
}

/// How many orders the files of a text have, for at most four of them.
pub fn order_count(text: &str) -> usize {
    match text.split(" & ").count() {
        1 => 1,
        2 => 2,
        3 => 6,
        _ => 24,
    }
}

/// Compares the answers of both to one reference within the bounds.
fn ask_both(
    alloc: Global,
    name: &str,
    files: &[FileGraph],
    list: &FileList,
    at: NodeAt,
    bounds: Bounds,
    tally: &mut Tally,
) -> Result<(), AllocError> {
    let case = format!(in alloc; "{at:?} {bounds:?}")?;
    let one = searched(alloc, files, at, bounds)?;
    let two = stitched(alloc, files, list, at, bounds)?;
    tally.compare(alloc, name, case.as_str(), one.as_bytes(), two.as_bytes())
}

/// Compares the answers of both to each reference of one file.
fn ask_file(
    alloc: Global,
    name: &str,
    files: &[FileGraph],
    list: &FileList,
    file: u32,
    nodes: u32,
    tally: &mut Tally,
) -> Result<(), AllocError> {
    for node in 0..nodes {
        let at = NodeAt { file, node };
        if list.is_reference(&at) {
            for bounds in BOUNDS {
                ask_both(alloc, name, files, list, at, bounds, tally)?;
            }
        }
    }
    Ok(())
}

/// Compares the answers of both to each reference of the files.
fn ask_files(alloc: Global, name: &str, text: &str, tally: &mut Tally) -> Result<(), TextFault> {
    let files = files_of(alloc, text)?;
    let list = list_of(alloc, text)?;
    for (file, graph) in (0u32..).zip(&files) {
        ask_file(alloc, name, &files, &list, file, graph.node_count(), tally)?;
    }
    Ok(())
}

/// Compares the answers of both to each reference of the files in each order, within three bounds.
pub fn alike(alloc: Global, name: &str, text: &str, tally: &mut Tally) -> Result<(), TextFault> {
    for order in 0..order_count(text) {
        let text = in_order(alloc, text, order)?;
        let case = format!(in alloc; "{name}, {text}")?;
        ask_files(alloc, case.as_str(), text.as_str(), tally)?;
    }
    Ok(())
}
