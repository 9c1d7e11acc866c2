//! What joining backward finds: the references from which stitching finds a run to a definition, for every order of the
//! files, or those that a line states.
use crate::answers::list_of;
use crate::counts::Tally;
use crate::orders::{in_order, order_count};
use crate::row::{number, sides};
use aux_graph_text::{TextFault, files_of};
use back_stitch::{BackFault, back, is_definition_in};
use partial_path::{Bounds, FileList, PathSource};
use stacks_vars::NodeAt;
use std::alloc::{AllocError, Global};
use stitcher::{Room, StitchFault, stitch};

/// Nodes as a text; `none` where there are none.
fn told(alloc: Global, rows: &[NodeAt]) -> Result<String, AllocError> {
    if rows.is_empty() {
        return String::from_str(alloc, "none");
    }
    let mut text = String::new(alloc);
    for row in rows {
        text.push_str(format!(in alloc; "{}/{} ", row.file, row.node)?.as_str())?;
    }
    Ok(text)
}

/// What joining backward answers, as such a text, or `many` or `no definition`.
fn backward(alloc: Global, list: &FileList, at: NodeAt) -> Result<String, AllocError> {
    if !is_definition_in(list.as_slice(), at) {
        return String::from_str(alloc, "no definition");
    }
    match back(alloc, list, at.file, at.node) {
        Ok(rows) => told(alloc, &rows),
        Err(BackFault::Many) => String::from_str(alloc, "many"),
        Err(BackFault::NoMemory) => Err(AllocError),
    }
}

/// Whether stitching finds a run from the reference to the definition within the usual bounds.
fn leads(alloc: Global, list: &FileList, from: NodeAt, to: NodeAt) -> Result<bool, AllocError> {
    if !list.is_reference(&from) {
        return Ok(false);
    }
    match stitch(
        &mut Room::new(alloc),
        list,
        from.file,
        from.node,
        Bounds::usual(),
    ) {
        Ok(found) => Ok(found.complete.iter().any(|path| path.end() == to)),
        Err(StitchFault::Crowded) => Ok(false),
        Err(StitchFault::NoMemory) => Err(AllocError),
    }
}

/// The references from which stitching finds a run to the definition, as such a text.
fn forward(
    alloc: Global,
    list: &FileList,
    counts: &[u32],
    to: NodeAt,
) -> Result<String, AllocError> {
    let mut rows = Vec::new(alloc);
    for (file, count) in (0u32..).zip(counts) {
        for node in 0..*count {
            let from = NodeAt { file, node };
            if leads(alloc, list, from, to)? {
                rows.push(from)?;
            }
        }
    }
    told(alloc, &rows)
}

/// Compares both for each definition of the files.
fn ask_files(alloc: Global, name: &str, text: &str, tally: &mut Tally) -> Result<(), TextFault> {
    let list = list_of(alloc, text)?;
    let mut counts = Vec::new(alloc);
    for graph in files_of(alloc, text)? {
        counts.push(graph.node_count())?;
    }
    for (file, count) in (0u32..).zip(&counts) {
        for node in 0..*count {
            let to = NodeAt { file, node };
            if is_definition_in(list.as_slice(), to) {
                let case = format!(in alloc; "backward from {to:?}")?;
                let one = backward(alloc, &list, to)?;
                let two = forward(alloc, &list, &counts, to)?;
                tally.compare(alloc, name, case.as_str(), two.as_bytes(), one.as_bytes())?;
            }
        }
    }
    Ok(())
}

/// Compares both for each definition of the files in each order.
pub fn found_backward(
    alloc: Global,
    name: &str,
    text: &str,
    tally: &mut Tally,
) -> Result<(), TextFault> {
    for order in 0..order_count(text) {
        let text = in_order(alloc, text, order)?;
        let case = format!(in alloc; "{name}, {text}")?;
        ask_files(alloc, case.as_str(), text.as_str(), tally)?;
    }
    Ok(())
}

/// A node of a file, told as `FILE/NODE`.
fn node_of(text: &str) -> Result<NodeAt, TextFault> {
    let (file, node) = text.split_once('/').unwrap_or((text, ""));
    Ok(NodeAt {
        file: number(file)?,
        node: number(node)?,
    })
}

/// Compares what joining backward answers to `GRAPHS to FILE/NODE => ANSWER` with that answer.
pub fn back_line(
    alloc: Global,
    name: &str,
    text: &str,
    tally: &mut Tally,
) -> Result<(), TextFault> {
    let (asked, wanted) = sides(text)?;
    let Some((graphs, to)) = asked.split_once(" to ") else {
        return Err(TextFault::Word);
    };
    let list = list_of(alloc, graphs)?;
    let came = backward(alloc, &list, node_of(to)?)?;
    let came = came.as_str().trim_end();
    tally.compare(alloc, name, text, wanted.as_bytes(), came.as_bytes())?;
    Ok(())
}
