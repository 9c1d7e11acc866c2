//! That a session finds the same rows of each definition by `callers` and by `references`.
use crate::counts::Tally;
use crate::sessions::written;
use crate::texts::{escaped, push_quoted};
use aux_graph_text::TextFault;
use graph_nodes::FileGraph;
use index_gate::{ReadFault, read_document};
use std::alloc::{AllocError, Global};
use std::sync::Wait;
use std::thread::Threads;

/// What a session replies to its first two lines, behind its status.
const COMMITTED: &str = "0 {\"version\":0}\n{\"version\":1}\n";

/// The graph of a document.
fn graph_of(alloc: Global, path: &str, text: &[u8]) -> Result<FileGraph, TextFault> {
    match read_document(alloc, path, text) {
        Ok(graph) => Ok(graph),
        Err(ReadFault::NoMemory) => Err(TextFault::NoMemory),
        Err(ReadFault::File(_)) => Err(TextFault::Word),
    }
}

/// Adds the lines that ask both of each definition of a document.
fn push_questions(
    alloc: Global,
    lines: &mut Vec<u8>,
    path: &str,
    graph: &FileGraph,
) -> Result<(), AllocError> {
    for node in 0..graph.node_count() {
        if graph.is_definition(node) {
            let at = format!(in alloc; "\"path\":\"{path}\",\"node\":{node}}}\n")?;
            let line = format!(in alloc; "{{\"do\":\"references\",{at}{{\"do\":\"callers\",{at}")?;
            lines.extend_from_slice(line.as_bytes())?;
        }
    }
    Ok(())
}

/// Adds the edit that puts a document.
fn push_edit(
    alloc: Global,
    edits: &mut Vec<u8>,
    path: &str,
    text: &[u8],
) -> Result<(), AllocError> {
    let comma = if edits.is_empty() { "" } else { "," };
    let put = format!(in alloc; "{comma}{{\"put\":\"{path}\",\"text\":")?;
    edits.extend_from_slice(put.as_bytes())?;
    push_quoted(alloc, edits, text)?;
    Ok(edits.push(b'}')?)
}

/// A session that commits the documents of a text such as `PATH TEXT & PATH TEXT` and asks both of each definition.
fn session(alloc: Global, documents: &str) -> Result<Vec<u8>, TextFault> {
    let mut edits = Vec::new(alloc);
    let mut questions = Vec::new(alloc);
    for document in documents.split(" & ") {
        let (path, text) = document.split_once(' ').unwrap_or((document, ""));
        let text = escaped(alloc, text)?;
        push_edit(alloc, &mut edits, path, &text)?;
        let graph = graph_of(alloc, path, &text)?;
        push_questions(alloc, &mut questions, path, &graph)?;
    }
    let mut input =
        b"{\"do\":\"hello\",\"user\":\"operator\"}\n{\"do\":\"commit\",\"edits\":[".to_vec(alloc)?;
    input.extend_from_slice(&edits)?;
    input.extend_from_slice(b"]}\n")?;
    input.extend_from_slice(&questions)?;
    Ok(input)
}

/// What `callers` replies where `references` replies this: its rows without the flag.
pub fn without_flag(alloc: Global, reply: &str) -> Result<String, AllocError> {
    match reply.split_once(",\"rows\":") {
        Some((_, rows)) => format!(in alloc; "{{\"rows\":{rows}"),
        None => String::from_str(alloc, reply),
    }
}

/// Compares each second reply with what the one before it stands for.
fn compare_pairs(
    alloc: Global,
    name: &str,
    replies: &str,
    tally: &mut Tally,
) -> Result<(), AllocError> {
    let mut wanted = String::new(alloc);
    for (place, reply) in replies.split('\n').enumerate() {
        if place % 2 == 0 {
            wanted = without_flag(alloc, reply)?;
        } else {
            let case = format!(in alloc; "definition {}", place / 2)?;
            tally.compare(
                alloc,
                name,
                case.as_str(),
                wanted.as_bytes(),
                reply.as_bytes(),
            )?;
        }
    }
    Ok(())
}

/// Asks each definition of the documents of a text by `references` and by `callers`, and compares their rows.
pub fn callers_line<R: Threads + Wait + Sync>(
    rt: &R,
    alloc: Global,
    name: &str,
    documents: &str,
    tally: &mut Tally,
) -> Result<(), TextFault> {
    let input = session(alloc, documents)?;
    let came = written(rt, alloc, "run", &input)?;
    match came.strip_prefix(COMMITTED) {
        Some(replies) => compare_pairs(alloc, name, replies, tally)?,
        None => tally.differ(alloc, name, "the documents aren't taken")?,
    }
    Ok(())
}
