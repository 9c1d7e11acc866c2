//! Lines that state what a commit of one document replies, or the graph of a document.
use crate::counts::Tally;
use crate::row::sides;
use crate::sessions::written;
use crate::texts::{escaped, push_quoted};
use aux_graph_text::TextFault;
use graph_json::print_graph;
use index_gate::{ReadFault, read_document};
use std::alloc::{AllocError, Global};
use std::sync::Wait;
use std::thread::Threads;

/// What the session's first line replies, behind its status.
const HELLO: &str = "0 {\"version\":0}\n";

/// What a line such as `PATH TEXT => WANTED` says.
#[derive(Drop)]
struct Stated<'a> {
    path: &'a str,
    text: Vec<u8>,
    wanted: &'a str,
}

/// What a line says; its text has escapes where the word in front of it ends with a backslash.
fn stated_by<'a>(alloc: Global, word: &str, line: &'a str) -> Result<Stated<'a>, TextFault> {
    let (given, wanted) = sides(line)?;
    let Some((path, text)) = given.split_once(' ') else {
        return Err(TextFault::Word);
    };
    let text = if word.ends_with('\\') {
        escaped(alloc, text)?
    } else {
        text.as_bytes().to_vec(alloc)?
    };
    Ok(Stated { path, text, wanted })
}

/// The lines of a session in which the operator commits the document.
fn session(alloc: Global, stated: &Stated<'_>) -> Result<Vec<u8>, AllocError> {
    let mut bytes =
        b"{\"do\":\"hello\",\"user\":\"operator\"}\n{\"do\":\"commit\",\"edits\":[{\"put\":\"".to_vec(
            alloc,
        )?;
    bytes.extend_from_slice(stated.path.as_bytes())?;
    bytes.extend_from_slice(b"\",\"text\":")?;
    push_quoted(alloc, &mut bytes, &stated.text)?;
    bytes.extend_from_slice(b"}]}\n")?;
    Ok(bytes)
}

/// Compares the reply to a commit of the document with what the line states.
pub fn put_line<R: Threads + Wait + Sync>(
    rt: &R,
    alloc: Global,
    name: &str,
    word: &str,
    line: &str,
    tally: &mut Tally,
) -> Result<(), TextFault> {
    let stated = stated_by(alloc, word, line)?;
    let input = session(alloc, &stated)?;
    let came = written(rt, alloc, "run", &input)?;
    let wanted = format!(in alloc; "{HELLO}{}\n", stated.wanted)?;
    tally.compare(alloc, name, line, wanted.as_bytes(), came.as_bytes())?;
    Ok(())
}

/// The text of the document's graph file, or its fault.
fn graph_of(alloc: Global, stated: &Stated<'_>) -> Result<Vec<u8>, AllocError> {
    match read_document(alloc, stated.path, &stated.text) {
        Ok(graph) => print_graph(alloc, &graph),
        Err(ReadFault::NoMemory) => Err(AllocError),
        Err(ReadFault::File(fault)) => {
            let text = format!(in alloc; "{fault}")?;
            Ok(text.into_bytes())
        }
    }
}

/// Compares the graph of the document with what the line states.
pub fn document_line(
    alloc: Global,
    name: &str,
    word: &str,
    line: &str,
    tally: &mut Tally,
) -> Result<(), TextFault> {
    let stated = stated_by(alloc, word, line)?;
    let came = graph_of(alloc, &stated)?;
    tally.compare(alloc, name, line, stated.wanted.as_bytes(), &came)?;
    Ok(())
}
