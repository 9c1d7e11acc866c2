//! Lines that state what one request is replied, or what it is read as.
use crate::counts::Tally;
use crate::row::sides;
use crate::sessions::written;
use aux_graph_text::TextFault;
use nav_proto::{ProtoFault, read_request};
use std::alloc::{AllocError, Global};
use std::sync::Wait;
use std::thread::Threads;

/// Compares the reply to a session's only line with what a text such as `LINE => REPLY` states.
pub fn ask_line<R: Threads + Wait + Sync>(
    rt: &R,
    alloc: Global,
    name: &str,
    text: &str,
    tally: &mut Tally,
) -> Result<(), TextFault> {
    let (line, reply) = sides(text)?;
    let input = format!(in alloc; "{line}\n")?;
    let came = written(rt, alloc, "run", input.as_bytes())?;
    let wanted = format!(in alloc; "0 {reply}\n")?;
    tally.compare(alloc, name, line, wanted.as_bytes(), came.as_bytes())?;
    Ok(())
}

/// The request that a line is, as Rust shows it, or what its fault is said to be.
fn request_of(alloc: Global, line: &str) -> Result<String, AllocError> {
    match read_request(alloc, line.as_bytes()) {
        Ok(request) => format!(in alloc; "{request:?}"),
        Err(ProtoFault::NoMemory) => Err(AllocError),
        Err(fault) => format!(in alloc; "{fault}"),
    }
}

/// Compares the request that a line is with what a text such as `LINE => REQUEST` states.
pub fn request_line(
    alloc: Global,
    name: &str,
    text: &str,
    tally: &mut Tally,
) -> Result<(), TextFault> {
    let (line, wanted) = sides(text)?;
    let came = request_of(alloc, line)?;
    tally.compare(alloc, name, line, wanted.as_bytes(), came.as_bytes())?;
    Ok(())
}
