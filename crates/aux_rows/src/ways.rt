//! The ways in which a row's input comes and its output goes.
use crate::counts::Tally;
use crate::due::{due, due_at_read, due_at_write, told};
use crate::row::{Exchange, Row};
use crate::sessions::{Given, given_by, given_typed};
use std::alloc::{AllocError, Global};
use std::sync::Wait;
use std::thread::Threads;

/// How many reads, and how many writes, are failed in turn.
const CALLS: u32 = 40;

/// Adds what was written at a door.
fn push_door(bytes: &mut Vec<u8>, written: &[u8]) -> Result<(), AllocError> {
    bytes.extend_from_slice(b" / ")?;
    Ok(bytes.extend_from_slice(written)?)
}

/// What came, as one list of bytes.
fn came(alloc: Global, given: &Given) -> Result<Vec<u8>, AllocError> {
    let mut bytes = told(alloc, given.status, &given.written)?;
    for written in &given.at_doors {
        push_door(&mut bytes, written)?;
    }
    Ok(bytes)
}

/// What the row wants, in the same form. Where one of two outputs may come, it is the one that came.
fn wanted(alloc: Global, row: &Row, given: &Given) -> Result<Vec<u8>, AllocError> {
    let mut bytes = told(alloc, row.status, &[])?;
    let mut pairs: usize = 0;
    for exchange in &row.exchanges {
        if exchange.door == 0 {
            bytes.extend_from_slice(&exchange.wanted)?;
        } else if !exchange.unused {
            push_wanted(&mut bytes, exchange, given.at_doors.get(pairs))?;
            pairs = pairs.saturating_add(1);
        }
    }
    Ok(bytes)
}

/// Adds what an exchange at a door wants.
fn push_wanted(
    bytes: &mut Vec<u8>,
    exchange: &Exchange,
    written: Option<&Vec<u8>>,
) -> Result<(), AllocError> {
    match written {
        Some(written) if exchange.allows(written) => push_door(bytes, written),
        _ => push_door(bytes, &exchange.wanted),
    }
}

/// Runs a row once for each size of its pieces.
pub fn whole<R: Threads + Wait + Sync>(
    rt: &R,
    alloc: Global,
    name: &str,
    row: &Row,
    tally: &mut Tally,
) -> Result<(), AllocError> {
    for piece in &row.pieces {
        let case = format!(in alloc; "by pieces of {piece}")?;
        whole_by(rt, alloc, name, case.as_str(), row, *piece, tally)?;
    }
    Ok(())
}

/// Runs a row by such pieces.
fn whole_by<R: Threads + Wait + Sync>(
    rt: &R,
    alloc: Global,
    name: &str,
    case: &str,
    row: &Row,
    piece: u32,
    tally: &mut Tally,
) -> Result<(), AllocError> {
    let Some(exchange) = row.exchanges.first() else {
        return tally.differ(alloc, name, "it has no input");
    };
    let given = given_by(rt, alloc, row, exchange, piece, row.takes.unwrap_or(piece))?;
    let wanted = wanted(alloc, row, &given)?;
    tally.compare(alloc, name, case, &wanted, &came(alloc, &given)?)
}

/// Runs a row whose input is typed line by line.
pub fn typed<R: Threads + Wait + Sync>(
    rt: &R,
    alloc: Global,
    name: &str,
    row: &Row,
    tally: &mut Tally,
) -> Result<(), AllocError> {
    let Some(exchange) = row.exchanges.first() else {
        return tally.differ(alloc, name, "it has no input");
    };
    let given = given_typed(rt, alloc, &row.words, &exchange.input)?;
    let wanted = wanted(alloc, row, &given)?;
    tally.compare(alloc, name, "typed", &wanted, &came(alloc, &given)?)
}

/// A copy of an exchange with other input and other calls that fail.
fn changed(
    alloc: Global,
    input: &[u8],
    reads: Vec<u32>,
    writes: Vec<u32>,
) -> Result<Exchange, AllocError> {
    let mut exchange = Exchange::new(alloc, 0);
    exchange.input = input.to_vec(alloc)?;
    exchange.reads = reads;
    exchange.writes = writes;
    Ok(exchange)
}

/// Runs a row on this exchange, where a read gives and a write takes so many bytes at most, and compares what came.
fn compare_on<R: Threads + Wait + Sync>(
    rt: &R,
    alloc: Global,
    name: &str,
    case: &str,
    row: &Row,
    exchange: &Exchange,
    piece: u32,
    takes: u32,
    wanted: &[u8],
    tally: &mut Tally,
) -> Result<(), AllocError> {
    let given = given_by(rt, alloc, row, exchange, piece, takes)?;
    tally.compare(alloc, name, case, wanted, &came(alloc, &given)?)
}

/// Runs a row with its input cut at each byte.
pub fn cuts<R: Threads + Wait + Sync>(
    rt: &R,
    alloc: Global,
    name: &str,
    row: &Row,
    tally: &mut Tally,
) -> Result<(), AllocError> {
    for exchange in &row.exchanges {
        for cut in 0..exchange.input.len() {
            cut_at(rt, alloc, name, row, exchange, cut, tally)?;
        }
    }
    Ok(())
}

fn cut_at<R: Threads + Wait + Sync>(
    rt: &R,
    alloc: Global,
    name: &str,
    row: &Row,
    exchange: &Exchange,
    cut: usize,
    tally: &mut Tally,
) -> Result<(), AllocError> {
    let case = format!(in alloc; "cut at byte {cut}")?;
    let input = exchange.input.get(..cut).unwrap_or(&[]);
    let cut_one = changed(alloc, input, Vec::new(alloc), Vec::new(alloc))?;
    let due = due(alloc, exchange, cut, true)?;
    let wanted = told(alloc, row.status, &due)?;
    compare_on(
        rt,
        alloc,
        name,
        case.as_str(),
        row,
        &cut_one,
        4_096,
        4_096,
        &wanted,
        tally,
    )
}

/// A call of a stand-in that may fail.
#[derive(Clone, Copy)]
pub enum Call {
    Read,
    Write,
}

/// Runs a row with each of its first reads, or of its first writes, failing.
pub fn failing_calls<R: Threads + Wait + Sync>(
    rt: &R,
    alloc: Global,
    name: &str,
    row: &Row,
    call: Call,
    tally: &mut Tally,
) -> Result<(), AllocError> {
    for exchange in &row.exchanges {
        for piece in &row.pieces {
            for at in 0..CALLS {
                failing_at(rt, alloc, name, row, exchange, call, *piece, at, tally)?;
            }
        }
    }
    Ok(())
}

fn failing_at<R: Threads + Wait + Sync>(
    rt: &R,
    alloc: Global,
    name: &str,
    row: &Row,
    exchange: &Exchange,
    call: Call,
    piece: u32,
    at: u32,
    tally: &mut Tally,
) -> Result<(), AllocError> {
    let failing = vec![in alloc; at]?;
    let none = Vec::new(alloc);
    let (what, failing_one, wanted, pieces) = match call {
        Call::Read => (
            "read",
            changed(alloc, &exchange.input, failing, none)?,
            due_at_read(alloc, exchange, piece, at)?,
            (piece, 4_096),
        ),
        Call::Write => (
            "write",
            changed(alloc, &exchange.input, none, failing)?,
            due_at_write(alloc, &exchange.wanted, piece, at)?,
            (4_096, piece),
        ),
    };
    let case = format!(in alloc; "failing {what} {at} of {piece} bytes")?;
    compare_on(
        rt,
        alloc,
        name,
        case.as_str(),
        row,
        &failing_one,
        pieces.0,
        pieces.1,
        &wanted,
        tally,
    )
}
