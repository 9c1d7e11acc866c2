//! The rows of a file.
use crate::asks::{ask_line, request_line};
use crate::backward::{back_line, found_backward};
use crate::callers::callers_line;
use crate::counts::Tally;
use crate::documents::{document_line, put_line};
use crate::graphs::{Stored, command_line, graph_line};
use crate::in_sessions::ask_all;
use crate::lines::take_line;
use crate::orders::alike;
use crate::row::{Row, Way};
use crate::ways::{Call, cuts, failing_calls, typed, whole};
use aux_graph_text::TextFault;
use std::alloc::{AllocError, Global};
use std::sync::Wait;
use std::thread::Threads;

/// How a row begins.
const BEGIN: &str = "\nrow ";

/// Whether a line says anything.
fn says(line: &str) -> bool {
    !line.is_empty() && !line.starts_with('#')
}

/// Runs the rows of a file and notes which hold.
pub fn run_rows<R: Threads + Wait + Sync>(
    rt: &R,
    alloc: Global,
    file: &str,
    text: &str,
    tally: &mut Tally,
) -> Result<(), AllocError> {
    let mut line: usize = 1;
    for (place, block) in text.split(BEGIN).enumerate() {
        if place > 0 {
            run_block(rt, alloc, file, line, block, tally)?;
        } else if block.split('\n').any(says) {
            tally.differ(alloc, file, "a line stands before the first row")?;
        }
        let lines = block.split('\n').count();
        line = line.saturating_add(lines);
    }
    Ok(())
}

/// Runs one row, which begins with its name.
fn run_block<R: Threads + Wait + Sync>(
    rt: &R,
    alloc: Global,
    file: &str,
    line: usize,
    block: &str,
    tally: &mut Tally,
) -> Result<(), AllocError> {
    let (title, lines) = block.split_once('\n').unwrap_or((block, ""));
    let name = format!(in alloc; "{file}:{line}: {title}")?;
    let before = tally.cases();
    match run_lines(rt, alloc, name.as_str(), lines, tally) {
        Ok(()) if tally.cases() == before => {
            tally.differ(alloc, name.as_str(), "it states nothing")
        }
        Ok(()) => Ok(()),
        Err(fault) => {
            let why = format!(in alloc; "{fault}")?;
            tally.differ(alloc, name.as_str(), why.as_str())
        }
    }
}

/// Runs the lines of a row.
fn run_lines<R: Threads + Wait + Sync>(
    rt: &R,
    alloc: Global,
    name: &str,
    lines: &str,
    tally: &mut Tally,
) -> Result<(), TextFault> {
    let mut row = Row::new(alloc)?;
    for line in lines.split('\n') {
        if says(line) {
            run_line(rt, alloc, name, line, &mut row, tally)?;
        }
    }
    run_row(rt, alloc, name, &row, tally)
}

/// Runs a line that is whole by itself, or takes it into the row.
fn run_line<R: Threads + Wait + Sync>(
    rt: &R,
    alloc: Global,
    name: &str,
    line: &str,
    row: &mut Row,
    tally: &mut Tally,
) -> Result<(), TextFault> {
    let (word, rest) = line.split_once(' ').unwrap_or((line, ""));
    match word {
        "graph" => graph_line(rt, alloc, name, rest, Stored::Light, tally),
        "heavy" => graph_line(rt, alloc, name, rest, Stored::Heavy, tally),
        "put" | "put\\" => put_line(rt, alloc, name, word, rest, tally),
        "document" | "document\\" => document_line(alloc, name, word, rest, tally),
        "ask" => ask_line(rt, alloc, name, rest, tally),
        "request" => request_line(alloc, name, rest, tally),
        "alike" => alike(alloc, name, rest, tally),
        "backward" => found_backward(alloc, name, rest, tally),
        "back" => back_line(alloc, name, rest, tally),
        "asked" => ask_all(rt, alloc, name, rest, tally),
        "callers\\" => callers_line(rt, alloc, name, rest, tally),
        "command" => command_line(alloc, name, rest, tally),
        _ => take_line(alloc, row, line),
    }
}

/// Runs what a row states of a command, if it states anything.
fn run_row<R: Threads + Wait + Sync>(
    rt: &R,
    alloc: Global,
    name: &str,
    row: &Row,
    tally: &mut Tally,
) -> Result<(), TextFault> {
    if !row.begun {
        return Ok(());
    }
    match row.way {
        Way::Whole => whole(rt, alloc, name, row, tally)?,
        Way::Typed => typed(rt, alloc, name, row, tally)?,
        Way::EachCut => cuts(rt, alloc, name, row, tally)?,
        Way::EachRead => failing_calls(rt, alloc, name, row, Call::Read, tally)?,
        Way::EachWrite => failing_calls(rt, alloc, name, row, Call::Write, tally)?,
    }
    Ok(())
}
