//! The command of a row, run over inputs and outputs in memory.
ghost use Rattle.std.specs.Prelude.{◌≡◌, ◌<◌};

use crate::row::{Exchange, Row};
use crate::typist::{Screen, Typist};
use graph_nodes::Steps;
use nav_io::{MemDoor, MemHouse, MemSink, MemSource, Sink, Source, StdSink, StdSource, Unguarded};
use nav_serve::run;
use nav_session::Means;
use std::alloc::{AllocError, Global};
use std::cell::Cell;
use std::marker::Brand;
use std::sync::Wait;
use std::sync::ledger::{Blank, Ledger};
use std::thread::Threads;
use version_board::PlainBoard;

/// What a command gave: its status, what its own output took, and what the output of each pair of a door took, in the
/// order in which they came back.
#[derive(Drop)]
pub struct Given {
    pub status: u8,
    pub written: Vec<u8>,
    pub at_doors: Vec<Vec<u8>>,
}

/// The status of these words on a board and a ledger of their own.
fn status_on<R: Threads + Wait + Sync, S: Source, K: Sink, L: Ledger>(
    rt: &R,
    alloc: Global,
    words: &[String],
    source: &mut S,
    sink: &mut K,
    house: &mut MemHouse,
    blank: Blank,
) -> Result<u8, AllocError>
    requires name { blank.name ≡ L.name }
    requires parts { blank.parts ≡ L.parts }
    requires some { 0 < blank.parts }
{
    let mut board = PlainBoard::new(alloc)?;
    let mut steps = Steps::<L>::new(blank);
    let means = Means {
        rt,
        alloc,
        gate: &Unguarded,
    };
    Ok(run(&means, words, source, sink, house, &mut board, &mut steps))
}

/// The same on a ledger that nobody reads.
fn status<R: Threads + Wait + Sync, S: Source, K: Sink>(
    rt: &R,
    alloc: Global,
    words: &[String],
    source: &mut S,
    sink: &mut K,
    house: &mut MemHouse,
) -> Result<u8, AllocError> {
    status_on::<_, _, _, Brand>(rt, alloc, words, source, sink, house, Blank::new(1))
}

/// The input and the output of an exchange.
fn pair_of(
    alloc: Global,
    exchange: &Exchange,
    piece: u32,
    takes: u32,
) -> Result<(MemSource, MemSink), AllocError> {
    let input = exchange.input.clone()?;
    let source = MemSource::new(input, piece.max(1), exchange.reads.clone()?);
    let sink = MemSink::new(alloc, takes.max(1), exchange.writes.clone()?);
    Ok((source, sink))
}

/// The door of that number.
fn door_of(alloc: Global, row: &Row, door: u32, piece: u32) -> Result<MemDoor, AllocError> {
    let mut pairs = Vec::new(alloc);
    for exchange in &row.exchanges {
        if exchange.door == door {
            pairs.push(pair_of(alloc, exchange, piece, piece)?)?;
        }
    }
    Ok(MemDoor::new(pairs))
}

/// The doors of a row. One without doors has a house that fails.
fn house_of(alloc: Global, row: &Row, piece: u32) -> Result<MemHouse, AllocError> {
    let mut doors = Vec::new(alloc);
    for door in 0..row.doors {
        doors.push(door_of(alloc, row, door.saturating_add(1), piece)?)?;
    }
    let fails = doors.is_empty();
    Ok(MemHouse::new(doors, fails))
}

/// What the outputs of a door's pairs took.
fn push_written(
    alloc: Global,
    written: &mut Vec<Vec<u8>>,
    door: MemDoor,
) -> Result<(), AllocError> {
    for (source, sink) in door.into_pairs() {
        drop(source);
        written.push(sink.held().to_vec(alloc)?)?;
    }
    Ok(())
}

/// What the outputs at the doors of a house took.
fn written_at(alloc: Global, house: MemHouse) -> Result<Vec<Vec<u8>>, AllocError> {
    let mut written = Vec::new(alloc);
    for door in house.into_doors() {
        push_written(alloc, &mut written, door)?;
    }
    Ok(written)
}

/// What the row's command gives on this exchange, where a read gives and a write takes so many bytes at most.
pub fn given_by<R: Threads + Wait + Sync>(
    rt: &R,
    alloc: Global,
    row: &Row,
    exchange: &Exchange,
    piece: u32,
    takes: u32,
) -> Result<Given, AllocError> {
    let mut house = house_of(alloc, row, piece)?;
    let (mut source, mut sink) = pair_of(alloc, exchange, piece, takes)?;
    let status = status(rt, alloc, &row.words, &mut source, &mut sink, &mut house)?;
    Ok(Given {
        status,
        written: sink.held().to_vec(alloc)?,
        at_doors: written_at(alloc, house)?,
    })
}

/// What the words give on an input that is typed line by line, each once all before it are answered.
pub fn given_typed<R: Threads + Wait + Sync>(
    rt: &R,
    alloc: Global,
    words: &[String],
    input: &[u8],
) -> Result<Given, AllocError> {
    let answered = Cell::new(0);
    let mut source = StdSource::new(Typist {
        left: input,
        typed: 0,
        answered: &answered,
    });
    let mut screen = Screen {
        shown: Vec::new(alloc),
        answered: &answered,
    };
    let mut sink = StdSink::new(&mut screen);
    let mut house = MemHouse::new(Vec::new(alloc), true);
    let status = status(rt, alloc, words, &mut source, &mut sink, &mut house)?;
    Ok(Given {
        status,
        written: screen.shown,
        at_doors: Vec::new(alloc),
    })
}

/// What `run` or `once` writes on an input that comes whole, behind its status.
pub fn written<R: Threads + Wait + Sync>(
    rt: &R,
    alloc: Global,
    word: &str,
    input: &[u8],
) -> Result<String, AllocError> {
    let words = vec![in alloc; String::from_str(alloc, word)?]?;
    let mut source = MemSource::new(input.to_vec(alloc)?, 65_536, Vec::new(alloc));
    let mut sink = MemSink::new(alloc, 65_536, Vec::new(alloc));
    let mut house = MemHouse::new(Vec::new(alloc), true);
    let status = status(rt, alloc, &words, &mut source, &mut sink, &mut house)?;
    let text = String::from_utf8_lossy(alloc, sink.held())?;
    format!(in alloc; "{status} {text}")
}
