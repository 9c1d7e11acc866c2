//! What sessions give on a board of their own, polled and served at once.
ghost use Rattle.std.specs.Prelude.{◌≡◌, ◌<◌};

use futures::task::Poll;
use futures::test::MockTask;
use graph_nodes::Steps;
use nav_io::{MemSink, MemSource, Unguarded};
use nav_poll::{MemLink, NotStarted, Polled};
use nav_session::{Desk, Means, serve_session};
use std::alloc::{AllocError, AllocGlobal, Global};
use std::marker::Brand;
use std::random::RandomSource;
use std::sync::ledger::{Blank, Ledger};
use std::test::Fail;
use std::thread::Threads;
use version_board::PlainBoard;

/// What a session gave: its status, what was written, and how many polls were pending.
#[derive(Drop)]
pub struct Given {
    pub status: u8,
    pub written: Vec<u8>,
    pub pending: u32,
}

/// A session over the link, which has answered nothing yet.
fn started(alloc: Global, link: MemLink) -> Result<Polled<PlainBoard, MemLink>, Fail> {
    let board = PlainBoard::new(alloc)?;
    match Polled::start(alloc, Desk::new(alloc), board, link) {
        Ok(polled) => Ok(polled),
        Err(parts) => {
            let NotStarted { desk, board, .. } = parts;
            let_go(desk, board);
            Err(Fail::new("memory was refused"))
        }
    }
}

/// Polls the session until it has ended, and at most so often: its status, or 255 where it has not ended, and how many
/// polls were pending.
fn polls_on<R: Threads + Sync + RandomSource + AllocGlobal, L: Ledger>(
    rt: &R,
    polled: &mut Polled<PlainBoard, MemLink>,
    most: u32,
    blank: Blank,
) -> Result<(u8, u32), Fail>
    requires name { blank.name ≡ L.name }
    requires parts { blank.parts ≡ L.parts }
    requires some { 0 < blank.parts }
{
    let task = MockTask::new(rt)?;
    let mut steps = Steps::<L>::new(blank);
    let mut pending = 0u32;
    for _ in 0..most {
        match task.poll(&mut polled.with(rt, &Unguarded, &mut steps)) {
            Poll::Pending => pending = pending.saturating_add(1),
            Poll::Ready(status) => return Ok((status, pending)),
        }
    }
    Ok((255, pending))
}

/// Polls a session over the link so on a ledger that nobody reads, and tells what the link took.
pub fn polled<R: Threads + Sync + RandomSource + AllocGlobal>(
    rt: &R,
    alloc: Global,
    link: MemLink,
    most: u32,
) -> Result<Given, Fail> {
    let mut session = started(alloc, link)?;
    let ended = polls_on::<R, Brand>(rt, &mut session, most, Blank::new(1));
    let (desk, board, link) = session.close();
    let_go(desk, board);
    let (status, pending) = ended?;
    Ok(Given {
        status,
        written: taken(alloc, link)?,
        pending,
    })
}

/// Drops what a session stood on. It is a function of its own since the drop of each of its parts is proved anew wherever it
/// is dropped.
fn let_go(_desk: Desk, _board: PlainBoard) {}

/// What the link took; the link goes.
fn taken(alloc: Global, link: MemLink) -> Result<Vec<u8>, AllocError> {
    link.held().to_vec(alloc)
}

/// Serves the session at once, and tells its status.
fn serves_on<R: Threads + Sync, L: Ledger>(
    rt: &R,
    alloc: Global,
    source: &mut MemSource,
    sink: &mut MemSink,
    blank: Blank,
) -> Result<u8, Fail>
    requires name { blank.name ≡ L.name }
    requires parts { blank.parts ≡ L.parts }
    requires some { 0 < blank.parts }
{
    let mut board = PlainBoard::new(alloc)?;
    let mut desk = Desk::new(alloc);
    let mut steps = Steps::<L>::new(blank);
    let means = Means {
        rt,
        alloc,
        gate: &Unguarded,
    };
    let status = serve_session(&means, &mut desk, &mut board, source, sink, &mut steps);
    let_go(desk, board);
    Ok(status)
}

/// Serves the session at once on a ledger that nobody reads, and tells what its sink took.
pub fn served<R: Threads + Sync>(
    rt: &R,
    alloc: Global,
    source: MemSource,
    sink: MemSink,
) -> Result<Given, Fail> {
    let (mut source, mut sink) = (source, sink);
    let status = serves_on::<R, Brand>(rt, alloc, &mut source, &mut sink, Blank::new(1))?;
    Ok(Given {
        status,
        written: sunk(alloc, source, sink)?,
        pending: 0,
    })
}

/// What the sink took; the sink and the source go.
fn sunk(alloc: Global, _source: MemSource, sink: MemSink) -> Result<Vec<u8>, AllocError> {
    sink.held().to_vec(alloc)
}
