//! The demonstration.
ghost use Rattle.std.specs.Prelude.{◌≡◌, ◌≤◌, ℕ, length, IsTrue, Err, IfOk};
ghost use Rattle.nav_io.specs.Faults.{HasRisen};
ghost use Rattle.version_board.specs.Logs.{Begins};
ghost use Rattle.nav_session.specs.declared.halt.Halt.TheVariants as halt;
ghost use Rattle.nav_demo.specs.{Summary.{Demonstrates, IsSummary, ends_demo, ends_demo_unhindered}, Inside.{Shows}};

use crate::session::{commit_all, query_all};
use graph_nodes::Steps;
use nav_io::Sink;
use nav_session::{ANSWERED, Desk, Halt, write_line};
use std::alloc::{AllocError, Global};
use std::sync::ledger::Ledger;
use std::thread::Threads;
use version_board::Commits;

/// Commits the made tree of so many files that is drawn from this start, asks for the definitions of the reference in
/// each file, writes what the replies add up to, as one line, and gives the status.
///
/// All is one session of the board's seat: `hello` as `operator`, commits of 64 files each in order, the last one with the
/// rest, and a `define` for each file in order.
///
/// - 0: the line was written.
/// - 4: the sink failed; its count rose.
/// - 5: memory was refused.
pub fn demo<R: Threads + Sync, B: Commits<R>, K: Sink, L: Ledger>(
    rt: &R,
    alloc: Global,
    files: u32,
    start: u32,
    sink: &mut K,
    board: &mut B,
    steps: &mut Steps<L>,
) -> u8
    // What is done and written.
    ensures demonstrates { Demonstrates (B.seat board.old) (B.log board.old) (B.log board.new)
        (K.held sink.old) (K.held sink.new) files start result }
    ensures seat { B.seat board.new ≡ B.seat board.old }

    // Which status comes, and when.
    ensures statuses { IsTrue (ends_demo result) }
    ensures sink_failed { result ≡ 4 → HasRisen (K.faults sink.old) (K.faults sink.new) }
    ensures unhindered { ¬ HasRisen (K.faults sink.old) (K.faults sink.new)
        → IsTrue (ends_demo_unhindered result) }

    // The count of faults doesn't fall.
    ensures sink_count { K.faults sink.old ≤ K.faults sink.new }
{
    match show(rt, alloc, files, start, sink, board, steps) {
        Ok(()) => ANSWERED,
        Err(halt) => halt.status(),
    }
}

// Makes the summary and writes it.
fn show<R: Threads + Sync, B: Commits<R>, K: Sink, L: Ledger>(
    rt: &R,
    alloc: Global,
    files: u32,
    start: u32,
    sink: &mut K,
    board: &mut B,
    steps: &mut Steps<L>,
) -> Result<(), Halt>
    ensures shown { Shows (B.seat board.old) (B.log board.old) (B.log board.new)
        (K.held sink.old) (K.held sink.new) files start result }
    ensures seat { B.seat board.new ≡ B.seat board.old }
    ensures sink_failed { result ≡ Err halt.SinkFailed
        → HasRisen (K.faults sink.old) (K.faults sink.new) }
    ensures not_source { result ≡ Err halt.SourceFailed → ⊥ }
    ensures not_long { result ≡ Err halt.LongLine → ⊥ }
    ensures sink_count { K.faults sink.old ≤ K.faults sink.new }
{
    let text = summary(rt, alloc, files, start, board, steps)?;
    write_line(sink, text)
}

// The summary, without its newline. The one error is want of memory.
fn summary<R: Threads + Sync, B: Commits<R>, L: Ledger>(
    rt: &R,
    alloc: Global,
    files: u32,
    start: u32,
    board: &mut B,
    steps: &mut Steps<L>,
) -> Result<Vec<u8>, AllocError>
    ensures begins { Begins (B.log board.old) (B.log board.new) }
    ensures seat { B.seat board.new ≡ B.seat board.old }
    ensures summary { IfOk result
        (λ text. IsSummary (B.seat board.old) (length (B.log board.old))
        (B.log board.new) files start text.items) }
{
    let mut desk = Desk::new(alloc);
    commit_all(rt, alloc, &mut desk, board, files, start, steps)?;
    let totals = query_all(rt, alloc, &mut desk, board, files, steps)?;
    Ok(totals.text(alloc, files)?.into_bytes())
}
