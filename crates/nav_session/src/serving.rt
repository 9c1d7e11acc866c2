//! Serving a session: its lines read, answered and the replies written, until it ends.
ghost use Rattle.std.specs.{Prelude.{◌≡◌, ◌≤◌, ℕ, None, Err, IsTrue}, Option.{option_copied}};
ghost use Rattle.nav_io.specs.Faults.{HasRisen};
ghost use Rattle.nav_session.specs.{Desks.{HasItsView, moment_at}, Serving.{ServesAtDesk, standing, ends_session, ends_unhindered}, Turns.{TakesTurn, LeavesStore, LooksOn, end_before, spot, status_at_end, status_of_end}};
ghost use Rattle.nav_session.specs.declared.halt.Halt.TheVariants as halt;

use crate::answering::answer_line;
use crate::desk::Desk;
use crate::halt::{ANSWERED, Halt};
use crate::means::Means;
use crate::output::write_reply;
use crate::step::Step;
use graph_nodes::Steps;
use nav_io::{Gate, LineReader, Sink, Source};
use std::sync::ledger::Ledger;
use std::thread::Threads;
use version_board::Commits;

/// The most lines of a session.
const MAX_LINES: u32 = 1_000_000;

/// As many lines were answered as a session may have, and more input stands behind them.
pub const MORE_LINES: u8 = 7;

/// How a session ends that nothing halts.
#[derive(Clone, Copy, Debug, PartialEq, Eq)]
pub enum End {
    /// A line ended it, or the input ended.
    Answered,
    /// It has as many lines as it may have, and more input stands behind them.
    Full,
}

impl End {
    /// The status that tells of it.
    fn status(self) -> u8
        ensures { result ≡ status_of_end self }
    {
        match self {
            End::Answered => ANSWERED,
            End::Full => MORE_LINES,
        }
    }
}

/// Serves one session: names nobody on the desk, then answers line by line until an accepted `quit`, the end of the
/// input, a line that is too long, or 1,000,000 lines, and gives the status.
///
/// Each reply and its newline are written at once, before the next line is read. Behind 1,000,000 lines one more byte is
/// looked for. A session costs what its lines and their answers cost, and no line is copied. The desk keeps the documents
/// that its lines left there, for the next session.
///
/// - 0: all lines were answered up to the end of the input, or up to and with an accepted `quit`.
/// - 3: the source failed; its count rose. All whole lines that were taken are answered.
/// - 4: the sink failed; its count rose.
/// - 5: memory was refused.
/// - 6: the next line is longer than a line may be; all before it are answered.
/// - 7: 1,000,000 lines are answered, and more input stands behind them.
pub fn serve_session<
    R: Threads + Sync,
    B: Commits<R>,
    S: Source,
    K: Sink,
    G: Gate + Sync,
    L: Ledger,
>(
    means: &Means<'_, R, G>,
    desk: &mut Desk,
    board: &mut B,
    source: &mut S,
    sink: &mut K,
    steps: &mut Steps<L>,
) -> u8
    // What is answered and written, the log, and what the desk keeps.
    ensures served { ServesAtDesk (B.seat board.old)
        (standing (B.log board.old) desk.old) (standing (B.log board.new) desk.new)
        (S.left source.old) (S.left source.new) (K.held sink.old) (K.held sink.new) result }
    ensures seat { B.seat board.new ≡ B.seat board.old }

    // Which status comes, and when.
    ensures statuses { IsTrue (ends_session result) }
    ensures source_failed { result ≡ 3 → HasRisen (S.faults source.old) (S.faults source.new) }
    ensures sink_failed { result ≡ 4 → HasRisen (K.faults sink.old) (K.faults sink.new) }
    ensures unhindered { ¬ HasRisen (S.faults source.old) (S.faults source.new)
        → ¬ HasRisen (K.faults sink.old) (K.faults sink.new) → IsTrue (ends_unhindered result) }

    // No count of faults falls.
    ensures source_count { S.faults source.old ≤ S.faults source.new }
    ensures sink_count { K.faults sink.old ≤ K.faults sink.new }
{
    desk.clear();
    match serve_lines(means, desk, board, source, sink, steps) {
        Ok(end) => end.status(),
        Err(halt) => halt.status(),
    }
}

// Answers line by line, where the desk has nobody named.
fn serve_lines<R: Threads + Sync, B: Commits<R>, S: Source, K: Sink, G: Gate + Sync, L: Ledger>(
    means: &Means<'_, R, G>,
    desk: &mut Desk,
    board: &mut B,
    source: &mut S,
    sink: &mut K,
    steps: &mut Steps<L>,
) -> Result<End, Halt>
    requires nobody { desk.old.user ≡ None }
    requires no_view { desk.old.view ≡ None }
    ensures served { ServesAtDesk (B.seat board.old)
        (standing (B.log board.old) desk.old) (standing (B.log board.new) desk.new)
        (S.left source.old) (S.left source.new) (K.held sink.old) (K.held sink.new)
        (status_at_end result) }
    ensures seat { B.seat board.new ≡ B.seat board.old }
    ensures source_failed { result ≡ Err halt.SourceFailed
        → HasRisen (S.faults source.old) (S.faults source.new) }
    ensures sink_failed { result ≡ Err halt.SinkFailed
        → HasRisen (K.faults sink.old) (K.faults sink.new) }
    ensures source_count { S.faults source.old ≤ S.faults source.new }
    ensures sink_count { K.faults sink.old ≤ K.faults sink.new }
{
    let mut reader = LineReader::new(means.alloc)?;
    for _ in 0..MAX_LINES {
        let turn = answer_next(means, desk, board, &mut reader, source, steps)?;
        let Some(step) = turn else {
            return Ok(End::Answered);
        };
        let quit = step.quit;
        write_reply(sink, &step.reply)?;
        if quit {
            return Ok(End::Answered);
        }
    }
    look_on(&mut reader, source)
}

// Reads the next line and answers it; none where the input ends.
#[tactic(auto, using(crate::proofs::Kept::stays_at))]
fn answer_next<R: Threads + Sync, B: Commits<R>, S: Source, G: Gate + Sync, L: Ledger>(
    means: &Means<'_, R, G>,
    desk: &mut Desk,
    board: &mut B,
    reader: &mut LineReader,
    source: &mut S,
    steps: &mut Steps<L>,
) -> Result<Option<Step>, Halt>
    requires view { HasItsView desk.old (B.log board.old) (B.pin_at board.old) }
    ensures turn { TakesTurn
        (spot (moment_at B.Pins board.old desk.old) reader.old (S.left source.old))
        (spot (moment_at B.Pins board.new desk.new) reader.new (S.left source.new)) result }
    ensures store { LeavesStore result desk.old.store desk.new.store }
    ensures count { S.faults source.old ≤ S.faults source.new }
    ensures cause { result ≡ Err halt.SourceFailed
        → HasRisen (S.faults source.old) (S.faults source.new) }
{
    match reader.next_line(source) {
        Ok(Some(line)) => Ok(Some(answer_line(means, desk, board, line, steps)?)),
        Ok(None) => Ok(None),
        Err(error) => Err(Halt::from(error)),
    }
}

// Looks whether a byte stands behind the last line that may be answered.
fn look_on<S: Source>(reader: &mut LineReader, source: &mut S) -> Result<End, Halt>
    ensures looks { LooksOn reader.old reader.new (S.left source.old) (S.left source.new) result }
    ensures count { S.faults source.old ≤ S.faults source.new }
    ensures cause { result ≡ Err halt.SourceFailed
        → HasRisen (S.faults source.old) (S.faults source.new) }
{
    match reader.next_bytes(source, 1) {
        Ok(next) => Ok(end_before(next)),
        Err(error) => Err(Halt::from(error)),
    }
}

// How a session ends behind its last line, where these bytes are next or none.
fn end_before(next: Option<&[u8]>) -> End
    ensures { result ≡ end_before (option_copied next.entry) }
{
    match next {
        Some(_) => End::Full,
        None => End::Answered,
    }
}
