//! Serving an editor: its messages read, answered and the replies written, until it ends.
ghost use Rattle.std.specs.Prelude.{◌≡◌, ◌≤◌, Err, IfOk, IsTrue, if◌then◌else◌};
ghost use Rattle.nav_io.specs.Faults.{HasRisen};
ghost use Rattle.lsp_messages.specs.Ends.{ends_session, ends_unhindered};
ghost use Rattle.lsp_messages.specs.declared.halt.Halt.TheVariants as halt;
ghost use Rattle.nav_lsp.specs.{Editing.{is_shut}, Held.{IsReady}, Serving.{ServesEditor}, Turns.{BeginsToEdit, HasNoEntry, IsFresh, TakesTurn, end_before, spot_at, status_at_end, status_of_end}};

use crate::answering::answer_message;
use crate::editor::{Editor, OPERATOR};
use graph_nodes::Steps;
use lsp_frames::FrameReader;
use lsp_messages::{Halt, MAX_MESSAGES, More, ends_session, look_on, next_message, write_reply};
use lsp_wire::Reply;
use nav_io::{Gate, Sink, Source};
use nav_proto::Request;
use nav_session::{Means, reply_to};
use std::alloc::AllocError;
use std::sync::ledger::Ledger;
use std::thread::Threads;
use version_board::Commits;
use version_tree::UserText;

/// How a session ends that nothing halts.
#[derive(Clone, Copy, Debug, PartialEq, Eq)]
pub enum End {
    /// The input ended between messages.
    Input,
    /// An `exit` ended it.
    Exit,
    /// It has as many messages as it may have, and more input stands behind them.
    Full,
}

impl End {
    /// The status that tells of it.
    fn status(self, editor: &Editor) -> u8
        ensures { result ≡ status_of_end (is_shut editor.now.phase) self }
    {
        match self {
            End::Input => 0,
            End::Exit => status_at_exit(editor),
            End::Full => 7,
        }
    }
}

/// What a message is answered with.
#[derive(Drop)]
pub struct Step {
    /// The reply, where it has one.
    pub reply: Option<Reply>,
    /// Whether the message ends the session.
    pub exit: bool,
}

/// Serves one editor: answers message by message until the notification `exit`, the end of the input, a message that
/// can't be read, or 1,000,000 messages, and gives the status.
///
/// - 0: at `exit` after `shutdown`, or where the input ends between messages.
/// - 1: at `exit` without `shutdown`.
/// - 3: the source failed; its count rose. All whole messages that were taken are answered.
/// - 4: the sink failed; its count rose.
/// - 5: memory was refused.
/// - 6: a block of header lines states a body of more than 8,388,608 bytes.
/// - 7: 1,000,000 messages are answered, none of them an `exit`, and another byte stands behind them.
/// - 9: a block of header lines isn't of the form or is too long, or the input ends within a message.
pub fn serve_lsp<R: Threads + Sync, B: Commits<R>, S: Source, K: Sink, G: Gate + Sync, L: Ledger>(
    means: &Means<'_, R, G>,
    board: &mut B,
    source: &mut S,
    sink: &mut K,
    steps: &mut Steps<L>,
) -> u8
    // What is answered and written, and the log.
    ensures served { ServesEditor (B.seat board.old) (B.log board.old) (B.log board.new)
        (S.left source.old) (S.left source.new) (K.held sink.old) (K.held sink.new) result }
    ensures seat { B.seat board.new ≡ B.seat board.old }

    // Which status comes, and when.
    ensures statuses { IsTrue (ends_session result) }
    ensures source_failed { result ≡ 3 → HasRisen (S.faults source.old) (S.faults source.new) }
    ensures sink_failed { result ≡ 4 → HasRisen (K.faults sink.old) (K.faults sink.new) }
    ensures unhindered { ¬ HasRisen (S.faults source.old) (S.faults source.new)
        → ¬ HasRisen (K.faults sink.old) (K.faults sink.new) → IsTrue (ends_unhindered result) }

    // No count of faults falls.
    ensures source_count { S.faults source.old ≤ S.faults source.new }
    ensures sink_count { K.faults sink.old ≤ K.faults sink.new }
{
    let mut editor = Editor::new(means.alloc);
    match serve_messages(means, &mut editor, board, source, sink, steps) {
        Ok(end) => end.status(&editor),
        Err(halt) => halt.status(),
    }
}

// The status at `exit`.
fn status_at_exit(editor: &Editor) -> u8
    ensures { result ≡ if is_shut editor.now.phase then 0 else 1 }
{
    if editor.phase.is_shut() { 0 } else { 1 }
}

// Names the operator, and pins the newest version.
fn name_operator<R: Threads + Sync, B: Commits<R>, G: Gate + Sync, L: Ledger>(
    means: &Means<'_, R, G>,
    editor: &mut Editor,
    board: &mut B,
    steps: &mut Steps<L>,
) -> Result<(), AllocError>
    requires fresh { IsFresh editor.old }
    ensures stays { HasNoEntry (B.seat board.old) (B.seat board.new) (B.log board.old)
        (B.log board.new) }
    ensures begins { IfOk result
        (λ _. BeginsToEdit (B.seat board.old) (B.log board.old) (B.log board.new)
        (B.pin_at board.new) editor.new) }
{
    let hello = Request::Hello {
        user: UserText::of(means.alloc, OPERATOR)?,
    };
    reply_to(means, &mut editor.desk, board, hello, steps)?;
    Ok(())
}

// Answers message by message, where nothing was made of the editor yet.
fn serve_messages<R: Threads + Sync, B: Commits<R>, S: Source, K: Sink, G: Gate + Sync, L: Ledger>(
    means: &Means<'_, R, G>,
    editor: &mut Editor,
    board: &mut B,
    source: &mut S,
    sink: &mut K,
    steps: &mut Steps<L>,
) -> Result<End, Halt>
    requires fresh { IsFresh editor.old }
    ensures served { ServesEditor (B.seat board.old) (B.log board.old) (B.log board.new)
        (S.left source.old) (S.left source.new) (K.held sink.old) (K.held sink.new)
        (status_at_end (is_shut editor.new.phase) result) }
    ensures seat { B.seat board.new ≡ B.seat board.old }
    ensures source_failed { result ≡ Err halt.SourceFailed
        → HasRisen (S.faults source.old) (S.faults source.new) }
    ensures sink_failed { result ≡ Err halt.SinkFailed
        → HasRisen (K.faults sink.old) (K.faults sink.new) }
    ensures source_count { S.faults source.old ≤ S.faults source.new }
    ensures sink_count { K.faults sink.old ≤ K.faults sink.new }
{
    let mut reader = FrameReader::new(means.alloc)?;
    name_operator(means, editor, board, steps)?;
    for _ in 0..MAX_MESSAGES {
        let turn = answer_next(means, editor, board, &mut reader, source, steps)?;
        let Some(step) = turn else {
            return Ok(End::Input);
        };
        let exit = step.exit;
        write_reply(means.alloc, sink, &step.reply)?;
        if exit {
            return Ok(End::Exit);
        }
    }
    let more = look_on(&mut reader, source)?;
    Ok(end_before(more))
}

// How a session ends behind as many messages as may be, where this stands behind them.
fn end_before(more: More) -> End
    ensures { result ≡ end_before more }
{
    match more {
        More::Nothing => End::Input,
        More::Bytes => End::Full,
    }
}

// Reads the next message and answers it; none where the input ends.
fn answer_next<R: Threads + Sync, B: Commits<R>, S: Source, G: Gate + Sync, L: Ledger>(
    means: &Means<'_, R, G>,
    editor: &mut Editor,
    board: &mut B,
    reader: &mut FrameReader,
    source: &mut S,
    steps: &mut Steps<L>,
) -> Result<Option<Step>, Halt>
    requires ready { IsReady editor.old (B.log board.old) (B.pin_at board.old) }
    ensures turn { TakesTurn (spot_at B.Pins board.old editor.old reader.old (S.left source.old))
        (spot_at B.Pins board.new editor.new reader.new (S.left source.new)) result }
    ensures count { S.faults source.old ≤ S.faults source.new }
    ensures cause { result ≡ Err halt.SourceFailed
        → HasRisen (S.faults source.old) (S.faults source.new) }
{
    let Some(body) = next_message(means.alloc, reader, source)? else {
        return Ok(None);
    };
    let exit = ends_session(&body);
    let reply = answer_message(means, editor, board, body, steps)?;
    Ok(Some(Step { reply, exit }))
}
