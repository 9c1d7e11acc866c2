ghost use Rattle.std.specs.Prelude.{◌≡◌, ◌≤◌, ◌+◌, ℕ, [], false, IfOk, OnOk, OnErr};
ghost use Rattle.index_gate.specs.Indexed.{AreDocWeights, docs_of, missing};
ghost use Rattle.nav_proto.specs.Replies.{reply_text};
ghost use Rattle.nav_session.specs.{Requests.{docs_of_line, docs_of_request, quits, is_quit}, Sessions.{IsAnswered}, Transcripts.{with_newline}, Desks.{HasItsView, KeepsDocs, Answers, Replies, GoesOn, IsLeftOff, moment_at}, Inside.{AnswersWith, ComesOf, Counts}};

use crate::asking::{Query, ask};
use crate::committing::commit;
use crate::desk::Desk;
use crate::judging::rule;
use crate::means::Means;
use crate::pinning::{hello, pin};
use crate::refusals::line_reply;
use crate::room::{Room, ended, print};
use crate::step::Step;
use graph_nodes::Steps;
use nav_io::Gate;
use nav_proto::{Reply, Request, print_reply, read_request};
use std::alloc::{AllocError, Global};
use std::sync::ledger::Ledger;
use std::thread::Threads;
use version_board::Commits;
use version_tree::Edit;

/// The reply to one line of a session, at the board of its seat.
///
/// The reply is the first of these: `bad_json` or `bad_request`; `ok` to `quit`; `no_user`, unless the line is `hello`;
/// `forbidden`, for a change by another user than `operator`; `bad_file`, for the first document of a commit that has a
/// fault; the board's refusal of the change, or the number of the version that it makes; the number of the version
/// that `hello` and `pin` pin; what a query finds among the files that the user may see of the pinned version.
///
/// The one error is want of memory: then no entry of the line is in the log, and the desk isn't meant to be used again.
/// The memory of the reply to a change is taken before it is committed, with its newline, so that no entry is left without
/// its reply for want of memory.
///
/// A view that the desk keeps is that of the version which the board pins; `Desk::forget_view` makes it so where the pin
/// was moved otherwise than by a line.
///
/// A commit's documents are indexed, unless the desk keeps them, and are kept; after an accepted one the oldest go until
/// all cost at most what the desk keeps. Each walk that is made counts a step. The first query after `hello`, `pin` or a
/// change looks at all files of the version once, the others only where their runs go.
#[tactic(auto, using(crate::proofs::Kept::adds_none))]
pub fn answer_line<R: Threads + Sync, B: Commits<R>, G: Gate + Sync, L: Ledger>(
    means: &Means<'_, R, G>,
    desk: &mut Desk,
    board: &mut B,
    line: &[u8],
    steps: &mut Steps<L>,
) -> Result<Step, AllocError>
    requires view { HasItsView desk.old (B.log board.old) (B.pin_at board.old) }

    // The reply, and the log.
    ensures goes_on { GoesOn (moment_at B.Pins board.old desk.old)
        (moment_at B.Pins board.new desk.new) }
    ensures reply { IfOk result (λ step. Answers line.now (moment_at B.Pins board.old desk.old)
        (moment_at B.Pins board.new desk.new) step.reply) }
    ensures quit { IfOk result (λ step. step.quit ≡ is_quit line.now) }
    ensures none { OnErr result (IsLeftOff (moment_at B.Pins board.old desk.old)
        (moment_at B.Pins board.new desk.new)) }

    // The steps.
    ensures steps { (total : ℕ)
        → AreDocWeights (missing (docs_of desk.old.store) (docs_of_line line.now)) total
        → steps.new ≤ steps.old + total }
    ensures no_steps { OnOk result (docs_of_line line.now ≡ [] → steps.new ≡ steps.old) }
{
    let room = Room::new(means.alloc)?;
    match read_request(means.alloc, line) {
        Ok(request) => answer_request(means, desk, board, request, room, steps),
        Err(fault) => refuse(means.alloc, line_reply(fault)?),
    }
}

/// What a line that is no request is answered with, by the reply to it.
fn refuse(alloc: Global, reply: Reply) -> Result<Step, AllocError>
    ensures reply { IfOk result (λ step. step.reply ≡ with_newline (reply_text reply)) }
    ensures quit { IfOk result (λ step. step.quit ≡ false) }
{
    Ok(Step {
        reply: ended(print_reply(alloc, &reply)?)?,
        quit: false,
    })
}

/// What a request is answered with, where room is taken for the reply to an accepted change.
#[tactic(auto, using(crate::proofs::Kept::kept_adds))]
fn answer_request<R: Threads + Sync, B: Commits<R>, G: Gate + Sync, L: Ledger>(
    means: &Means<'_, R, G>,
    desk: &mut Desk,
    board: &mut B,
    request: Request,
    room: Room,
    steps: &mut Steps<L>,
) -> Result<Step, AllocError>
    requires view { HasItsView desk.old (B.log board.old) (B.pin_at board.old) }
    ensures answers { ComesOf result (λ old new step. AnswersWith request old new step.reply)
        (moment_at B.Pins board.old desk.old) (moment_at B.Pins board.new desk.new) }
    ensures quit { IfOk result (λ step. step.quit ≡ quits request) }
    ensures steps { Counts result (docs_of_request request) desk.old.store steps.old steps.new }
{
    let quit = quits(&request);
    let reply = reply_to(means, desk, board, request, steps)?;
    Ok(Step {
        reply: print(means.alloc, room, &reply)?,
        quit,
    })
}

/// Whether the request ends the session.
fn quits(request: &Request) -> bool
    ensures { result ≡ quits request.now }
{
    matches!(request, Request::Quit)
}

/// The reply to a request of a session, at the board of its seat: what `answer_line` says of a line that is that request.
///
/// The one error is want of memory: then no entry of the request is in the log, and the desk isn't meant to be used again.
#[tactic(auto, using(crate::proofs::Kept::adds_none))]
pub fn reply_to<R: Threads + Sync, B: Commits<R>, G: Gate + Sync, L: Ledger>(
    means: &Means<'_, R, G>,
    desk: &mut Desk,
    board: &mut B,
    request: Request,
    steps: &mut Steps<L>,
) -> Result<Reply, AllocError>
    requires view { HasItsView desk.old (B.log board.old) (B.pin_at board.old) }
    ensures goes_on { GoesOn (moment_at B.Pins board.old desk.old)
        (moment_at B.Pins board.new desk.new) }
    ensures reply { IfOk result (Replies
        (λ log before reply after. IsAnswered (B.seat board.old) log before request reply after)
        (moment_at B.Pins board.old desk.old) (moment_at B.Pins board.new desk.new)) }
    ensures none { OnErr result (IsLeftOff (moment_at B.Pins board.old desk.old)
        (moment_at B.Pins board.new desk.new)) }
    ensures store { IfOk result (λ reply. KeepsDocs desk.old.keeps request reply
        desk.old.store desk.new.store) }
    ensures steps { (total : ℕ)
        → AreDocWeights (missing (docs_of desk.old.store) (docs_of_request request)) total
        → steps.new ≤ steps.old + total }
    ensures no_steps { OnOk result (docs_of_request request ≡ [] → steps.new ≡ steps.old) }
{
    match request {
        Request::Quit => Ok(Reply::Done),
        Request::Hello { user } => Ok(hello(desk, board, user)),
        Request::Pin => Ok(pin(desk, board)),
        Request::Commit { base, edits } => commit(means, desk, board, base, edits, steps),
        Request::Grant { user, prefix } => rule(means, desk, board, Edit::Grant { user, prefix }),
        Request::Revoke { user, prefix } => rule(means, desk, board, Edit::Revoke { user, prefix }),
        Request::Deny { user, prefix } => rule(means, desk, board, Edit::Deny { user, prefix }),
        Request::Undeny { user, prefix } => rule(means, desk, board, Edit::Undeny { user, prefix }),
        Request::Define { path, at, bounds } => {
            ask(means, desk, board, &path, at, Query::Define(bounds))
        }
        Request::References { path, at, bounds } => {
            ask(means, desk, board, &path, at, Query::References(bounds))
        }
        Request::Callers { path, at } => ask(means, desk, board, &path, at, Query::Callers),
    }
}
