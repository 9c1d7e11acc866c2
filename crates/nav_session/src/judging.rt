ghost use Rattle.std.specs.Prelude.{◌≡◌, ℕ, List, length, Some, None, true, false, IfOk, OnErr};
ghost use Rattle.version_board.specs.Logs.{own};
ghost use Rattle.nav_session.specs.{Sessions.{IsJudged, IsRuled, asker_of}, Desks.{Replies, GoesOn, HasItsView, is_accepted, is_indexed, moment_at, session_at}, Inside.{ComesOf}};

use crate::desk::Desk;
use crate::means::Means;
use crate::refusals::commit_reply;
use nav_proto::Reply;
use std::alloc::{AllocError, Global};
use version_board::Commits;
use version_tree::Edit;

/// The reply to a change of who may see what, where the user may change anything. The one error is want of memory.
#[tactic(auto, using(crate::proofs::Asked::operator_by, crate::proofs::Asked::refused_change, crate::proofs::Kept::adds_none))]
pub fn rule<R, B: Commits<R>, G>(
    means: &Means<'_, R, G>,
    desk: &mut Desk,
    board: &mut B,
    edit: Edit,
) -> Result<Reply, AllocError>
    requires view { HasItsView desk.old (B.log board.old) (B.pin_at board.old) }
    ensures rules { ComesOf result (Replies
        (λ log before reply after. IsRuled (B.seat board.old) log before edit reply after))
        (moment_at B.Pins board.old desk.old) (moment_at B.Pins board.new desk.new) }
    ensures store { desk.new.store ≡ desk.old.store }
{
    match desk.change_refusal() {
        Some(error) => Ok(Reply::Plain(error)),
        None => judge(means.rt, means.alloc, desk, board, None, &[edit]),
    }
}

/// Brings the edits before the board: the reply tells the number of the version that they make, or why they are refused.
/// The one error is want of memory.
#[tactic(auto, using(crate::proofs::Judged::accepted, crate::proofs::Seen::later_goes_on, crate::proofs::Judged::extended_moment))]
pub fn judge<R, B: Commits<R>>(
    rt: &R,
    alloc: Global,
    desk: &mut Desk,
    board: &mut B,
    base: Option<u32>,
    edits: &[Edit],
) -> Result<Reply, AllocError>
    ensures goes_on { GoesOn (moment_at B.Pins board.old desk.old)
        (moment_at B.Pins board.new desk.new) }
    ensures judged { IfOk result (λ reply. (user : List ℕ) → desk.old.user ≡ Some user
        → IsJudged (B.seat board.old) (B.log board.new) (length (B.log board.old))
        (asker_of (B.pin_at board.old) user)
        base edits.now reply (session_at (length (B.log board.new))
        (B.pin_at board.new) desk.new.user)) }
    ensures no_entry { IfOk result (λ reply. is_accepted reply ≡ false
        → own (B.seat board.old) (B.log board.new) ≡ own (B.seat board.old) (B.log board.old)) }
    ensures indexed { IfOk result (λ reply. is_indexed reply ≡ true) }
    ensures none { OnErr result (own (B.seat board.old) (B.log board.new)
        ≡ own (B.seat board.old) (B.log board.old)) }
    ensures desk { desk.new ≡ record desk.old { view = None } }
{
    desk.forget_view();
    match board.commit(rt, alloc, base, edits) {
        Ok(()) => Ok(Reply::Version(board.pinned().version.number())),
        Err(fault) => commit_reply(fault),
    }
}
