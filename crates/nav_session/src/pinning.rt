ghost use Rattle.std.specs.Prelude.{◌≡◌, ℕ, List, length, Some, None};
ghost use Rattle.version_board.specs.Logs.{own};
ghost use Rattle.nav_session.specs.{Sessions.{IfNamed}, Desks.{Replies, GoesOn, HasItsView, moment_at, session_at}};
ghost use Rattle.nav_session.specs.Sessions as sessions;

use crate::desk::Desk;
use nav_proto::{PlainError, Reply};
use version_board::Pins;
use version_tree::UserText;

/// The reply to `hello`: the user is named, and the newest version is pinned. It takes no memory.
pub fn hello<B: Pins>(desk: &mut Desk, board: &mut B, user: UserText) -> Reply
    ensures goes_on { GoesOn (moment_at B.Pins board.old desk.old)
        (moment_at B.Pins board.new desk.new) }
    ensures reply { Replies (λ log before reply after. sessions.Pins
        (B.seat board.old) log before.seen user reply after) (moment_at B.Pins board.old desk.old)
        (moment_at B.Pins board.new desk.new) result }
    ensures store { desk.new.store ≡ desk.old.store }
{
    desk.name(user);
    pinned_anew(desk, board)
}

/// The reply to `pin`: the newest version is pinned, where a user is named. It takes no memory.
#[tactic(auto, using(crate::proofs::Asked::named_by, crate::proofs::Asked::unnamed))]
pub fn pin<B: Pins>(desk: &mut Desk, board: &mut B) -> Reply
    requires view { HasItsView desk.old (B.log board.old) (B.pin_at board.old) }
    ensures goes_on { GoesOn (moment_at B.Pins board.old desk.old)
        (moment_at B.Pins board.new desk.new) }
    ensures reply { Replies (λ log before reply after. IfNamed before reply after
        (λ asker. sessions.Pins (B.seat board.old) log before.seen asker.user reply after))
        (moment_at B.Pins board.old desk.old) (moment_at B.Pins board.new desk.new) result }
    ensures store { desk.new.store ≡ desk.old.store }
{
    if desk.has_user() {
        pinned_anew(desk, board)
    } else {
        Reply::Plain(PlainError::NoUser)
    }
}

/// Pins the newest version; the reply tells its number.
#[tactic(auto, using(crate::proofs::Seen::pinned_newest))]
fn pinned_anew<B: Pins>(desk: &mut Desk, board: &mut B) -> Reply
    ensures goes_on { GoesOn (moment_at B.Pins board.old desk.old)
        (moment_at B.Pins board.new desk.new) }
    ensures pins { (user : List ℕ) → desk.old.user ≡ Some user
        → sessions.Pins (B.seat board.old) (B.log board.new) (length (B.log board.old)) user result
        (session_at (length (B.log board.new)) (B.pin_at board.new) desk.new.user) }
    ensures no_entry { own (B.seat board.old) (B.log board.new)
        ≡ own (B.seat board.old) (B.log board.old) }
    ensures desk { desk.new ≡ record desk.old { view = None } }
{
    desk.forget_view();
    board.pin();
    Reply::Version(board.pinned().version.number())
}
