//! One connection of a door.
ghost use Rattle.std.specs.Prelude.{◌≡◌, IfOk, OnErr};
ghost use Rattle.nav_session.specs.Serving.{standing};
ghost use Rattle.nav_doors.specs.{Connections.{outside}, Inside.{ServesNext, FailsNext}};

use graph_nodes::Steps;
use nav_io::{Door, Failed, Gate};
use nav_session::{Desk, Means, serve_session};
use std::sync::ledger::Ledger;
use std::thread::Threads;
use version_board::Commits;

/// Serves the door's next connection as a session of the seat, and gives the session's status. The
/// pair goes back however the session ended, since that closes the connection. `Failed` where the door
/// failed in place of a connection.
pub(crate) fn serve_next<R: Threads + Sync, B: Commits<R>, D: Door, G: Gate + Sync, L: Ledger>(
    means: &Means<'_, R, G>,
    desk: &mut Desk,
    door: &mut D,
    seat: &mut B,
    steps: &mut Steps<L>,
) -> Result<u8, Failed>
    ensures served { IfOk result (λ status. ServesNext
        (outside D.gave D.got_back D.faults D.S.left D.S.faults D.K.held D.K.faults)
        (B.seat seat.old) door.old door.new
        (standing (B.log seat.old) desk.old)
        (standing (B.log seat.new) desk.new) status) }
    ensures failed { OnErr result (FailsNext
        (outside D.gave D.got_back D.faults D.S.left D.S.faults D.K.held D.K.faults)
        door.old door.new
        (standing (B.log seat.old) desk.old) (standing (B.log seat.new) desk.new)) }
    ensures seat { B.seat seat.new ≡ B.seat seat.old }
{
    let (mut source, mut sink) = door.accept()?;
    let status = serve_session(means, desk, seat, &mut source, &mut sink, steps);
    door.done(source, sink);
    Ok(status)
}
