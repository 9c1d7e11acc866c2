//! One door's loop.
ghost use Rattle.std.specs.Prelude.{◌≡◌};
ghost use Rattle.nav_session.specs.Serving.{standing};
ghost use Rattle.nav_doors.specs.Connections.{outside, ServesDoor};

use crate::connecting::serve_next;
use graph_nodes::Steps;
use nav_io::{Door, Failed, Gate};
use nav_session::{Desk, Means};
use std::sync::ledger::Ledger;
use std::thread::Threads;
use version_board::Commits;

pub(crate) const ALL_SERVED: u8 = 0;

/// Memory was refused. It is the status of a session for that, which a loop passes on.
pub(crate) const NO_MEMORY: u8 = 5;

/// A door failed where it was asked for a connection.
pub const ACCEPT_FAILED: u8 = 8;

/// Serves so many connections of a door, one after the other, each as a session of the seat. All are
/// on one desk, so that a document that one of them committed is kept for the next. Each pair goes back
/// to the door when its session ended, however it did. The status:
///
/// - 0: so many connections were served. A session that ends with 3, 4, 6 or 7 ends alone.
/// - 5: a session ended for want of memory; no further connection is asked for.
/// - 8: the door failed where it was asked for a connection; its count rose.
pub fn serve_door<R: Threads + Sync, B: Commits<R>, D: Door, G: Gate + Sync, L: Ledger>(
    means: &Means<'_, R, G>,
    desk: &mut Desk,
    door: &mut D,
    seat: &mut B,
    connections: u32,
    steps: &mut Steps<L>,
) -> u8
    ensures served { ServesDoor
        (outside D.gave D.got_back D.faults D.S.left D.S.faults D.K.held D.K.faults)
        (B.seat seat.old) connections door.old door.new
        (standing (B.log seat.old) desk.old)
        (standing (B.log seat.new) desk.new) result }
    ensures seat { B.seat seat.new ≡ B.seat seat.old }
{
    for _ in 0..connections {
        match serve_next(means, desk, door, seat, steps) {
            Ok(NO_MEMORY) => return NO_MEMORY,
            Ok(_) => {}
            Err(Failed) => return ACCEPT_FAILED,
        }
    }
    ALL_SERVED
}
