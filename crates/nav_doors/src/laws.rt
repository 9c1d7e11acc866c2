ghost use Rattle.nav_doors.specs.Connections.{outside, ConnectionsLieOnOneLog};

use nav_io::Door;

/// A law of the connections of a door: the log before one begins with what the seat had seen at first, the log after it
/// with the one before it, and the log at the end with the one after it.
pub fn connections_lie_on_one_log<D: Door>()
    ensures { ConnectionsLieOnOneLog
        (outside D.gave D.got_back D.faults D.S.left D.S.faults D.K.held D.K.faults) }
{}
