//! Open sessions broken off: each gives its link back, and its seat is free.
ghost use Rattle.std.specs.Prelude.{◌≡◌, ◌<◌, ◌≤◌, ◌+◌, true, false, length};
ghost use Rattle.nav_io.specs.Told.{HasOut};
ghost use Rattle.poll_many.specs.{Connections.{outside}, Places.{IsStanding, Closes, is_busy}, Rounds.{IsUnderWay, NoneBusy, RestBefore}};

use crate::call::Call;
use crate::place::{Open, Place, put};
use crate::port::Port;
use std::mem;
use version_board::Pins;

/// Breaks the session of the place off, if it has one: its link goes back, and its seat is free.
fn close_place<B: Pins + Drop, P: Port>(place: &mut Place<B, P::K>, port: &mut P)
where
    P::K: Drop,
    requires standing { IsStanding (outside P.Port P.K.Link B.Pins) place.old }
    requires out { is_busy place.old ≡ true → HasOut (P.gave port.old) (P.got_back port.old) 1 }
    ensures closes { Closes (outside P.Port P.K.Link B.Pins) place.old place.new port.old port.new }
    ensures rests { is_busy place.new ≡ false }
    ensures count { P.faults port.old ≤ P.faults port.new }
    ensures unsettled { P.settles port.new ≡ P.settles port.old }
{
    match mem::replace(place, Place::Away) {
        Place::Busy(session) => {
            let Open { polled, .. } = session;
            let (desk, board, link) = polled.close();
            port.done(link);
            put(place, Place::Free(desk, board));
        }
        other => put(place, other),
    }
}

/// Breaks the session at the n-th place off, if one is there.
fn close_at<B: Pins + Drop, P: Port>(
    call: &Call<P, B>,
    places: &mut [Place<B, P::K>],
    n: usize,
    port: &mut P,
    wanted: u32,
)
where
    P::K: Drop,
    requires inside { n < length places.old }
    requires under_way { IsUnderWay (outside P.Port P.K.Link B.Pins)
        call.now n wanted port.old places.old }
    requires before { RestBefore n places.old }
    ensures under_way { IsUnderWay (outside P.Port P.K.Link B.Pins)
        call.now (n + 1) wanted port.new places.new }
    ensures before { RestBefore (n + 1) places.new }
    ensures len { length places.new ≡ length places.old }
    ensures count { P.faults port.old ≤ P.faults port.new }
    ensures unsettled { P.settles port.new ≡ P.settles port.old }
{
    let _ = wanted;
    close_place(&mut places[n], port);
}

/// Breaks all open sessions off.
pub(crate) fn close_all<B: Pins + Drop, P: Port>(
    call: &Call<P, B>,
    places: &mut [Place<B, P::K>],
    port: &mut P,
    wanted: u32,
)
where
    P::K: Drop,
    requires under_way { IsUnderWay (outside P.Port P.K.Link B.Pins)
        call.now 0 wanted port.old places.old }
    ensures under_way { IsUnderWay (outside P.Port P.K.Link B.Pins)
        call.now (length places.new) wanted port.new places.new }
    ensures rest { NoneBusy places.new }
    ensures len { length places.new ≡ length places.old }
    ensures count { P.faults port.old ≤ P.faults port.new }
    ensures unsettled { P.settles port.new ≡ P.settles port.old }
{
    for n in 0..places.len() {
        close_at(call, places, n, port, wanted);
    }
}
