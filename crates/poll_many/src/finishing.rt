//! The rounds of many sessions from the first to the last, and the status that they end with.
ghost use Rattle.std.specs.{Prelude.{◌≡◌, ◌<◌, length, vec_len, if◌then◌else◌}, List.{list_any}};
ghost use Rattle.futures.specs.Task.{Keeps};
ghost use Rattle.poll_many.specs.{Connections.{outside}, Settling.{SettlesBehindRounds}, Places.{is_lost}, Rounds.{IsUnderWay, AreFinished, AreNamed, ServesAll}};

use crate::call::{Call, Means};
use crate::closing::close_all;
use crate::place::{NO_MEMORY, Place};
use crate::port::Port;
use crate::rounds::go_on;
use crate::seating::{places_of, take_apart};
use futures::task::Context;
use graph_nodes::Steps;
use std::alloc::Global;
use std::snapshot::Snapshot;
use std::sync::Wait;
use std::sync::ledger::Ledger;
use std::thread::Threads;
use version_board::{Commits, Pins};

/// So many links were served.
const SERVED: u8 = 0;

/// The port failed.
pub(crate) const PORT_FAILED: u8 = 8;

/// Serves so many links of the port for these seats, at least one, in the order of their names from 0, and gives the
/// status. Where memory for their places is refused, no link is asked for.
pub(crate) fn serve_all<R: Threads + Wait + Sync, B: Commits<R> + Drop, P: Port, L: Ledger>(
    rt: &R,
    alloc: Global,
    cx: &mut Context<'_>,
    port: &mut P,
    seats: &mut Vec<B>,
    connections: u32,
    steps: &mut Steps<L>,
) -> u8
where
    P::K: Drop,
    requires some { 0 < vec_len seats.old }
    requires names { AreNamed B.seat seats.old.items }
    ensures served { ServesAll (outside P.Port P.K.Link B.Pins)
        connections port.old port.new seats.old.items seats.new.items result }
    ensures settled { SettlesBehindRounds (outside P.Port P.K.Link B.Pins) port.old port.new }
    ensures kept { Keeps cx.old cx.new }
{
    let call = Call {
        port: Snapshot::of(&*port),
        seats: Snapshot::of(&*seats),
        most: connections,
    };
    let Ok(mut places) = places_of(alloc, seats) else {
        return NO_MEMORY;
    };
    let means = Means {
        rt,
        alloc,
        call: &call,
    };
    let status = serve_places(&means, cx, places.as_mut_slice(), port, steps);
    take_apart(places, seats);
    status
}

/// Serves the links for the seats at these places, all of which are free.
fn serve_places<R: Threads + Wait + Sync, B: Commits<R> + Drop, P: Port, L: Ledger>(
    means: &Means<'_, R, P, B>,
    cx: &mut Context<'_>,
    places: &mut [Place<B, P::K>],
    port: &mut P,
    steps: &mut Steps<L>,
) -> u8
where
    P::K: Drop,
    requires some { 0 < length places.old }
    requires at_first { means.now.call.now.port.value ≡ port.old }
    requires under_way { IsUnderWay (outside P.Port P.K.Link B.Pins)
        means.now.call.now 0 means.now.call.now.most port.old places.old }
    ensures finished { AreFinished (outside P.Port P.K.Link B.Pins)
        means.now.call.now port.new places.new result }
    ensures len { length places.new ≡ length places.old }
    ensures settled { SettlesBehindRounds (outside P.Port P.K.Link B.Pins)
        means.now.call.now.port.value port.new }
    ensures kept { Keeps cx.old cx.new }
{
    let mut wanted = means.call.most;
    match go_on(means, cx, places, port, &mut wanted, steps) {
        Ok(()) => status_of(any_lost(places), SERVED),
        Err(_) => {
            close_all(means.call, places, port, wanted);
            status_of(any_lost(places), PORT_FAILED)
        }
    }
}

/// Whether a seat is lost.
fn any_lost<B: Pins + Drop, K: Drop>(places: &[Place<B, K>]) -> bool
    ensures { result ≡ list_any is_lost places.now }
{
    places.iter().any(|place| is_lost(place))
}

/// Whether a lost seat is there.
fn is_lost<B: Pins + Drop, K: Drop>(place: &Place<B, K>) -> bool
    ensures { result ≡ is_lost place.now }
{
    matches!(place, Place::Lost(_))
}

/// The status: 5 where a seat is lost, else this one.
fn status_of(is_lost: bool, status: u8) -> u8
    ensures { result ≡ if is_lost then 5 else status }
{
    if is_lost {
        return NO_MEMORY;
    }
    status
}
