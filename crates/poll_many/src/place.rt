//! A place for one session at a time: a seat with its desk, or a session that has both.
ghost use Rattle.std.specs.Prelude.{◌≡◌, ◌≢◌, ◌≤◌, ◌==◌, true, Some, None, IsTrue, if◌then◌else◌};
ghost use Rattle.futures.specs.{Poll.{IfReady, OnPending}, Task.{Keeps}};
ghost use Rattle.nav_io.specs.{Faults.{HasRisen}, Told.{HasOut}};
ghost use Rattle.nav_session.specs.Serving.{ends_session};
ghost use Rattle.nav_poll.specs.{Links.{NoneFell}, Polling.{KeepsStarts, WaitsForLink, seen}};
ghost use Rattle.poll_many.specs.{Connections.{outside}, Waiting.{WaitsAt}, Places.{IsOpen, IsStanding, BeginsWith, TakesLink, TakesTurn, is_busy}};

use crate::port::{Arrived, Port};
use futures::Future;
use futures::task::{Context, Poll};
use graph_nodes::Steps;
use nav_io::{Failed, Unguarded};
use nav_poll::{Link, NotStarted, Polled};
use nav_session::Desk;
use std::alloc::Global;
use std::mem;
use std::snapshot::Snapshot;
use std::sync::ledger::Ledger;
use std::thread::Threads;
use version_board::{Commits, Pins};

/// The status of a session that was refused memory.
pub(crate) const NO_MEMORY: u8 = 5;

/// An open session, with its link as it was given out and its seat as it was then. The two copies exist in the proofs
/// alone.
#[derive(Drop)]
pub struct Open<B: Pins, K> {
    pub(crate) given: Snapshot<K>,
    pub(crate) before: Snapshot<B>,
    pub(crate) polled: Polled<B, K>,
}

/// A place for one session at a time.
#[derive(Drop)]
pub enum Place<B: Pins, K> {
    /// A seat that no session has, with its desk.
    Free(Desk, B),
    /// A session, which has the seat.
    Busy(Open<B, K>),
    /// A seat that serves no more, since a session of it was refused memory.
    Lost(B),
    /// Nothing, while what stood there is at work.
    Away,
}

/// What came of asking for a link for a place.
#[derive(Clone, Copy, Debug, PartialEq, Eq)]
pub(crate) enum Asked {
    /// None was asked for, since the place isn't free.
    Unasked,
    /// A link was given out.
    Given,
    /// No link is there yet.
    NotYet,
    /// The port failed.
    Failed,
}

/// What came of a place's turn.
#[derive(Clone, Copy, Debug, PartialEq, Eq)]
pub(crate) enum Turn {
    /// Its session has to wait, or it has none.
    Waits,
    /// Its session ended.
    Ended,
}

/// Asks the port for a link where the place is free, and begins a session with it. Where memory for the session is
/// refused, the link goes back and the seat is lost.
pub(crate) fn take_link<B: Pins + Drop, P: Port>(
    alloc: Global,
    place: &mut Place<B, P::K>,
    port: &mut P,
) -> Asked
where
    P::K: Drop,
    requires standing { IsStanding (outside P.Port P.K.Link B.Pins) place.old }
    ensures takes { TakesLink (outside P.Port P.K.Link B.Pins)
        place.old place.new port.old port.new result }
    ensures failed { result ≡ Asked.Failed → HasRisen (P.faults port.old) (P.faults port.new) }
    ensures same { result ≢ Asked.Given → place.new ≡ place.old }
    ensures count { P.faults port.old ≤ P.faults port.new }
    ensures unsettled { P.settles port.new ≡ P.settles port.old }
{
    match mem::replace(place, Place::Away) {
        Place::Free(desk, board) => ask_port(alloc, place, port, desk, board),
        other => {
            put(place, other);
            Asked::Unasked
        }
    }
}

/// Asks the port for a link for this seat, whose place is empty.
fn ask_port<B: Pins + Drop, P: Port>(
    alloc: Global,
    place: &mut Place<B, P::K>,
    port: &mut P,
    desk: Desk,
    board: B,
) -> Asked
where
    P::K: Drop,
    requires empty { place.old ≡ Place.Away }
    ensures takes { TakesLink (outside P.Port P.K.Link B.Pins)
        (Place.Free desk board) place.new port.old port.new result }
    ensures failed { result ≡ Asked.Failed → HasRisen (P.faults port.old) (P.faults port.new) }
    ensures same { result ≢ Asked.Given → place.new ≡ Place.Free desk board }
    ensures count { P.faults port.old ≤ P.faults port.new }
    ensures unsettled { P.settles port.new ≡ P.settles port.old }
{
    match port.accept() {
        Ok(Arrived::Link(link)) => {
            begin(alloc, place, port, desk, board, link);
            Asked::Given
        }
        Ok(Arrived::NotYet) => {
            put(place, Place::Free(desk, board));
            Asked::NotYet
        }
        Err(Failed) => {
            put(place, Place::Free(desk, board));
            Asked::Failed
        }
    }
}

/// Begins a session with the link, or gives it back and loses the seat.
fn begin<B: Pins + Drop, P: Port>(
    alloc: Global,
    place: &mut Place<B, P::K>,
    port: &mut P,
    desk: Desk,
    board: B,
    link: P::K,
)
where
    P::K: Drop,
    requires empty { place.old ≡ Place.Away }
    requires out { HasOut (P.gave port.old) (P.got_back port.old) 1 }
    ensures begins { BeginsWith (outside P.Port P.K.Link B.Pins)
        board link place.new port.old port.new }
    ensures count { P.faults port.old ≤ P.faults port.new }
    ensures unsettled { P.settles port.new ≡ P.settles port.old }
{
    let given = Snapshot::of(&link);
    let before = Snapshot::of(&board);
    match Polled::start(alloc, desk, board, link) {
        Ok(polled) => {
            let session = Open {
                given,
                before,
                polled,
            };
            put(place, Place::Busy(session));
        }
        Err(parts) => {
            let NotStarted { desk, board, link } = parts;
            port.done(link);
            let_go(desk);
            put(place, Place::Lost(board));
        }
    }
}

/// Puts this at the place, where nothing stands, so that nothing is dropped.
pub(crate) fn put<B: Pins + Drop, K: Drop>(place: &mut Place<B, K>, what: Place<B, K>)
    requires empty { place.old ≡ Place.Away }
    ensures { place.new ≡ what }
{
    mem::forget(mem::replace(place, what));
}

/// Drops a desk. It is a function of its own since the drop of each of its parts is proved anew wherever one is dropped.
pub(crate) fn let_go(_desk: Desk) {}

/// Polls the session of the place, if it has one. One that ends gives its link back, and its seat is free again, or lost
/// where the session was refused memory.
pub(crate) fn take_turn<R: Threads + Sync, B: Commits<R> + Drop, P: Port, L: Ledger>(
    rt: &R,
    cx: &mut Context<'_>,
    place: &mut Place<B, P::K>,
    port: &mut P,
    steps: &mut Steps<L>,
) -> Turn
where
    P::K: Drop,
    requires standing { IsStanding (outside P.Port P.K.Link B.Pins) place.old }
    requires out { is_busy place.old ≡ true → HasOut (P.gave port.old) (P.got_back port.old) 1 }
    ensures takes { TakesTurn (outside P.Port P.K.Link B.Pins)
        place.old place.new port.old port.new result }
    ensures waits { result ≡ Turn.Waits → WaitsAt P.K.counts place.old place.new }
    ensures count { P.faults port.old ≤ P.faults port.new }
    ensures unsettled { P.settles port.new ≡ P.settles port.old }
    ensures kept { Keeps cx.old cx.new }
{
    match mem::replace(place, Place::Away) {
        Place::Busy(session) => poll_open(rt, cx, place, port, session, steps),
        other => {
            put(place, other);
            Turn::Waits
        }
    }
}

/// Polls the session, whose place is empty.
fn poll_open<R: Threads + Sync, B: Commits<R> + Drop, P: Port, L: Ledger>(
    rt: &R,
    cx: &mut Context<'_>,
    place: &mut Place<B, P::K>,
    port: &mut P,
    session: Open<B, P::K>,
    steps: &mut Steps<L>,
) -> Turn
where
    P::K: Drop,
    requires standing { IsOpen (outside P.Port P.K.Link B.Pins) session }
    requires empty { place.old ≡ Place.Away }
    requires out { HasOut (P.gave port.old) (P.got_back port.old) 1 }
    ensures takes { TakesTurn (outside P.Port P.K.Link B.Pins)
        (Place.Busy session) place.new port.old port.new result }
    ensures waits { result ≡ Turn.Waits → WaitsAt P.K.counts (Place.Busy session) place.new }
    ensures count { P.faults port.old ≤ P.faults port.new }
    ensures unsettled { P.settles port.new ≡ P.settles port.old }
    ensures kept { Keeps cx.old cx.new }
{
    let Open {
        given,
        before,
        mut polled,
    } = session;
    match poll_once(rt, cx, &mut polled, steps) {
        Poll::Pending => {
            let session = Open {
                given,
                before,
                polled,
            };
            put(place, Place::Busy(session));
            Turn::Waits
        }
        Poll::Ready(status) => {
            let (desk, board, link) = polled.close();
            port.done(link);
            put(place, rest_of(desk, board, status));
            Turn::Ended
        }
    }
}

/// What stands at a place whose session ended with the status.
fn rest_of<B: Pins + Drop, K>(desk: Desk, board: B, status: u8) -> Place<B, K>
    ensures { result ≡ if status == 5 then Place.Lost board else Place.Free desk board }
{
    if status == NO_MEMORY {
        let_go(desk);
        return Place::Lost(board);
    }
    Place::Free(desk, board)
}

/// Polls the session once.
fn poll_once<R: Threads + Sync, B: Commits<R>, K: Link, L: Ledger>(
    rt: &R,
    cx: &mut Context<'_>,
    polled: &mut Polled<B, K>,
    steps: &mut Steps<L>,
) -> Poll<u8>
    ensures stands { KeepsStarts (seen B.seat B.log B.pin_at K.left K.held polled.old)
        (seen B.seat B.log B.pin_at K.left K.held polled.new) }
    ensures seat { B.seat polled.new.board ≡ B.seat polled.old.board }
    ensures pending { OnPending result ((polled.new.ended ≡ None)
        × WaitsForLink (K.counts polled.old.link) (K.counts polled.new.link)
        (seen B.seat B.log B.pin_at K.left K.held polled.new)) }
    ensures ready { IfReady result (λ status. polled.new.ended ≡ Some status) }
    ensures statuses { IfReady result (λ status. polled.old.ended ≡ None
        → IsTrue (ends_session status)) }
    ensures read_failed { result ≡ Poll.Ready 3 → polled.old.ended ≡ None
        → HasRisen (K.counts polled.old.link).read_faults (K.counts polled.new.link).read_faults }
    ensures write_failed { result ≡ Poll.Ready 4 → polled.old.ended ≡ None
        → HasRisen (K.counts polled.old.link).write_faults (K.counts polled.new.link).write_faults }
    ensures counts { NoneFell (K.counts polled.old.link) (K.counts polled.new.link) }
    ensures kept { Keeps cx.old cx.new }
{
    let mut driven = polled.with(rt, &Unguarded, steps);
    driven.poll(cx)
}
