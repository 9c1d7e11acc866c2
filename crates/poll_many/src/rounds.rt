//! The rounds in which many sessions are served: links are taken for free seats, then each open session is polled once.
ghost use Rattle.std.specs.{Prelude.{◌≡◌, ◌≢◌, ◌≤◌, ◌<◌, ◌||◌, not, true, false, length, Ok, OnOk, OnErr}, List.{list_any}};
ghost use Rattle.futures.specs.Task.{Keeps};
ghost use Rattle.nav_io.specs.Faults.{HasRisen, counted};
ghost use Rattle.poll_many.specs.{Connections.{outside}, Places.{is_busy, is_free}, Waiting.{GaveNone, OneMoreWaits, AllHaveWaited, SettlesOn}, Rounds.{IsUnderWay, GoesRound, AreOver, still_wanted}};

use crate::call::{Call, Means};
use crate::place::{Asked, Place, Turn, take_link, take_turn};
use crate::port::Port;
use futures::task::Context;
use graph_nodes::Steps;
use nav_io::Failed;
use std::alloc::Global;
use std::sync::Wait;
use std::sync::ledger::Ledger;
use std::thread::Threads;
use version_board::{Commits, Pins};

/// Asks the port for a link for the n-th place, if that is free.
fn take_link_at<B: Pins + Drop, P: Port>(
    alloc: Global,
    call: &Call<P, B>,
    places: &mut [Place<B, P::K>],
    n: usize,
    port: &mut P,
    wanted: &mut u32,
) -> Asked
where
    P::K: Drop,
    requires inside { n < length places.old }
    requires some { 0 < wanted.old }
    requires under_way { IsUnderWay (outside P.Port P.K.Link B.Pins)
        call.now 0 wanted.old port.old places.old }
    ensures goes { GoesRound (outside P.Port P.K.Link B.Pins)
        call.now wanted.new port.old port.new places.old places.new }
    ensures failed { result ≡ Asked.Failed → HasRisen (P.faults port.old) (P.faults port.new) }
    ensures none { result ≢ Asked.Given
        → GaveNone (outside P.Port P.K.Link B.Pins) port.old port.new places.old places.new }
    ensures unsettled { P.settles port.new ≡ P.settles port.old }
{
    let asked = take_link(alloc, &mut places[n], port);
    *wanted = still_wanted(*wanted, asked);
    asked
}

/// How many links are wanted still, after one was asked for.
fn still_wanted(wanted: u32, asked: Asked) -> u32
    requires { 0 < wanted }
    ensures { result ≡ still_wanted asked wanted }
{
    match asked {
        Asked::Given => wanted - 1,
        _ => wanted,
    }
}

/// Takes links for the free seats, in their order, while links are wanted and until none is there. True where one was
/// given out.
fn take_links<B: Pins + Drop, P: Port>(
    alloc: Global,
    call: &Call<P, B>,
    places: &mut [Place<B, P::K>],
    port: &mut P,
    wanted: &mut u32,
) -> Result<bool, Failed>
where
    P::K: Drop,
    requires under_way { IsUnderWay (outside P.Port P.K.Link B.Pins)
        call.now 0 wanted.old port.old places.old }
    ensures goes { GoesRound (outside P.Port P.K.Link B.Pins)
        call.now wanted.new port.old port.new places.old places.new }
    ensures failed { OnErr result (HasRisen (P.faults port.old) (P.faults port.new)) }
    ensures none { result ≡ Ok false
        → GaveNone (outside P.Port P.K.Link B.Pins) port.old port.new places.old places.new }
    ensures unsettled { P.settles port.new ≡ P.settles port.old }
{
    let mut any = false;
    for n in 0..places.len() {
        if *wanted == 0 {
            return Ok(any);
        }
        match take_link_at(alloc, call, places, n, port, wanted) {
            Asked::Unasked => {}
            Asked::Given => any = true,
            Asked::NotYet => return Ok(any),
            Asked::Failed => return Err(Failed),
        }
    }
    Ok(any)
}

/// Polls the session at the n-th place, if one is there.
fn take_turn_at<R: Threads + Sync, B: Commits<R> + Drop, P: Port, L: Ledger>(
    means: &Means<'_, R, P, B>,
    cx: &mut Context<'_>,
    places: &mut [Place<B, P::K>],
    n: usize,
    port: &mut P,
    wanted: u32,
    steps: &mut Steps<L>,
) -> Turn
where
    P::K: Drop,
    requires inside { n < length places.old }
    requires under_way { IsUnderWay (outside P.Port P.K.Link B.Pins)
        means.now.call.now 0 wanted port.old places.old }
    ensures goes { GoesRound (outside P.Port P.K.Link B.Pins)
        means.now.call.now wanted port.old port.new places.old places.new }
    ensures waits { result ≡ Turn.Waits
        → OneMoreWaits (outside P.Port P.K.Link B.Pins) n port.old port.new places.old places.new }
    ensures unsettled { P.settles port.new ≡ P.settles port.old }
    ensures kept { Keeps cx.old cx.new }
{
    let _ = wanted;
    take_turn(means.rt, cx, &mut places[n], port, steps)
}

/// Polls each open session once, in the order of the seats. True where one ended.
fn take_turns<R: Threads + Sync, B: Commits<R> + Drop, P: Port, L: Ledger>(
    means: &Means<'_, R, P, B>,
    cx: &mut Context<'_>,
    places: &mut [Place<B, P::K>],
    port: &mut P,
    wanted: u32,
    steps: &mut Steps<L>,
) -> bool
where
    P::K: Drop,
    requires under_way { IsUnderWay (outside P.Port P.K.Link B.Pins)
        means.now.call.now 0 wanted port.old places.old }
    ensures goes { GoesRound (outside P.Port P.K.Link B.Pins)
        means.now.call.now wanted port.old port.new places.old places.new }
    ensures waits { result ≡ false
        → AllHaveWaited (outside P.Port P.K.Link B.Pins) port.old port.new places.old places.new }
    ensures unsettled { P.settles port.new ≡ P.settles port.old }
    ensures kept { Keeps cx.old cx.new }
{
    let mut any = false;
    for n in 0..places.len() {
        let turn = take_turn_at(means, cx, places, n, port, wanted, steps);
        any = has_ended(any, turn);
    }
    any
}

/// Whether a session had ended, or ends in this turn.
fn has_ended(any: bool, turn: Turn) -> bool
    ensures none { result ≡ false → any ≡ false }
    ensures waits { result ≡ false → turn ≡ Turn.Waits }
{
    any || turn == Turn::Ended
}

/// Whether a round came to nothing: no link was given out, and every poll was pending.
fn is_quiet(given: bool, ended: bool) -> bool
    ensures { result ≡ not (given || ended) }
{
    !given && !ended
}

/// One round. True where it came to nothing.
fn go_round<R: Threads + Sync, B: Commits<R> + Drop, P: Port, L: Ledger>(
    means: &Means<'_, R, P, B>,
    cx: &mut Context<'_>,
    places: &mut [Place<B, P::K>],
    port: &mut P,
    wanted: &mut u32,
    steps: &mut Steps<L>,
) -> Result<bool, Failed>
where
    P::K: Drop,
    requires under_way { IsUnderWay (outside P.Port P.K.Link B.Pins)
        means.now.call.now 0 wanted.old port.old places.old }
    ensures goes { GoesRound (outside P.Port P.K.Link B.Pins)
        means.now.call.now wanted.new port.old port.new places.old places.new }
    ensures failed { OnErr result (HasRisen (P.faults port.old) (P.faults port.new)) }
    ensures quiet { result ≡ Ok true
        → AllHaveWaited (outside P.Port P.K.Link B.Pins) port.old port.new places.old places.new }
    ensures unsettled { P.settles port.new ≡ P.settles port.old }
    ensures kept { Keeps cx.old cx.new }
{
    let given = take_links(means.alloc, means.call, places, port, wanted)?;
    let ended = take_turns(means, cx, places, port, *wanted, steps);
    Ok(is_quiet(given, ended))
}

/// Waits for the port where the round came to nothing.
fn settle_if<P: Port>(port: &mut P, is_quiet: bool) -> Result<(), Failed>
    ensures given { P.gave port.new ≡ P.gave port.old }
    ensures back { P.got_back port.new ≡ P.got_back port.old }
    ensures failed { OnErr result (HasRisen (P.faults port.old) (P.faults port.new)) }
    ensures count { P.faults port.old ≤ P.faults port.new }
    ensures busy { is_quiet ≡ false → port.new ≡ port.old }
    ensures settled { is_quiet ≡ true → P.settles port.new ≡ counted (P.settles port.old) }
{
    if !is_quiet {
        return Ok(());
    }
    port.settle()
}

/// Whether the sessions are over: none is open, and no link is wanted or no seat is free.
fn are_over<B: Pins + Drop, K: Drop>(places: &[Place<B, K>], wanted: u32) -> bool
    ensures { result ≡ true → AreOver wanted places.now }
{
    !any_busy(places) && (wanted == 0 || !any_free(places))
}

/// Whether a session is open.
fn any_busy<B: Pins + Drop, K: Drop>(places: &[Place<B, K>]) -> bool
    ensures { result ≡ list_any is_busy places.now }
{
    places.iter().any(|place| is_busy(place))
}

/// Whether a seat is free.
fn any_free<B: Pins + Drop, K: Drop>(places: &[Place<B, K>]) -> bool
    ensures { result ≡ list_any is_free places.now }
{
    places.iter().any(|place| is_free(place))
}

/// Whether a session is open there.
fn is_busy<B: Pins + Drop, K: Drop>(place: &Place<B, K>) -> bool
    ensures { result ≡ is_busy place.now }
{
    matches!(place, Place::Busy(_))
}

/// Whether a free seat is there.
fn is_free<B: Pins + Drop, K: Drop>(place: &Place<B, K>) -> bool
    ensures { result ≡ is_free place.now }
{
    matches!(place, Place::Free(_, _))
}

/// Goes round until the sessions are over, or the port fails.
pub(crate) fn go_on<R: Threads + Wait + Sync, B: Commits<R> + Drop, P: Port, L: Ledger>(
    means: &Means<'_, R, P, B>,
    cx: &mut Context<'_>,
    places: &mut [Place<B, P::K>],
    port: &mut P,
    wanted: &mut u32,
    steps: &mut Steps<L>,
) -> Result<(), Failed>
where
    P::K: Drop,
    requires under_way { IsUnderWay (outside P.Port P.K.Link B.Pins)
        means.now.call.now 0 wanted.old port.old places.old }
    ensures goes { GoesRound (outside P.Port P.K.Link B.Pins)
        means.now.call.now wanted.new port.old port.new places.old places.new }
    ensures over { OnOk result (AreOver wanted.new places.new) }
    ensures failed { OnErr result (HasRisen (P.faults port.old) (P.faults port.new)) }
    ensures settled { SettlesOn (outside P.Port P.K.Link B.Pins)
        means.now.call.now.port.value port.old port.new }
    ensures kept { Keeps cx.old cx.new }
{
    for _ in means.rt.forever() {
        let is_quiet = go_round(means, cx, places, port, wanted, steps)?;
        if are_over(places, *wanted) {
            return Ok(());
        }
        settle_if(port, is_quiet)?;
    }
    unreachable!()
}
