//! One poll of a session: it goes on until it has ended or its link has to wait.
ghost use Rattle.std.specs.Prelude.{◌≡◌, ◌<◌, ◌≤◌, Some, None, IfSome, IsTrue, [], true, false, length};
ghost use Rattle.futures.specs.Poll.{IfReady, OnPending};
ghost use Rattle.nav_io.specs.{Faults.{HasRisen}, Lines.{line_max, HasNoNewline}};
ghost use Rattle.nav_session.specs.{Desks.{GoesOn}, Serving.{ends_session}};
ghost use Rattle.nav_poll.specs.{Links.{NoneFell}, Polling.{KeepsStarts, HaveCaughtUp, WaitsForLink, seen}, Turns.{DoesPart, OnlyPulls, taken_up, ended_with}};

use crate::link::Link;
use crate::polled::Polled;
use crate::pulling::pull_more;
use crate::pushing::push_rest;
use crate::turning::take_line;
use crate::went::Went;
use futures::task::Poll;
use graph_nodes::Steps;
use nav_io::Gate;
use nav_session::{ANSWERED, Means, Step};
use std::sync::ledger::Ledger;
use std::thread::Threads;
use version_board::{Commits, Pins};

/// The most lines of a session.
const MAX_LINES: u32 = 1_000_000;

/// As many lines are answered as a session may have, and more input stands behind them.
const MORE_LINES: u8 = 7;

/// Goes on with a session until it has ended, and then tells its status, or until its link has to wait.
///
/// Lines are answered one after the other, and each reply is pushed whole before more is pulled. A pull takes at most
/// 16,384 bytes, so a session that is asked for whole lines faster than it answers them goes on as long as its link gives
/// some. Once it has ended each further call tells its status, and does nothing. The statuses are those of
/// `serve_session`: 3 where a pull failed, and 4 where a push did. It is the one poll of `Driven`, with any gate.
pub fn go_on<R: Threads + Sync, B: Commits<R>, K: Link, G: Gate + Sync, L: Ledger>(
    rt: &R,
    gate: &G,
    polled: &mut Polled<B, K>,
    steps: &mut Steps<L>,
) -> Poll<u8>
    ensures stands { KeepsStarts (seen B.seat B.log B.pin_at K.left K.held polled.old)
        (seen B.seat B.log B.pin_at K.left K.held polled.new) }
    ensures goes_on { GoesOn (seen B.seat B.log B.pin_at K.left K.held polled.old).now.session
        (seen B.seat B.log B.pin_at K.left K.held polled.new).now.session }
    ensures counts { NoneFell (K.counts polled.old.link) (K.counts polled.new.link) }
    ensures pending { OnPending result ((polled.new.ended ≡ None)
        × WaitsForLink (K.counts polled.old.link) (K.counts polled.new.link)
        (seen B.seat B.log B.pin_at K.left K.held polled.new)) }
    ensures ready { IfReady result (λ status. polled.new.ended ≡ Some status) }
    ensures over { IfSome polled.old.ended (λ status. (result ≡ Poll.Ready status)
        × (polled.new ≡ polled.old)) }
    ensures statuses { IfReady result (λ status. polled.old.ended ≡ None
        → IsTrue (ends_session status)) }
    ensures read_failed { result ≡ Poll.Ready 3 → polled.old.ended ≡ None
        → HasRisen (K.counts polled.old.link).read_faults (K.counts polled.new.link).read_faults }
    ensures write_failed { result ≡ Poll.Ready 4 → polled.old.ended ≡ None
        → HasRisen (K.counts polled.old.link).write_faults (K.counts polled.new.link).write_faults }
{
    loop {
        if let Some(status) = polled.ended {
            return Poll::Ready(status);
        }
        if step(rt, gate, polled, steps) == Went::Waits {
            return Poll::Pending;
        }
    }
}

// Pushes what is to be pushed, and then answers a line, pulls once or ends.
fn step<R: Threads + Sync, B: Commits<R>, K: Link, G: Gate + Sync, L: Ledger>(
    rt: &R,
    gate: &G,
    polled: &mut Polled<B, K>,
    steps: &mut Steps<L>,
) -> Went
    requires going { polled.old.ended ≡ None }
    ensures stands { KeepsStarts (seen B.seat B.log B.pin_at K.left K.held polled.old)
        (seen B.seat B.log B.pin_at K.left K.held polled.new) }
    ensures part { DoesPart B.seat B.log B.pin_at K.counts polled.old polled.new result }
    ensures waits { result ≡ Went.Waits → (polled.new.ended ≡ None)
        × WaitsForLink (K.counts polled.old.link) (K.counts polled.new.link)
        (seen B.seat B.log B.pin_at K.left K.held polled.new) }
    ensures write_failed { polled.new.ended ≡ Some 4
        → HasRisen (K.counts polled.old.link).write_faults (K.counts polled.new.link).write_faults }
{
    match push_rest(&polled.out, &mut polled.sent, &mut polled.link) {
        Ok(Went::On) => turn(rt, gate, polled, steps),
        Ok(Went::Waits) => Went::Waits,
        Err(halt) => end(polled, halt.status()),
    }
}

// Answers a line, pulls once or ends, where all is pushed.
fn turn<R: Threads + Sync, B: Commits<R>, K: Link, G: Gate + Sync, L: Ledger>(
    rt: &R,
    gate: &G,
    polled: &mut Polled<B, K>,
    steps: &mut Steps<L>,
) -> Went
    requires going { polled.old.ended ≡ None }
    requires pushed { polled.old.out ≡ [] }
    ensures stands { KeepsStarts (seen B.seat B.log B.pin_at K.left K.held polled.old)
        (seen B.seat B.log B.pin_at K.left K.held polled.new) }
    ensures part { DoesPart B.seat B.log B.pin_at K.counts polled.old polled.new result }
    ensures pulls { OnlyPulls K.counts polled.old polled.new result }
    ensures caught_up { result ≡ Went.Waits
        → HaveCaughtUp (seen B.seat B.log B.pin_at K.left K.held polled.new) }
{
    let quit = polled.quit;
    if quit {
        return end(polled, ANSWERED);
    }
    if polled.lines >= MAX_LINES {
        return look_on(polled);
    }
    let alloc = polled.alloc;
    let means = Means { rt, alloc, gate };
    match take_line(
        &means,
        &mut polled.desk,
        &mut polled.board,
        &mut polled.reader,
        &mut polled.in_front,
        steps,
    ) {
        Ok(Some(step)) => take_up(polled, step),
        Ok(None) => wait_for_line(polled),
        Err(halt) => {
            polled.desk.clear();
            end(polled, halt.status())
        }
    }
}

// Takes up the reply to a line, which is to be pushed. It takes no memory.
fn take_up<B: Pins, K: Link>(polled: &mut Polled<B, K>, step: Step) -> Went
    requires { polled.old.lines < 1000000 }
    ensures few { polled.old.lines < 1000000 }
    ensures on { result ≡ Went.On }
    ensures taken { polled.new ≡ taken_up step polled.old }
{
    let Step { reply, quit } = step;
    polled.out = reply.into_string().into_bytes();
    polled.sent = 0;
    polled.quit = quit;
    polled.lines += 1;
    Went::On
}

// Ends where a byte stands behind as many lines as a session may have, or the end of the input, and else pulls once.
fn look_on<B: Pins, K: Link>(polled: &mut Polled<B, K>) -> Went
    requires going { polled.old.ended ≡ None }
    requires pushed { polled.old.out ≡ [] }
    requires not_quit { polled.old.quit ≡ false }
    requires full { 1000000 ≤ polled.old.lines }
    ensures stands { KeepsStarts (seen B.seat B.log B.pin_at K.left K.held polled.old)
        (seen B.seat B.log B.pin_at K.left K.held polled.new) }
    ensures part { DoesPart B.seat B.log B.pin_at K.counts polled.old polled.new result }
    ensures pulls { OnlyPulls K.counts polled.old polled.new result }
    ensures caught_up { result ≡ Went.Waits
        → HaveCaughtUp (seen B.seat B.log B.pin_at K.left K.held polled.new) }
{
    let some = polled.in_front > 0;
    if some {
        return end(polled, MORE_LINES);
    }
    wait_for_line(polled)
}

// Ends at the end of the input, and else pulls once, where no line in front is whole.
fn wait_for_line<B: Pins, K: Link>(polled: &mut Polled<B, K>) -> Went
    requires going { polled.old.ended ≡ None }
    requires pushed { polled.old.out ≡ [] }
    requires not_quit { polled.old.quit ≡ false }
    requires at_end { polled.old.reader.ended ≡ true → polled.old.reader.front ≡ [] }
    requires no_newline { HasNoNewline polled.old.reader.front }
    requires short { length polled.old.reader.front ≤ line_max }
    ensures stands { KeepsStarts (seen B.seat B.log B.pin_at K.left K.held polled.old)
        (seen B.seat B.log B.pin_at K.left K.held polled.new) }
    ensures part { DoesPart B.seat B.log B.pin_at K.counts polled.old polled.new result }
    ensures pulls { OnlyPulls K.counts polled.old polled.new result }
    ensures caught_up { result ≡ Went.Waits
        → HaveCaughtUp (seen B.seat B.log B.pin_at K.left K.held polled.new) }
{
    let at_end = polled.at_end;
    if at_end {
        return end(polled, ANSWERED);
    }
    pull(polled)
}

// Pulls once, where no whole line is in front and the input hasn't ended.
fn pull<B: Pins, K: Link>(polled: &mut Polled<B, K>) -> Went
    requires going { polled.old.ended ≡ None }
    requires pushed { polled.old.out ≡ [] }
    requires not_quit { polled.old.quit ≡ false }
    requires not_ended { polled.old.reader.ended ≡ false }
    requires no_newline { HasNoNewline polled.old.reader.front }
    requires short { length polled.old.reader.front ≤ line_max }
    ensures stands { KeepsStarts (seen B.seat B.log B.pin_at K.left K.held polled.old)
        (seen B.seat B.log B.pin_at K.left K.held polled.new) }
    ensures part { DoesPart B.seat B.log B.pin_at K.counts polled.old polled.new result }
    ensures pulls { OnlyPulls K.counts polled.old polled.new result }
    ensures caught_up { result ≡ Went.Waits
        → HaveCaughtUp (seen B.seat B.log B.pin_at K.left K.held polled.new) }
{
    match pull_more(
        &mut polled.reader,
        &mut polled.in_front,
        &mut polled.at_end,
        &mut polled.link,
    ) {
        Ok(went) => went,
        Err(halt) => end(polled, halt.status()),
    }
}

// Ends the session with the status.
fn end<B: Pins, K: Link>(polled: &mut Polled<B, K>, status: u8) -> Went
    ensures on { result ≡ Went.On }
    ensures ended { polled.new ≡ ended_with status polled.old }
{
    polled.ended = Some(status);
    Went::On
}
