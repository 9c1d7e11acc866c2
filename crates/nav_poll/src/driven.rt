//! A polled session as a future.
ghost use Rattle.std.specs.{Prelude.{⊤, ◌≡◌, ℕ, Some, None, IfSome, IsTrue}, Thread.{IsSync}};
ghost use Rattle.futures.specs.{Poll.{IfReady, OnPending}, Task.{Covers, Keeps}};
ghost use Rattle.nav_io.specs.Faults.{HasRisen};
ghost use Rattle.nav_session.specs.{Desks.{GoesOn}, Serving.{ends_session}};
ghost use Rattle.nav_poll.specs.{Links.{NoneFell}, Polling.{KeepsStarts, WaitsForLink, seen}};

use crate::going::go_on;
use crate::link::Link;
use crate::polled::Polled;
use futures::Future;
use futures::task::{Context, Poll};
use graph_nodes::Steps;
use nav_io::Unguarded;
use std::sync::ledger::Ledger;
use std::thread::Threads;
use version_board::{Commits, Pins};

/// A future that goes on with a polled session and gives the status with which it ends, as `serve_session` gives it. It
/// can be polled where the gate is `Unguarded`; `go_on` does the same with every gate.
#[derive(Drop)]
pub struct Driven<'a, B: Pins, K, G, L: Ledger, R> {
    /// The session.
    pub polled: &'a mut Polled<B, K>,
    pub(crate) rt: &'a R,
    pub(crate) gate: &'a G,
    pub(crate) steps: &'a mut Steps<L>,
}

impl<B: Commits<R>, K: Link, L: Ledger, R: Threads + Sync> Future
    for Driven<'_, B, K, Unguarded, L, R> {
    type Output = u8;

    // The handle may be shared with the threads that a query starts.
    ghost can_poll = { λ _. IsSync R.row };

    /// Goes on until the session ends or its link has to wait.
    ///
    /// Lines are answered one after the other, and each reply is pushed whole before more is pulled. Where the session has
    /// ended the poll is ready with its status, and so is each further one, which does nothing. A pending poll yields to
    /// its context, since a link tells nobody when it may go on.
    fn poll(&mut self, cx: &mut Context<'_>) -> Poll<u8>
        // What each poll of a future promises.
        requires shared { IsSync R.row }
        ensures value { IfReady result (λ _. ⊤) }
        ensures again { OnPending result (IsSync R.row) }
        ensures same { OnPending result ((x : ℕ) → ⊤ → ⊤) }
        ensures registered { OnPending result (Covers cx.new (λ _. ⊥)) }
        ensures kept { Keeps cx.old cx.new }

        // What is answered and pushed, and the log.
        ensures same_reference { self.new.polled.ghost_name ≡ self.old.polled.ghost_name }
        ensures stands { KeepsStarts (seen B.seat B.log B.pin_at K.left K.held self.old.polled.now)
            (seen B.seat B.log B.pin_at K.left K.held self.new.polled.now) }
        ensures goes_on { GoesOn
            (seen B.seat B.log B.pin_at K.left K.held self.old.polled.now).now.session
            (seen B.seat B.log B.pin_at K.left K.held self.new.polled.now).now.session }

        // When it is pending, when it is ready, and with which status.
        ensures pending { OnPending result ((self.new.polled.now.ended ≡ None)
            × WaitsForLink (K.counts self.old.polled.now.link) (K.counts self.new.polled.now.link)
            (seen B.seat B.log B.pin_at K.left K.held self.new.polled.now)) }
        ensures ready { IfReady result (λ status. self.new.polled.now.ended ≡ Some status) }
        ensures over { IfSome self.old.polled.now.ended (λ status. (result ≡ Poll.Ready status)
            × (self.new.polled.now ≡ self.old.polled.now)) }
        ensures statuses { IfReady result (λ status. self.old.polled.now.ended ≡ None
            → IsTrue (ends_session status)) }
        ensures read_failed { result ≡ Poll.Ready 3 → self.old.polled.now.ended ≡ None
            → HasRisen (K.counts self.old.polled.now.link).read_faults
            (K.counts self.new.polled.now.link).read_faults }
        ensures write_failed { result ≡ Poll.Ready 4 → self.old.polled.now.ended ≡ None
            → HasRisen (K.counts self.old.polled.now.link).write_faults
            (K.counts self.new.polled.now.link).write_faults }

        // No count of the link falls.
        ensures counts { NoneFell (K.counts self.old.polled.now.link)
            (K.counts self.new.polled.now.link) }
    {
        match go_on(self.rt, self.gate, self.polled, self.steps) {
            Poll::Ready(status) => Poll::Ready(status),
            Poll::Pending => cx.yield_now(),
        }
    }
}
