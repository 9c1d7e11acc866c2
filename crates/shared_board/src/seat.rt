//! A seat at a shared board.
ghost use Rattle.std.specs.Prelude.{◌≡◌, ◌<◌, ◌≤◌, ℕ, [], length, IsTrue, Some, Err, IfSome, OnOk, OnErr};
ghost use Rattle.version_board.specs.Logs.{own, Begins, IsLater};
ghost use Rattle.shared_board.specs.{Seats.{newcomer, pinned_log}, Commits.{Settles}};

use crate::book::Naming;
use crate::desk::{HeadReader, Shared};
use crate::head::Head;
use std::alloc::Global;
use std::marker::Model;
use std::mem;
use std::sync::{Arc, Wait};
use version_board::{CommitFault, Commits, Pinned, Pins};
use version_tree::Edit;

/// A seat at the board that is named `J`. Its commits wait with the handle `R`; it pins without one.
pub type Seat<J, R> = SeatOf<J, Shared<J, R>>;

/// A seat that holds what its board shares as an `S`, of which it needs nothing for a pin, and no allocator, so that a pin
/// can't ask for memory. Contracts see the log that it has seen, its name and its pin.
#[derive(Drop)]
pub struct SeatOf<J: Naming, S: Drop> {
    pub(crate) shared: Arc<S>,
    reader: HeadReader<J>,
    pub(crate) seat: u32,
    pub(crate) head: Head<J>,
    /// What is pinned, where it isn't the head.
    held: Option<Head<J>>,
}

impl<J: Naming, S: Drop> Model for SeatOf<J, S> {
    ghost use Rattle.std.specs.Prelude.{◌<◌, length};
    ghost use Rattle.version_board.specs.Logs.{Begins};
    ghost use Rattle.shared_board.specs.Seats.{Holder, pinned_log};

    ghost Value = { Holder };

    ghost view = { λ s. record {
      log = s.head;
      seat = s.seat;
      pin = length
          (pinned_log s.held s.head);
    } };

    ghost invariant = { λ s. (s.seat < J.board.seats) × Begins (pinned_log s.held s.head) s.head };
}

impl<J: Naming, S: Drop> SeatOf<J, S> {
    /// A seat that has seen nothing.
    pub(crate) fn first(
        shared: Arc<S>,
        reader: HeadReader<J>,
        seat: u32,
        head: Head<J>,
    ) -> SeatOf<J, S>
        requires named { seat < J.board.seats }
        requires empty { head ≡ [] }
        ensures { result ≡ newcomer seat }
    {
        SeatOf {
            shared,
            reader,
            seat,
            head,
            held: None,
        }
    }

    /// The seat's name, a number below that of the board's seats.
    pub fn name(&self) -> u32
        ensures name { result ≡ self.now.seat }
        ensures few { result < J.board.seats }
    {
        self.seat
    }

    /// How many entries the seat of this name has in the log that this one has seen. All are of the board's seats.
    pub fn count(&self, seat: u32) -> u32
        requires { seat < J.board.seats }
        ensures count { result ≡ length (own seat self.now.log) }
        ensures others { (other : ℕ) → J.board.seats ≤ other → own other self.now.log ≡ [] }
    {
        self.head.count(seat)
    }

    /// Takes a head that goes on from what was seen. What was pinned stays.
    pub(crate) fn advance(&mut self, head: Head<J>)
        requires { Begins self.old.log head }
        ensures log { self.new.log ≡ head }
        ensures seat { self.new.seat ≡ self.old.seat }
        ensures pin { self.new.pin ≡ self.old.pin }
    {
        let before = mem::replace(&mut self.head, head);
        let held = self.held.take();
        self.held = Some(held_or(held, before));
    }
}

/// What is pinned.
fn held_or<J: Naming>(held: Option<Head<J>>, head: Head<J>) -> Head<J>
    ensures { result ≡ pinned_log held head }
{
    match held {
        Some(held) => held,
        None => head,
    }
}

/// The head that was published last, where it goes on from `head` and has no further entry of the seat.
fn newest<J: Naming>(reader: &mut HeadReader<J>, head: &Head<J>, seat: u32) -> Option<Head<J>>
    requires { seat < J.board.seats }
    ensures { IfSome result (λ newer. IsLater seat head.now newer) }
{
    let guard = reader.enter()?;
    match &guard.0 {
        Some(found) => newer_of(found, head, seat),
        None => None,
    }
}

fn newer_of<J: Naming>(found: &Head<J>, head: &Head<J>, seat: u32) -> Option<Head<J>>
    requires { seat < J.board.seats }
    ensures { IfSome result (λ newer. IsLater seat head.now newer) }
{
    if !head.leads_to(found, seat) {
        return None;
    }
    found.share().ok()
}

impl<J: Naming, S: Drop> Pins for SeatOf<J, S> {
    ghost log = { λ s. s.log };

    ghost seat = { λ s. s.seat };

    ghost pin_at = { λ s. s.pin };

    #[tactic(auto, using(crate::proofs::Fronts::later_self, crate::proofs::Fronts::begins_self))]
    fn pin(&mut self) {
        self.held = None;
        if let Some(newer) = newest(&mut self.reader, &self.head, self.seat) {
            self.head = newer;
        }
    }

    fn pinned(&self) -> &Pinned {
        match &self.held {
            Some(held) => held.pinned(),
            None => self.head.pinned(),
        }
    }
}

/// Commits under the lock, and gives the head that ends with the entry, or the fault with the head that was read. It
/// takes the lock again where the desk isn't seen to go on from the seat's head, which by the rule never comes.
fn settle<J: Naming, R: Wait + Drop>(
    rt: &R,
    alloc: Global,
    shared: &Shared<J, R>,
    seen: &Head<J>,
    seat: u32,
    base: Option<u32>,
    edits: &[Edit],
) -> Result<Head<J>, (CommitFault, Option<Head<J>>)>
    requires { seat < J.board.seats }
    ensures { Settles seat base edits.now seen.now result }
{
    for _ in rt.forever() {
        if let Some(settled) = try_once(rt, alloc, shared, seen, seat, base, edits) {
            return settled;
        }
    }
    unreachable!()
}

fn try_once<J: Naming, R: Wait + Drop>(
    rt: &R,
    alloc: Global,
    shared: &Shared<J, R>,
    seen: &Head<J>,
    seat: u32,
    base: Option<u32>,
    edits: &[Edit],
) -> Option<Result<Head<J>, (CommitFault, Option<Head<J>>)>>
    requires { seat < J.board.seats }
    ensures { IfSome result (λ r. Settles seat base edits.now seen.now r) }
{
    shared
        .desk
        .lock(rt)
        .commit(alloc, &shared.book, seen, seat, base, edits)
}

impl<J: Naming, R: Wait + Drop> Commits<R> for SeatOf<J, Shared<J, R>> {
    #[tactic(auto, using(crate::proofs::Fronts::later_self, crate::proofs::Fronts::begins_self))]
    fn commit(
        &mut self,
        rt: &R,
        alloc: Global,
        base: Option<u32>,
        edits: &[Edit],
    ) -> Result<(), CommitFault> {
        match settle(rt, alloc, &*self.shared, &self.head, self.seat, base, edits) {
            Ok(next) => {
                self.held = None;
                self.head = next;
                Ok(())
            }
            Err((fault, head)) => match head {
                Some(head) => {
                    self.advance(head);
                    Err(fault)
                }
                None => Err(fault),
            },
        }
    }
}
