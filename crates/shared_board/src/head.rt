//! A beginning of the log with what goes with it, and the slot in which seats find the newest.
ghost use Rattle.std.specs.{Prelude.{◌≡◌, ◌<◌, ◌≤◌, ◌+◌, ◌^◌, ℕ, [], ◌∷◌, ◌++◌, None, Err, IfOk, OnOk, IfSome, IsTrue, IsFalse, length}, Arc.{arc_value}};
ghost use Rattle.version_tree.specs.declared.edit.EditFault.{EditFault as Faults};
ghost use Rattle.version_board.specs.Logs.{version_of, own, entry, refusal, Begins, FitsHead, IsLater, IsStale, IsRefused};
ghost use Rattle.version_board.specs.declared.fault.CommitFault.TheVariants as why;
ghost use Rattle.shared_board.specs.Bodies.{IsIndexed, IsBodyOf};

use crate::body::Body;
use crate::book::{Front, Naming};
use crate::next::{counted, next_pinned};
use left_right::Absorb;
use std::alloc::{AllocError, Global};
use std::marker::Model;
use std::sync::Arc;
use version_board::{CommitFault, Pinned};
use version_tree::Edit;

/// A beginning of a board's log, with its version. Contracts see it as its entries.
#[derive(Drop)]
pub struct Head<J: Naming> {
    body: Arc<Body>,
    front: Front<J>,
}

impl<J: Naming> Model for Head<J> {
    ghost use Rattle.std.specs.{Prelude.{List}, Arc.{arc_value}};
    ghost use Rattle.version_tree.specs.declared.entry.Entry.{Entry};
    ghost use Rattle.shared_board.specs.Bodies.{IsBodyOf};

    ghost Value = { List Entry };

    ghost view = { λ h. h.front };

    ghost invariant = { λ h. IsBodyOf J.board.seats (arc_value h.body) h.front };
}

impl<J: Naming> Head<J> {
    /// A front with its body.
    pub(crate) fn of(body: Arc<Body>, front: Front<J>) -> Head<J>
        requires { IsBodyOf J.board.seats (arc_value body) front }
        ensures { result ≡ front }
    {
        Head { body, front }
    }

    pub(crate) fn front(&self) -> &Front<J>
        ensures { result.now ≡ self.now }
    {
        &self.front
    }

    /// How many entries the seat has. None is of another than the board's seats.
    pub(crate) fn count(&self, seat: u32) -> u32
        requires { seat < J.board.seats }
        ensures count { result ≡ length (own seat self.now) }
        ensures others { (other : ℕ) → J.board.seats ≤ other → own other self.now ≡ [] }
    {
        self.body.counts[seat as usize]
    }

    pub(crate) fn pinned(&self) -> &Pinned
        ensures { IsIndexed result.now (version_of self.now) }
    {
        &self.body.pinned
    }

    /// Whether it begins the other: of two beginnings of one log the shorter begins the longer.
    pub(crate) fn begins(&self, other: &Head<J>) -> bool
        ensures short { IsTrue result → Begins self.now other.now }
        ensures long { IsFalse result → Begins other.now self.now }
    {
        self.front.begins(&other.front)
    }

    /// Another holder of the same. It takes no memory; the one error is that there are too many holders.
    pub(crate) fn share(&self) -> Result<Head<J>, AllocError>
        ensures { IfOk result (λ head. head ≡ self.now) }
    {
        let body = Arc::try_clone(&self.body)?;
        Ok(Head {
            body,
            front: self.front.again(),
        })
    }

    /// Whether it begins the other, which has no further entry of the seat.
    #[tactic(auto, using(crate::proofs::Counted::own_stays))]
    pub(crate) fn leads_to(&self, other: &Head<J>, seat: u32) -> bool
        requires { seat < J.board.seats }
        ensures { IsTrue result → IsLater seat self.now other.now }
    {
        self.front.begins(&other.front) && self.count(seat) == other.count(seat)
    }

    /// The body of the log with the seat's next entry, which is refused as a commit on this head is.
    pub(crate) fn next_body(
        &self,
        alloc: Global,
        seat: u32,
        base: Option<u32>,
        edits: &[Edit],
    ) -> Result<Body, CommitFault>
        requires { seat < J.board.seats }
        ensures ok { IfOk result (λ body. IsBodyOf J.board.seats body (self.now
            ++ entry seat (length (own seat self.now)) edits.now ∷ [])) }
        ensures base { OnOk result (FitsHead base (length self.now)) }
        ensures fit { OnOk result (refusal self.now edits.now ≡ None) }
        ensures stale { (n : ℕ) → result ≡ Err (why.Stale n) → IsStale base (length self.now) n }
        ensures refused { (e : Faults) → result ≡ Err (why.Edit e)
            → IsRefused base edits.now self.now e }
        ensures memory { result ≡ Err why.NoMemory → FitsHead base (length self.now) }
    {
        let pinned = next_pinned(alloc, &self.body.pinned, base, edits)?;
        let _number = pinned.version.number();
        let counts = counted(&self.body.counts, seat)?;
        Ok(Body { pinned, counts })
    }
}

/// Where seats find the newest head that is published.
#[derive(Drop)]
pub struct Slot<J: Naming>(pub(crate) Option<Head<J>>);

impl<J: Naming> Default for Slot<J> {
    ghost use Rattle.std.specs.Prelude.{◌≡◌, None};

    ghost is_default = { λ slot. slot.0 ≡ None };

    fn default() -> Slot<J> {
        Slot(None)
    }
}

/// An operation replaces the whole value. It takes no memory.
impl<J: Naming> Absorb<Head<J>> for Slot<J> {
    ghost use Rattle.std.specs.Prelude.{Some};

    type State = Option<Head<J>>;

    ghost state = { λ slot. slot.0 };

    ghost applied = { λ _ head. Some head };

    fn absorb_first(&mut self, operation: &Head<J>, _other: &Slot<J>) -> Result<(), AllocError> {
        let head = operation.share()?;
        self.0 = Some(head);
        Ok(())
    }

    fn absorb_second(&mut self, operation: Head<J>, _other: &Slot<J>) -> Result<(), Head<J>> {
        self.0 = Some(operation);
        Ok(())
    }
}
