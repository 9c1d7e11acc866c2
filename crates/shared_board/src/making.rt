//! Making a board with its seats.
ghost use Rattle.std.specs.Prelude.{◌≡◌, ◌<◌, ◌≤◌, [], IfOk};
ghost use Rattle.shared_board.specs.Seats.{AreNewcomers, max_seats};

use crate::body::Body;
use crate::book::{Naming, SharedBoard};
use crate::desk::{Desk, HeadWriter, Shared, SharedBy};
use crate::head::{Head, Slot};
use crate::seat::{Seat, SeatOf};
use left_right::ReadHandleFactory;
use std::alloc::{AllocError, Global};
use std::sync::{Arc, Mutex, Wait};

impl SharedBoard {
    /// What the seats share, and all seats, in the order of their names from 0; each has seen the empty log. `J` is this
    /// board. Want of memory is the one error; then the board is gone.
    pub fn named<'a, J: Naming, R: Wait>(
        self,
        rt: &'a R,
        alloc: Global,
    ) -> Result<(Arc<Shared<J, &'a R>>, Vec<Seat<J, &'a R>>), AllocError>
        requires { self ≡ J.board }
        ensures { IfOk result (λ made. AreNewcomers J.board.seats made.1.items) }
    {
        let count = self.count();
        let (book, front) = self.opened::<J>();
        let body = Body::first(alloc, count)?;
        let head = Head::of(Arc::new(alloc, body)?, front);
        let (desk, factory) = first_desk(rt, alloc, &head, count)?;
        let desk = Mutex::new(desk);
        let shared = Arc::new(alloc, SharedBy { book, desk })?;
        let seats = all_seats(alloc, &shared, &factory, &head, count)?;
        Ok((shared, seats))
    }
}

/// A desk over the empty log, and what makes its readers.
fn first_desk<'a, J: Naming, R: Wait>(
    rt: &'a R,
    alloc: Global,
    head: &Head<J>,
    count: u32,
) -> Result<(Desk<J, HeadWriter<J, &'a R>>, ReadHandleFactory<Slot<J>>), AllocError>
    requires few { count ≤ max_seats }
{
    let mine = head.share()?;
    let readers = count as usize + 1;
    let (writer, _reader) = left_right::new::<Slot<J>, Head<J>, &'a R, Global>(alloc, rt, readers)?;
    let factory = writer.factory()?;
    Ok((Desk::first(writer, mine)?, factory))
}

#[tactic(auto, using(crate::proofs::Newcomers::newcomers_none, crate::proofs::Newcomers::newcomers_push))]
fn all_seats<J: Naming, S: Drop>(
    alloc: Global,
    shared: &Arc<S>,
    factory: &ReadHandleFactory<Slot<J>>,
    head: &Head<J>,
    count: u32,
) -> Result<Vec<SeatOf<J, S>>, AllocError>
    requires count { count ≡ J.board.seats }
    requires empty { head.now ≡ [] }
    ensures { IfOk result (λ all. AreNewcomers count all.items) }
{
    let mut all = Vec::new(alloc);
    for name in 0..count {
        let reader = factory.handle()?;
        let shared = Arc::try_clone(shared)?;
        let seat = SeatOf::first(shared, reader, name, head.share()?);
        all.push(seat)?;
    }
    Ok(all)
}

/// Lets all seats go.
pub fn close<J: Naming, S: Drop>(_seats: Vec<SeatOf<J, S>>) {}
