//! What all seats of a board have seen, brought together.
ghost use Rattle.std.specs.Prelude.{◌≡◌, ◌<◌, IfOk, OnOk, IsTrue};
ghost use Rattle.shared_board.specs.{Seats.{AreSeats, HaveLearnt, IsLogOfAll, last_log}, Tied.{AllBegin, HaveOwn}};

use crate::book::Naming;
use crate::desk::Shared;
use crate::seat::Seat;
use std::alloc::AllocError;
use std::sync::Wait;

/// Each seat but the last tells, in turn, and the next one learns its note. With all seats of a board, in the order of
/// their names, the log that the last one has seen afterwards is that of them all. It waits for the board's lock. The
/// one error is that there are too many holders of a version. Where the last one finds another number of entries of a
/// seat than that one has made, which by the rule never comes, it goes round again.
#[tactic(auto, using(crate::proofs::Passed::have_self, crate::proofs::Passed::have_trans))]
pub fn tie<J: Naming, R: Wait + Drop>(rt: &R, seats: &mut [Seat<J, R>]) -> Result<(), AllocError>
    requires { AreSeats J.board.seats seats.old }
    ensures learnt { HaveLearnt seats.old seats.new }
    ensures tied { OnOk result (IsLogOfAll seats.old (last_log seats.new)) }
{
    for _ in rt.forever() {
        if passed_on(rt, seats)? && have_own(seats) {
            return Ok(());
        }
    }
    unreachable!()
}

/// Each seat but the last tells, and the next one learns. False where one can't, which by the rule never comes.
fn passed_on<J: Naming, R: Wait + Drop>(
    rt: &R,
    seats: &mut [Seat<J, R>],
) -> Result<bool, AllocError>
    ensures learnt { HaveLearnt seats.old seats.new }
    ensures begin { IfOk result (λ all. IsTrue all → AllBegin seats.old (last_log seats.new)) }
{
    for n in 1..seats.len() {
        let note = seats[n - 1].tell(rt)?;
        if !seats[n].learnt(note) {
            return Ok(false);
        }
    }
    Ok(true)
}

/// Whether the last seat finds as many entries of each seat as that one does.
fn have_own<J: Naming, R: Wait + Drop>(seats: &[Seat<J, R>]) -> bool
    requires { AreSeats J.board.seats seats.now }
    ensures { IsTrue result → HaveOwn seats.now (last_log seats.now) }
{
    let Some(last) = seats.last() else {
        return true;
    };
    // None of its entries has the name of another than the board's seats.
    let _ = last.count(last.name());
    for seat in seats {
        let name = seat.name();
        if seat.count(name) != last.count(name) {
            return false;
        }
    }
    true
}
