//! Seats brought to places, and taken from them again.
ghost use Rattle.std.specs.Prelude.{◌≡◌, ◌<◌, ◌≤◌, ◌+◌, ◌++◌, [], vec_len, vec_capacity, IfOk, OnOk, OnErr};
ghost use Rattle.poll_many.specs.Places.{AllFree, board_at, boards_of};

use crate::place::{Open, Place, let_go};
use nav_poll::Link;
use nav_session::Desk;
use std::alloc::{AllocError, Global};
use version_board::Pins;

/// A free place for each seat, with a desk of its own. The one error is want of memory; then all seats stay.
pub(crate) fn places_of<B: Pins + Drop, K: Drop>(
    alloc: Global,
    seats: &mut Vec<B>,
) -> Result<Vec<Place<B, K>>, AllocError>
    ensures seats { IfOk result (λ places. boards_of places.items ≡ seats.old.items) }
    ensures free { IfOk result (λ places. AllFree places.items) }
    ensures all { IfOk result (λ places. vec_len places ≡ vec_len seats.old) }
    ensures room { IfOk result (λ places. vec_len places ≤ vec_capacity seats.new) }
    ensures none { OnOk result (seats.new.items ≡ []) }
    ensures same { OnErr result (seats.new.items ≡ seats.old.items) }
{
    let count = seats.len();
    let mut places = Vec::with_capacity(alloc, count)?;
    while places.len() < count {
        places.push_reserved(Place::Free(Desk::new(alloc), seats.remove(0)));
    }
    Ok(places)
}

/// Puts the seats of the places back.
pub(crate) fn take_apart<B: Pins + Drop, K: Link + Drop>(
    places: Vec<Place<B, K>>,
    seats: &mut Vec<B>,
)
    requires room { vec_len places ≤ vec_capacity seats.old }
    requires none { seats.old.items ≡ [] }
    ensures { seats.new.items ≡ boards_of places.items }
{
    let mut rest = places;
    while !rest.is_empty() {
        put_back(rest.remove(0), seats);
    }
}

/// Puts the seat of the place back, if one rests there.
fn put_back<B: Pins + Drop, K: Link + Drop>(place: Place<B, K>, seats: &mut Vec<B>)
    requires room { vec_len seats.old < vec_capacity seats.old }
    ensures put { seats.new.items ≡ seats.old.items ++ board_at place }
    ensures room { vec_capacity seats.new ≡ vec_capacity seats.old }
    ensures len { vec_len seats.new ≤ vec_len seats.old + 1 }
{
    match place {
        Place::Free(desk, board) => {
            let_go(desk);
            seats.push_reserved(board);
        }
        Place::Lost(board) => seats.push_reserved(board),
        Place::Busy(session) => {
            let Open { polled, .. } = session;
            let (desk, _board, _link) = polled.close();
            let_go(desk);
        }
        Place::Away => {}
    }
}
