//! Doors and seats brought together, place by place, since a thread is lent one value; and taken apart again.
ghost use Rattle.std.specs.Prelude.{◌≡◌, ◌≤◌, [], length, vec_len, vec_capacity, IfOk, OnOk, OnErr};
ghost use Rattle.nav_doors.specs.Inside.{doors_of, seats_of};

use crate::door::ALL_SERVED;
use crate::place::Place;
use std::alloc::{AllocError, Global};

/// A place for each door and the seat that stands where it does. Room is taken for all before any is
/// moved, so that all stay where memory is refused, which is the one error.
pub(crate) fn places_of<D: Drop, B: Drop>(
    alloc: Global,
    doors: &mut Vec<D>,
    seats: &mut Vec<B>,
) -> Result<Vec<Place<D, B>>, AllocError>
    requires { vec_len seats.old ≡ vec_len doors.old }
    ensures doors { IfOk result (λ places. doors_of places.items ≡ doors.old.items) }
    ensures seats { IfOk result (λ places. seats_of places.items ≡ seats.old.items) }
    ensures door_room { IfOk result (λ places. vec_len places ≤ vec_capacity doors.new) }
    ensures seat_room { IfOk result (λ places. vec_len places ≤ vec_capacity seats.new) }
    ensures no_doors { OnOk result (doors.new.items ≡ []) }
    ensures no_seats { OnOk result (seats.new.items ≡ []) }
    ensures same_doors { OnErr result (doors.new.items ≡ doors.old.items) }
    ensures same_seats { OnErr result (seats.new.items ≡ seats.old.items) }
{
    let count = doors.len();
    let mut places = Vec::with_capacity(alloc, count)?;
    while places.len() < count {
        places.push_reserved(Place {
            door: doors.remove(0),
            seat: seats.remove(0),
            status: ALL_SERVED,
        });
    }
    Ok(places)
}

/// Puts the doors and the seats back into the room that they left, so that no memory is wanted.
pub(crate) fn take_apart<D: Drop, B: Drop>(
    places: Vec<Place<D, B>>,
    doors: &mut Vec<D>,
    seats: &mut Vec<B>,
)
    requires door_room { vec_len places ≤ vec_capacity doors.old }
    requires seat_room { vec_len places ≤ vec_capacity seats.old }
    requires no_doors { doors.old.items ≡ [] }
    requires no_seats { seats.old.items ≡ [] }
    ensures doors { doors.new.items ≡ doors_of places.items }
    ensures seats { seats.new.items ≡ seats_of places.items }
{
    for place in places {
        let Place { door, seat, .. } = place;
        doors.push_reserved(door);
        seats.push_reserved(seat);
    }
}
