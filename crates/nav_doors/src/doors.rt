//! The loops of all doors, each on a thread of its own, so that a slow client holds up its own door alone.
ghost use Rattle.std.specs.{Prelude.{◌≡◌, ◌==◌, ◌<◌, ◌≤◌, ◌⊎◌, ℕ, None, length, vec_len, slice_index_or, IfSome, OnOk, OnErr}, List.{list_any}};
ghost use Rattle.nav_session.specs.Desks.{share};
ghost use Rattle.nav_doors.specs.{Connections.{outside}, Inside.{ServesPlace}, Doors.{ServesDoors, ServesFromEmptyDesk, ServesTied, IsRefused, worst}};
ghost use Rattle.shared_board.specs.Seats.{AreSeats};

use crate::door::{ACCEPT_FAILED, ALL_SERVED, NO_MEMORY, serve_door};
use crate::place::Place;
use crate::placing::{places_of, take_apart};
use graph_nodes::Steps;
use nav_io::{Door, Unguarded};
use nav_session::{Desk, Means};
use shared_board::{Naming, Seat, tie};
use std::alloc::{AllocError, Global};
use std::marker::Brand;
use std::sync::Wait;
use std::sync::ledger::{Blank, Ledger};
use std::thread;
use std::thread::Threads;
use version_board::Commits;

/// Serves one of so many doors. The status stays with the place, since a thread hands nothing back.
fn serve_place<R: Threads + Sync, B: Commits<R> + Drop, D: Door + Drop>(
    rt: &R,
    alloc: Global,
    place: &mut Place<D, B>,
    doors: u64,
    connections: u32,
)
    requires { 1 ≤ doors }
    ensures { ServesPlace
        (outside D.gave D.got_back D.faults D.S.left D.S.faults D.K.held D.K.faults)
        B.seat B.log (share doors) connections place.old place.new }
{
    place.status = serve_counted::<R, B, D, Brand>(
        rt,
        alloc,
        &mut place.door,
        &mut place.seat,
        doors,
        connections,
        Blank::new(1),
    );
}

/// The desk has this door's part of what the desks of all doors keep together. Steps are counted on a ledger for this
/// door alone, whose name the caller picks; nobody reads them.
fn serve_counted<R: Threads + Sync, B: Commits<R>, D: Door, L: Ledger>(
    rt: &R,
    alloc: Global,
    door: &mut D,
    seat: &mut B,
    doors: u64,
    connections: u32,
    blank: Blank,
) -> u8
    requires doors { 1 ≤ doors }
    requires name { blank.name ≡ L.name }
    requires parts { blank.parts ≡ L.parts }
    requires some { 0 < blank.parts }
    ensures served { ServesFromEmptyDesk
        (outside D.gave D.got_back D.faults D.S.left D.S.faults D.K.held D.K.faults)
        (B.seat seat.old) (share doors) connections door.old door.new (B.log seat.old)
        (B.log seat.new) result }
    ensures seat { B.seat seat.new ≡ B.seat seat.old }
{
    let mut steps = Steps::<L>::new(blank);
    let mut desk = Desk::sharing(alloc, doors);
    let means = Means {
        rt,
        alloc,
        gate: &Unguarded,
    };
    serve_door(&means, &mut desk, door, seat, connections, &mut steps)
}

/// Each door is served on a thread of its own where one can be made, and else by this one.
fn serve_places<R: Threads + Sync, B: Commits<R> + Send + Drop, D: Door + Send + Drop>(
    rt: &R,
    alloc: Global,
    places: &mut [Place<D, B>],
    connections: u32,
)
where
    D::S: Send,
    D::K: Send,
    ensures len { length places.new ≡ length places.old }
    ensures each { (i : ℕ) (d : _) → i < length places.old → ServesPlace
        (outside D.gave D.got_back D.faults D.S.left D.S.faults D.K.held D.K.faults)
        B.seat B.log (share (length places.old)) connections
        (slice_index_or places.old i d) (slice_index_or places.new i d) }
{
    let threads = places.len();
    if threads > 0 {
        let doors = threads as u64;
        thread::for_each_mut(
            rt,
            places,
            threads,
            &|_, place|
                requires { 1 ≤ doors }
            { serve_place(rt, alloc, place, doors, connections) },
        );
    }
}

/// The status of all doors: 5 where memory was refused to one, else 8 where one failed, else 0.
fn status_of<D: Drop, B: Drop>(places: &[Place<D, B>]) -> u8
    ensures { result ≡ worst
        (list_any (λ place. place.status == 5) places.now)
        (list_any (λ place. place.status == 8) places.now) }
{
    if has_status(places, NO_MEMORY) {
        return NO_MEMORY;
    }
    if has_status(places, ACCEPT_FAILED) {
        return ACCEPT_FAILED;
    }
    ALL_SERVED
}

fn has_status<D: Drop, B: Drop>(places: &[Place<D, B>], status: u8) -> bool
    ensures { result ≡ list_any (λ place. place.status == status) places.now }
{
    places.iter().any(|place| place.status == status)
}

/// Serves each door for the seat that stands where it does. `None`, and not 5, where memory was refused
/// before any began: then all stay as they are.
fn serve_all<R: Threads + Sync, B: Commits<R> + Send + Drop, D: Door + Send + Drop>(
    rt: &R,
    alloc: Global,
    doors: &mut Vec<D>,
    seats: &mut Vec<B>,
    connections: u32,
) -> Option<u8>
where
    D::S: Send,
    D::K: Send,
    requires { vec_len seats.old ≡ vec_len doors.old }
    ensures all { IfSome result (λ status. ServesDoors
        (outside D.gave D.got_back D.faults D.S.left D.S.faults D.K.held D.K.faults)
        B.seat B.log connections
        doors.old.items doors.new.items seats.old.items seats.new.items status) }
    ensures same_doors { result ≡ None → doors.new.items ≡ doors.old.items }
    ensures same_seats { result ≡ None → seats.new.items ≡ seats.old.items }
{
    let Ok(mut places) = places_of(alloc, doors, seats) else {
        return None;
    };
    serve_places(rt, alloc, places.as_mut_slice(), connections);
    let status = status_of(&places);
    take_apart(places, doors, seats);
    Some(status)
}

/// Serves all doors, each for the seat that stands where it does, with so many connections each, and then brings the
/// seats together. The seats are all seats of a board, in the order of their names. The desks of all doors together keep
/// at most half as much as the desk of one session that shares with none.
///
/// Each door is served as `serve_door` does it, on a thread of its own where one can be made; where none can be made the
/// doors are served one after the other. A fault of one door, or of a connection of it, leaves the others as they are.
/// The status:
///
/// - 0: each door had as many connections as were asked for.
/// - 5: memory was refused: to a session, which ended its own door's loop alone, or before any door was asked for a
///   connection, or where the seats were brought together.
/// - 8: a door failed where it was asked for a connection, which ended its own loop alone.
#[tactic(auto, using(crate::proofs::Placed::serves_tied))]
pub fn serve_doors<'a, R: Threads + Wait + Sync, D: Door + Send + Drop, J: Naming + Send + Sync>(
    rt: &'a R,
    alloc: Global,
    doors: &mut Vec<D>,
    seats: &mut Vec<Seat<J, &'a R>>,
    connections: u32,
) -> u8
where
    D::S: Send,
    D::K: Send,
    requires seats { AreSeats J.board.seats seats.old.items }
    requires doors { vec_len doors.old ≡ J.board.seats }
    ensures served { ServesTied
        (outside D.gave D.got_back D.faults D.S.left D.S.faults D.K.held D.K.faults)
        connections doors.old.items doors.new.items seats.old.items seats.new.items result
        ⊎ IsRefused doors.old.items doors.new.items seats.old.items seats.new.items result }
{
    let Some(status) = serve_all::<&'a R, Seat<J, &'a R>, D>(&rt, alloc, doors, seats, connections)
    else {
        return NO_MEMORY;
    };
    status_tied(status, tie(&rt, seats.as_mut_slice()))
}

/// The status where the loops of all doors ended with this one, and the seats were then brought together, unless memory was
/// refused.
fn status_tied(looped: u8, tied: Result<(), AllocError>) -> u8
    ensures together { OnOk tied (result ≡ looped) }
    ensures apart { OnErr tied (result ≡ 5) }
{
    match tied {
        Ok(()) => looped,
        Err(_) => NO_MEMORY,
    }
}
