//! All doors of a house, served on a board that is made for them.
ghost use Rattle.std.specs.Prelude.{◌≡◌, ◌≤◌};
ghost use Rattle.nav_io.specs.Told.{HasOut};
ghost use Rattle.shared_board.specs.Seats.{AreNewcomers, max_seats};
ghost use Rattle.nav_doors.specs.{Connections.{outside}, Houses.{house_with, ServesHouse}};

use crate::door::{ACCEPT_FAILED, NO_MEMORY};
use crate::doors::serve_doors;
use nav_io::{Door, House, HouseFault};
use shared_board::{Naming, Seat, SharedBoard, close};
use std::alloc::Global;
use std::marker::Brand;
use std::sync::Wait;
use std::thread::Threads;

/// Asks the house for so many doors at the port, 1 to 32, serves each for a seat of one new board, with so many
/// connections each, and gives the doors back. The log of the board is empty at first. The status:
///
/// - 0: each door had as many connections as were asked for.
/// - 5: memory was refused: before any door was asked for a connection, to a session, or where the seats were brought
///   together. It stands before 8.
/// - 8: the house gave out no doors, or a door failed where it was asked for a connection, which ended its own loop alone;
///   the count of faults of that one rose.
pub fn serve_house<R: Threads + Wait + Sync, H: House>(
    rt: &R,
    alloc: Global,
    house: &mut H,
    port: u16,
    doors: u32,
    connections: u32,
) -> u8
where
    H::D: Send + Drop,
    <H::D as Door>::S: Send,
    <H::D as Door>::K: Send,
    requires some { 1 ≤ doors }
    requires few { doors ≤ max_seats }
    ensures served { ServesHouse
        (outside H.D.gave H.D.got_back H.D.faults H.D.S.left H.D.S.faults H.D.K.held H.D.K.faults)
        doors connections
        (house_with (H.gave house.old) (H.got_back house.old) (H.faults house.old))
        (house_with (H.gave house.new) (H.got_back house.new) (H.faults house.new)) result }
{
    let board = SharedBoard::make(doors);
    serve_named::<Brand, R, H>(rt, alloc, board, house, port, doors, connections)
}

/// Makes the seats of this board, and lets them go when the doors have been served. No type in the signature depends on the
/// board's name, so a caller may pick that.
fn serve_named<J: Naming + Send + Sync, R: Threads + Wait + Sync, H: House>(
    rt: &R,
    alloc: Global,
    board: SharedBoard,
    house: &mut H,
    port: u16,
    doors: u32,
    connections: u32,
) -> u8
where
    H::D: Send + Drop,
    <H::D as Door>::S: Send,
    <H::D as Door>::K: Send,
    requires board { board ≡ J.board }
    requires all { board.seats ≡ doors }
    ensures served { ServesHouse
        (outside H.D.gave H.D.got_back H.D.faults H.D.S.left H.D.S.faults H.D.K.held H.D.K.faults)
        doors connections
        (house_with (H.gave house.old) (H.got_back house.old) (H.faults house.old))
        (house_with (H.gave house.new) (H.got_back house.new) (H.faults house.new)) result }
{
    let Ok((_shared, mut seats)) = board.named::<J, R>(rt, alloc) else {
        return NO_MEMORY;
    };
    let status = serve_seats(rt, alloc, house, port, doors, &mut seats, connections);
    close(seats);
    status
}

/// Asks the house for a door for each of the seats. They go back to it whatever came of them. New seats stand in the order
/// of their names, as `serve_doors` asks of them.
fn serve_seats<'a, J: Naming + Send + Sync, R: Threads + Wait + Sync, H: House>(
    rt: &'a R,
    alloc: Global,
    house: &mut H,
    port: u16,
    doors: u32,
    seats: &mut Vec<Seat<J, &'a R>>,
    connections: u32,
) -> u8
where
    H::D: Send + Drop,
    <H::D as Door>::S: Send,
    <H::D as Door>::K: Send,
    requires seats { AreNewcomers J.board.seats seats.old.items }
    requires all { J.board.seats ≡ doors }
    ensures served { ServesHouse
        (outside H.D.gave H.D.got_back H.D.faults H.D.S.left H.D.S.faults H.D.K.held H.D.K.faults)
        doors connections
        (house_with (H.gave house.old) (H.got_back house.old) (H.faults house.old))
        (house_with (H.gave house.new) (H.got_back house.new) (H.faults house.new)) result }
{
    match house.doors(alloc, port, doors) {
        Ok(mut opened) => {
            let status = serve_doors(rt, alloc, &mut opened, seats, connections);
            house.close(opened);
            status
        }
        Err(fault) => status_of_fault(fault),
    }
}

/// The status where the house gave out no doors for this reason.
fn status_of_fault(fault: HouseFault) -> u8
    ensures failed { fault ≡ HouseFault.Failed → result ≡ 8 }
    ensures memory { fault ≡ HouseFault.NoMemory → result ≡ 5 }
{
    match fault {
        HouseFault::Failed => ACCEPT_FAILED,
        HouseFault::NoMemory => NO_MEMORY,
    }
}
