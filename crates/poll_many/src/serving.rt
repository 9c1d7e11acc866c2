//! The links of a port served for all seats of a board.
ghost use Rattle.std.specs.Prelude.{◌<◌, vec_len};
ghost use Rattle.futures.specs.Task.{Keeps};
ghost use Rattle.shared_board.specs.Seats.{AreSeats};
ghost use Rattle.poll_many.specs.{Connections.{outside_of_seats}, Settling.{SettlesBehindRounds}, Ports.{ServesPort}};

use crate::finishing::serve_all;
use crate::place::NO_MEMORY;
use crate::port::Port;
use futures::task::Context;
use graph_nodes::Steps;
use shared_board::{Naming, Seat, close, tie};
use std::alloc::Global;
use std::sync::Wait;
use std::sync::ledger::Ledger;
use std::thread::Threads;

/// Serves so many links of a port, each as a session of one of the seats, on one thread. The seats are all seats of a board,
/// at least one, in the order of their names.
///
/// It goes by rounds. A round first takes links while a seat is free and links are wanted, until none is there yet; then it
/// polls each open session once, in the order of the seats. A session that has ended gives its link back, and its seat is
/// free again. Where a round took no link and every poll was pending, the port settles. When the sessions are over the seats
/// are brought together, and then let go. The status:
///
/// - 0: so many links were given out, and the session of each ended. One that ends with 3, 4, 6 or 7 ends alone.
/// - 5: memory was refused: to a session, or where one was to begin, which loses its seat alone; before any link was asked
///   for; or where the seats were brought together. The sessions are over too where no seat is left.
/// - 8: the port failed, and its count rose; the open sessions were broken off, and their links given back.
pub fn serve_many<'a, R: Threads + Wait + Sync, P: Port, J: Naming + Send + Sync, L: Ledger>(
    rt: &'a R,
    alloc: Global,
    cx: &mut Context<'_>,
    port: &mut P,
    seats: Vec<Seat<J, &'a R>>,
    connections: u32,
    steps: &mut Steps<L>,
) -> u8
where
    P::K: Drop,
    requires seats { AreSeats J.board.seats seats.items }
    requires some { 0 < vec_len seats }
    ensures served { ServesPort (outside_of_seats P.Port P.K.Link)
        connections port.old port.new seats.entry.items result }
    ensures settled { SettlesBehindRounds (outside_of_seats P.Port P.K.Link) port.old port.new }
    ensures kept { Keeps cx.old cx.new }
{
    let mut seats = seats;
    let status = serve_seats(rt, alloc, cx, port, &mut seats, connections, steps);
    close(seats);
    status
}

/// The same for seats that are lent.
fn serve_seats<'a, R: Threads + Wait + Sync, P: Port, J: Naming + Send + Sync, L: Ledger>(
    rt: &'a R,
    alloc: Global,
    cx: &mut Context<'_>,
    port: &mut P,
    seats: &mut Vec<Seat<J, &'a R>>,
    connections: u32,
    steps: &mut Steps<L>,
) -> u8
where
    P::K: Drop,
    requires seats { AreSeats J.board.seats seats.old.items }
    requires some { 0 < vec_len seats.old }
    ensures served { ServesPort (outside_of_seats P.Port P.K.Link)
        connections port.old port.new seats.old.items result }
    ensures settled { SettlesBehindRounds (outside_of_seats P.Port P.K.Link) port.old port.new }
    ensures kept { Keeps cx.old cx.new }
{
    let status = serve_all::<&'a R, Seat<J, &'a R>, P, L>(
        &rt,
        alloc,
        cx,
        port,
        seats,
        connections,
        steps,
    );
    match tie(&rt, seats.as_mut_slice()) {
        Ok(()) => status,
        Err(_) => NO_MEMORY,
    }
}
