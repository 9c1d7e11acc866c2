//! The whole of a program that serves many clients: its words, the yard that it is given, and its status.
ghost use Rattle.std.specs.Prelude.{◌≡◌, ◌≤◌, ◌↔◌, None, IfSome};
ghost use Rattle.futures.specs.Task.{Keeps};
ghost use Rattle.shared_board.specs.Seats.{AreNewcomers, max_seats};
ghost use Rattle.poll_many.specs.{Connections.{outside_of_seats}, ManyWords.{wanted_by, texts}, Yards.{yard_at, ServesYard}};

use crate::finishing::PORT_FAILED;
use crate::place::NO_MEMORY;
use crate::port::Port;
use crate::serving::serve_many;
use crate::words::{Wanted, wanted_by};
use crate::yard::Yard;
use futures::task::Context;
use graph_nodes::Steps;
use nav_io::HouseFault;
use shared_board::{Naming, Seat, Shared, SharedBoard, close};
use std::alloc::Global;
use std::marker::Brand;
use std::sync::ledger::Ledger;
use std::sync::{Arc, Wait};
use std::thread::Threads;

/// The words are no such words.
pub(crate) const BAD_WORDS: u8 = 2;

/// Does what the words say, a port, connections and seats: asks the yard for the port, serves so many of its links for so
/// many seats of one new board, whose log is empty at first, and gives the port back. The status:
///
/// - 0: so many links were given out, and the session of each ended.
/// - 2: the words aren't three numbers within their limits; nothing was asked for.
/// - 5: memory was refused, as `serve_many` has it, or for the board. It stands before 8.
/// - 8: the yard gave out no port, or the port failed; the count of faults of that one rose.
pub fn run_many<R: Threads + Wait + Sync, Y: Yard, L: Ledger>(
    rt: &R,
    alloc: Global,
    cx: &mut Context<'_>,
    words: &[String],
    yard: &mut Y,
    steps: &mut Steps<L>,
) -> u8
where
    <Y::P as Port>::K: Drop,
    ensures bad_words { (result ≡ 2) ↔ (wanted_by (texts words.now) ≡ None) }
    ensures untouched { result ≡ 2 → yard.new ≡ yard.old }
    ensures served { IfSome (wanted_by (texts words.now)) (λ wanted.
        ServesYard (outside_of_seats Y.P.Port Y.P.K.Link) wanted.seats wanted.connections
        (yard_at Y.Yard yard.old) (yard_at Y.Yard yard.new) result) }
    ensures kept { Keeps cx.old cx.new }
{
    match wanted_by(words) {
        Some(wanted) => {
            let board = SharedBoard::make(wanted.seats);
            serve_on::<Brand, R, Y, L>(rt, alloc, cx, board, yard, wanted, steps)
        }
        None => BAD_WORDS,
    }
}

/// Serves what is wanted on this board. No type in the signature depends on its name, so a caller may pick that.
fn serve_on<J: Naming + Send + Sync, R: Threads + Wait + Sync, Y: Yard, L: Ledger>(
    rt: &R,
    alloc: Global,
    cx: &mut Context<'_>,
    board: SharedBoard,
    yard: &mut Y,
    wanted: Wanted,
    steps: &mut Steps<L>,
) -> u8
where
    <Y::P as Port>::K: Drop,
    requires board { board ≡ J.board }
    requires all { board.seats ≡ wanted.seats }
    requires some { 1 ≤ wanted.seats }
    ensures served { ServesYard (outside_of_seats Y.P.Port Y.P.K.Link)
        wanted.seats wanted.connections (yard_at Y.Yard yard.old) (yard_at Y.Yard yard.new) result }
    ensures kept { Keeps cx.old cx.new }
{
    let Ok((shared, seats)) = board.named::<J, R>(rt, alloc) else {
        return NO_MEMORY;
    };
    let status = serve_yard(rt, alloc, cx, yard, wanted, seats, steps);
    let_go(shared);
    status
}

/// Drops what the seats shared. It is a function of its own since the drop of each of its parts is proved anew wherever it is
/// dropped.
fn let_go<'a, J: Naming, R: Wait>(_shared: Arc<Shared<J, &'a R>>) {}

/// Asks the yard for the port, and serves its links for these seats.
fn serve_yard<'a, J: Naming + Send + Sync, R: Threads + Wait + Sync, Y: Yard, L: Ledger>(
    rt: &'a R,
    alloc: Global,
    cx: &mut Context<'_>,
    yard: &mut Y,
    wanted: Wanted,
    seats: Vec<Seat<J, &'a R>>,
    steps: &mut Steps<L>,
) -> u8
where
    <Y::P as Port>::K: Drop,
    requires seats { AreNewcomers J.board.seats seats.items }
    requires all { J.board.seats ≡ wanted.seats }
    requires some { 1 ≤ wanted.seats }
    ensures served { ServesYard (outside_of_seats Y.P.Port Y.P.K.Link)
        wanted.seats wanted.connections (yard_at Y.Yard yard.old) (yard_at Y.Yard yard.new) result }
    ensures kept { Keeps cx.old cx.new }
{
    match yard.port(wanted.port) {
        Ok(mut port) => {
            let status = serve_many(rt, alloc, cx, &mut port, seats, wanted.connections, steps);
            yard.close(port);
            status
        }
        Err(HouseFault::Failed) => {
            close(seats);
            PORT_FAILED
        }
        Err(HouseFault::NoMemory) => {
            close(seats);
            NO_MEMORY
        }
    }
}
