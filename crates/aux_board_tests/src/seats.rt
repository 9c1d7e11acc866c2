//! What no clause says: that seats take commits with memory at hand, that they find what others have committed, and what
//! they answer.
ghost use Rattle.std.specs.Prelude.{◌≡◌};
ghost use Rattle.shared_board.specs.Seats.{AreSeats};

use shared_board::{Naming, Note, Seat, SeatOf, SharedBoard, close, tie};
use std::alloc::Global;
use std::marker::Brand;
use std::sync::Wait;
use std::test::*;
use std::thread;
use std::thread::Threads;
use version_board::{Commits, Pins};
use version_tree::{Edit, PathText, UserText};

/// The edit that grants ann the prefix, or behind a `!` the one that takes that grant away.
fn edit_of(alloc: Global, word: &str) -> Result<Edit, Fail> {
    let user = UserText::of(alloc, "ann")?;
    if let Some(prefix) = word.strip_prefix('!') {
        let prefix = PathText::of(alloc, prefix)?;
        return Ok(Edit::Revoke { user, prefix });
    }
    let prefix = PathText::of(alloc, word)?;
    Ok(Edit::Grant { user, prefix })
}

/// The number of the version that the seat pins, and how many entries of each of three seats it has seen.
fn shown<J: Naming, S: Drop>(alloc: Global, seat: &SeatOf<J, S>) -> Result<String, Fail>
    requires { J.board.seats ≡ 3 }
{
    let pin = seat.pinned().version.number();
    let (a, b, c) = (seat.count(0), seat.count(1), seat.count(2));
    Ok(format!(in alloc; "{pin} of {a} {b} {c}")?)
}

/// What a seat answers to a step: `pin`, or a commit's base, which is a number or `any`, and its edit.
fn answer<J: Naming, R: Wait + Drop>(
    rt: &R,
    alloc: Global,
    seat: &mut Seat<J, R>,
    step: &str,
) -> Result<String, Fail> {
    let Some((base, word)) = step.split_once(' ') else {
        seat.pin();
        return Ok(String::new(alloc));
    };
    let edit = edit_of(alloc, word)?;
    match seat.commit(rt, alloc, base.parse().ok(), &[edit]) {
        Ok(()) => Ok(String::new(alloc)),
        Err(fault) => Ok(format!(in alloc; "{fault}, ")?),
    }
}

/// The lines of a script, each with what its seat said and shows after it: its name and a step, or `NAME < OTHER`, by
/// which it learns what the other tells.
fn played<J: Naming, R: Wait + Drop>(
    rt: &R,
    alloc: Global,
    seats: &mut [Seat<J, R>],
    script: &str,
) -> Result<String, Fail>
    requires { J.board.seats ≡ 3 }
{
    let mut text = String::new(alloc);
    for line in script.split('\n') {
        let step = line.split_once(" => ").unwrap_or((line, "")).0;
        let told = line_of(rt, alloc, seats, step)?;
        text.push_str(told.as_str())?;
    }
    Ok(text)
}

fn line_of<J: Naming, R: Wait + Drop>(
    rt: &R,
    alloc: Global,
    seats: &mut [Seat<J, R>],
    line: &str,
) -> Result<String, Fail>
    requires { J.board.seats ≡ 3 }
{
    let (name, step) = line.split_once(' ').unwrap_or((line, ""));
    let number: usize = name.parse()?;
    let note = note_of(rt, seats, step)?;
    let Some(seat) = seats.get_mut(number) else {
        return Ok(String::new(alloc));
    };
    let answer = match note {
        Some(note) => {
            seat.learn(note);
            String::new(alloc)
        }
        None => answer(rt, alloc, seat, step)?,
    };
    let shown = shown(alloc, seat)?;
    Ok(format!(in alloc; "{line} => {answer}{shown}\n")?)
}

/// The note that the seat behind a `<` tells.
fn note_of<J: Naming, R: Wait + Drop>(
    rt: &R,
    seats: &[Seat<J, R>],
    step: &str,
) -> Result<Option<Note<J>>, Fail> {
    let Some(name) = step.strip_prefix("< ") else {
        return Ok(None);
    };
    let number: usize = name.parse()?;
    match seats.get(number) {
        Some(seat) => Ok(Some(seat.tell(rt)?)),
        None => Ok(None),
    }
}

/// Pins of what others have committed, commits on any base, on the head and on others, refusals, and notes. A stale base
/// is told before a fault of the edits, and a refusal leaves the pin.
const STEPS: &str = "0 pin => 0 of 0 0 0
1 any a => 1 of 0 1 0
0 pin => 1 of 0 1 0
2 0 b => the head is 1, 0 of 0 1 0
2 0 !lib => the head is 1, 0 of 0 1 0
2 1 b => 2 of 0 1 1
0 any !lib => ann has no grant of lib, 1 of 0 1 1
0 pin => 2 of 0 1 1
1 < 2 => 1 of 0 1 1
1 any !b => 3 of 0 2 1
0 < 1 => 2 of 0 2 1
0 3 a => 4 of 1 2 1
2 < 1 => 2 of 1 2 1
1 < 2 => 3 of 1 2 1
1 pin => 4 of 1 2 1
";

/// What the seats of a board do.
#[derive(Clone, Copy)]
enum Deeds {
    /// They take the steps.
    Steps,
    /// Each grants ann a prefix, in a thread of its own. Then they are tied, and the last one pins.
    Threads,
}

/// What three seats of this board tell of what they do.
fn told_by_three<J: Naming + Send + Sync, R: Wait + Threads + Sync>(
    rt: &R,
    alloc: Global,
    board: SharedBoard,
    deeds: Deeds,
) -> Result<String, Fail>
    requires board { board ≡ J.board }
    requires three { board.seats ≡ 3 }
{
    let (_shared, mut seats) = board.named::<J, R>(rt, alloc)?;
    let told = told_of(rt, alloc, seats.as_mut_slice(), deeds);
    close(seats);
    told
}

fn told_of<'a, J: Naming + Send + Sync, R: Wait + Threads + Sync>(
    rt: &'a R,
    alloc: Global,
    seats: &mut [Seat<J, &'a R>],
    deeds: Deeds,
) -> Result<String, Fail>
    requires three { J.board.seats ≡ 3 }
    requires all { AreSeats 3 seats.old }
{
    match deeds {
        Deeds::Steps => played(&rt, alloc, seats, STEPS.trim_end()),
        Deeds::Threads => all_tied(rt, alloc, seats),
    }
}

/// The same of a new board.
fn told<R: Wait + Threads + Sync>(rt: &R, alloc: Global, deeds: Deeds) -> Result<String, Fail> {
    told_by_three::<Brand, R>(rt, alloc, SharedBoard::make(3), deeds)
}

#[test]
fn seats_find_what_others_commit(rt: HostRuntime) -> Result<(), Fail> {
    let told = told(&rt, rt.alloc(), Deeds::Steps)?;
    assert_eq!(rt; told.as_str(), STEPS);
    Ok(())
}

fn all_tied<'a, J: Naming + Send + Sync, R: Wait + Threads + Sync>(
    rt: &'a R,
    alloc: Global,
    seats: &mut [Seat<J, &'a R>],
) -> Result<String, Fail>
    requires three { J.board.seats ≡ 3 }
    requires all { AreSeats 3 seats.old }
{
    let edits = [edit_of(alloc, "a")?];
    all_commit(rt, alloc, seats, &edits);
    tie(&rt, seats)?;
    match seats.last_mut() {
        Some(seat) => {
            seat.pin();
            shown(alloc, seat)
        }
        None => Ok(String::new(alloc)),
    }
}

fn all_commit<'a, J: Naming + Send + Sync, R: Wait + Threads + Sync>(
    rt: &'a R,
    alloc: Global,
    seats: &mut [Seat<J, &'a R>],
    edits: &[Edit],
)
    requires { AreSeats 3 seats.old }
    ensures { AreSeats 3 seats.new }
{
    thread::for_each_mut(rt, seats, 3, &|_, seat| commit_one(rt, alloc, seat, edits));
}

fn commit_one<'a, J: Naming, R: Wait>(
    rt: &'a R,
    alloc: Global,
    seat: &mut Seat<J, &'a R>,
    edits: &[Edit],
)
    ensures { seat.new.seat ≡ seat.old.seat }
{
    let _ = seat.commit(&rt, alloc, None, edits);
}

#[test]
fn threads_share_one_log(rt: HostRuntime) -> Result<(), Fail> {
    let told = told(&rt, rt.alloc(), Deeds::Threads)?;
    assert_eq!(rt; told.as_str(), "3 of 1 1 1");
    Ok(())
}
