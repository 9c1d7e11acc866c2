//! The whole program, but for making the outside.
ghost use Rattle.std.specs.Prelude.{◌≡◌, false};
ghost use Rattle.nav_doors.specs.{Connections.{outside}, Houses.{house_with}};
ghost use Rattle.nav_serve.specs.{Words.{command_of, texts}, Outside.{seen_at, scene}, Headline.{Keeps, used_by}};

use crate::session::run_session;
use crate::tasks::{Task, perform};
use crate::words::{Command, command_or_status};
use graph_nodes::Steps;
use nav_demo::demo;
use nav_doors::serve_house;
use nav_io::{Door, House, Sink, Source, Unguarded};
use nav_lsp::serve_lsp;
use nav_session::Means;
use std::sync::Wait;
use std::sync::ledger::Ledger;
use std::thread::Threads;
use version_board::Commits;

/// Does what the words after the program's name say, and gives the status with which the program
/// ends.
///
/// The words are exactly one command's name: `once` or `upgrade`, which use the source and the sink
/// alone, or `run` or `lsp`, which serve a session on the board and count steps besides; or they are
/// `demo` and two numbers, which uses the sink, the board and the steps, or `serve` and three numbers,
/// which serves the doors of the house on a board of its own. With any others the status is 2, and
/// nothing is read or written; or 5 where memory is refused before the words are read, whatever they
/// are. The other statuses are those of the commands. It may wait, for `serve` does: what each other
/// command does is a function without that leave, and ends.
pub fn run<R: Threads + Wait + Sync, S: Source, K: Sink, H: House, B: Commits<R>, L: Ledger>(
    means: &Means<'_, R, Unguarded>,
    words: &[String],
    source: &mut S,
    sink: &mut K,
    house: &mut H,
    board: &mut B,
    steps: &mut Steps<L>,
) -> u8
where
    H::D: Send + Drop,
    <H::D as Door>::S: Send,
    <H::D as Door>::K: Send,
    // What its user relies on, command by command: specs/Headline.antt.
    ensures keeps { let before = scene (seen_at S.Source K.Sink source.old sink.old)
        (house_with (H.gave house.old) (H.got_back house.old) (H.faults house.old))
        (B.seat board.old) (B.log board.old) in
        let after = scene (seen_at S.Source K.Sink source.new sink.new)
        (house_with (H.gave house.new) (H.got_back house.new) (H.faults house.new))
        (B.seat board.new) (B.log board.new) in
        Keeps
        (outside H.D.gave H.D.got_back H.D.faults H.D.S.left H.D.S.faults H.D.K.held H.D.K.faults)
        (command_of (texts words.now)) before after result }

    // What isn't used stays: all of it, where the words are no command.
    ensures unused_source { (used_by (command_of (texts words.now))).source ≡ false
        → source.new ≡ source.old }
    ensures unused_sink { (used_by (command_of (texts words.now))).sink ≡ false
        → sink.new ≡ sink.old }
    ensures unused_house { (used_by (command_of (texts words.now))).house ≡ false
        → house.new ≡ house.old }
    ensures unused_board { (used_by (command_of (texts words.now))).board ≡ false
        → board.new ≡ board.old }
    ensures unused_steps { (used_by (command_of (texts words.now))).steps ≡ false
        → steps.new ≡ steps.old }
{
    let Means { rt, alloc, .. } = *means;
    match command_or_status(alloc, words) {
        Ok(Command::Once) => perform(Task::Once, alloc, source, sink),
        Ok(Command::Upgrade) => perform(Task::Upgrade, alloc, source, sink),
        Ok(Command::Run) => run_session(means, source, sink, board, steps),
        Ok(Command::Lsp) => serve_lsp(means, board, source, sink, steps),
        Ok(Command::Demo { files, start }) => demo(rt, alloc, files, start, sink, board, steps),
        Ok(
            Command::Serve {
                port,
                doors,
                connections,
            },
        ) => serve_house(rt, alloc, house, port, doors, connections),
        Err(status) => status,
    }
}
