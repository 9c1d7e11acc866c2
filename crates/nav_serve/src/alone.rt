//! The words run on a board of their own, which no other session sees.
ghost use Rattle.std.specs.Prelude.{◌≡◌, ◌<◌, false, IsTrue};
ghost use Rattle.nav_doors.specs.{Connections.{outside}, Houses.{house_with}};
ghost use Rattle.nav_serve.specs.{Words.{command_in}, Outside.{seen_at}, Headline.{KeepsAlone, refuses, used_by}};

use crate::running::run;
use crate::words::command_or_status;
use graph_nodes::Steps;
use nav_demo::trees_have_one_summary;
use nav_io::{Door, House, Sink, Source, Unguarded};
use nav_lsp::messages_have_one_script;
use nav_session::{BAD_WORDS, Halt, Means, first_lines_have_one_script};
use std::alloc::Global;
use std::io;
use std::io::ErrorKind;
use std::sync::Wait;
use std::sync::ledger::{Blank, Ledger};
use std::thread::Threads;
use version_board::PlainBoard;

/// Does what the words say on a board that has no version yet and no other seat, and gives the
/// status: that of `run`, or 5 where memory for the words or the board was refused. Words that can't
/// be had are no command: the status is 5 where memory for them was refused, and else 2. Where the
/// words are no command, no board is made. Steps are counted on a ledger that is opened from `blank`,
/// and nobody reads them.
pub fn run_alone<R: Threads + Wait + Sync, S: Source, K: Sink, H: House, L: Ledger>(
    rt: &R,
    alloc: Global,
    words: &io::Result<Vec<String>>,
    source: &mut S,
    sink: &mut K,
    house: &mut H,
    blank: Blank,
) -> u8
where
    H::D: Send + Drop,
    <H::D as Door>::S: Send,
    <H::D as Door>::K: Send,
    // No step is counted yet.
    requires name { blank.name ≡ L.name }
    requires parts { blank.parts ≡ L.parts }
    requires some { 0 < blank.parts }

    // What its user relies on, command by command: specs/Headline.antt.
    ensures keeps { KeepsAlone
        (outside H.D.gave H.D.got_back H.D.faults H.D.S.left H.D.S.faults H.D.K.held H.D.K.faults)
        (command_in words.now)
        (seen_at S.Source K.Sink source.old sink.old) (seen_at S.Source K.Sink source.new sink.new)
        (house_with (H.gave house.old) (H.got_back house.old) (H.faults house.old))
        (house_with (H.gave house.new) (H.got_back house.new) (H.faults house.new)) result }

    // What isn't used stays: all of it, where the words are no command.
    ensures unused_source { (used_by (command_in words.now)).source ≡ false
        → source.new ≡ source.old }
    ensures unused_sink { (used_by (command_in words.now)).sink ≡ false
        → sink.new ≡ sink.old }
    ensures unused_house { (used_by (command_in words.now)).house ≡ false
        → house.new ≡ house.old }
{
    let mut steps = Steps::<L>::new(blank);
    let words = match words {
        Ok(words) => words.as_slice(),
        Err(error) => return status_without_words(error.kind()),
    };
    if let Err(status) = command_or_status(alloc, words) {
        return status;
    }
    let Ok(mut board) = PlainBoard::new(alloc) else {
        return Halt::NoMemory.status();
    };
    let means = Means {
        rt,
        alloc,
        gate: &Unguarded,
    };
    let status = run(&means, words, source, sink, house, &mut board, &mut steps);
    let _entries = board.len();
    first_lines_have_one_script();
    messages_have_one_script();
    trees_have_one_summary();
    status
}

/// Words that can't be had for another reason than memory aren't UTF-8, and so no command.
fn status_without_words(kind: ErrorKind) -> u8
    ensures memory { kind ≡ ErrorKind.OutOfMemory → result ≡ 5 }
    ensures bad { (kind ≡ ErrorKind.OutOfMemory → ⊥) → result ≡ 2 }
    ensures status { IsTrue (refuses result) }
{
    match kind {
        ErrorKind::OutOfMemory => Halt::NoMemory.status(),
        _ => BAD_WORDS,
    }
}
