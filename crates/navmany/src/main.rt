//! The program `navmany`: serves many clients on one thread, as its words say: a port of 127.0.0.1, connections, seats.
#![tactic(auto)]

ghost use Rattle.std.specs.Prelude.{◌≡◌, ◌<◌};

mod guard;
mod link;
mod port;
mod told;
mod yard;

use crate::told::Told;
use crate::yard::MioYard;
use futures::executor::block_on;
use futures::future::lazy;
use graph_nodes::Steps;
use poll_many::run_many;
use std::alloc::AllocGlobal;
use std::cell::Cell;
use std::marker::Brand;
use std::net::Net;
use std::process::ExitCode;
use std::random::RandomSource;
use std::sync::Wait;
use std::sync::ledger::{Blank, Ledger};
use std::thread::Threads;
use std::{env, io};

/// What standard error tells where the words are no such words.
const USAGE: &str =
    "usage: navmany PORT CONNECTIONS SEATS (1 to 65535, 1 to 1000000, 1 to 32); README.md and docs/FORMATS.md say more";

/// The status where the words are no such words.
const BAD_WORDS: u8 = 2;

/// The status where memory was refused.
const NO_MEMORY: u8 = 5;

fn main(rt: HostRuntime) -> ExitCode {
    let told = Told { rt: &rt };
    let status = match words_of(&rt) {
        Ok(words) => serve::<_, Brand>(&rt, &told, &words, Blank::new(1)),
        Err(_) => BAD_WORDS,
    };
    let why = why(status);
    if !why.is_empty() {
        let _ = eprintln!(rt; "{why}");
    }
    ExitCode::from(status)
}

/// Serves as the words say, and gives the status.
fn serve<R: Threads + Wait + Sync + RandomSource + AllocGlobal + Net, L: Ledger>(
    rt: &R,
    told: &Told<'_>,
    words: &[String],
    blank: Blank,
) -> u8
    requires name { blank.name ≡ L.name }
    requires parts { blank.parts ≡ L.parts }
    requires some { 0 < blank.parts }
{
    let mut steps = Steps::<L>::new(blank);
    let alloc = rt.alloc();
    let again = Cell::new(false);
    let mut yard = MioYard::new(rt, alloc, told, &again);
    // The one poll does it all, and waits until it is done. So the sessions have a context.
    let all = lazy(|cx| run_many(rt, alloc, cx, words, &mut yard, &mut steps));
    block_on(rt, all).unwrap_or(NO_MEMORY)
}

/// What standard error tells of a status. Of 8 it tells nothing, since the yard and the port told what was refused.
fn why(status: u8) -> &'static str {
    match status {
        0 => "navmany: all connections were served",
        BAD_WORDS => USAGE,
        NO_MEMORY => "navmany: memory was refused",
        _ => "",
    }
}

/// The words after the program's name. It fails where one isn't UTF-8, and so no number.
fn words_of(rt: &HostRuntime) -> io::Result<Vec<String>> {
    let mut words = Vec::new(rt.alloc());
    for word in env::args(rt)?.skip(1) {
        words.push(word)?;
    }
    Ok(words)
}
