//! The program `navd`: makes the outside, does what the words after its name say, and ends with its
//! status.
#![tactic(auto)]

use line_counter::Counted;
use nav_io::{StdSink, StdSource, TcpHouse};
use nav_serve::run_alone;
use std::cell::Cell;
use std::marker::Brand;
use std::process::ExitCode;
use std::sync::ledger::Blank;
use std::{env, io};

mod opened;
mod told;

use crate::opened::Opened;
use crate::told::Told;

/// What standard error tells where the words are no command.
const USAGE: &str =
    "usage: navd run | navd lsp | navd once | navd upgrade (each of these reads standard input) | navd demo FILES START (1 to 2048, 0 to 4294967295) | navd serve PORT DOORS CONNECTIONS (1 to 65535, 1 to 32, 1 to 1000); README.md and docs/FORMATS.md say more";

/// The status where the words are no command.
const BAD_WORDS: u8 = 2;

/// The status where memory was refused before a command began.
const NO_MEMORY: u8 = 5;

/// The status where a line or a message is too long.
const LONG_LINE: u8 = 6;

/// The status where the input isn't cut into messages.
const NO_MESSAGES: u8 = 9;

fn main(rt: HostRuntime) -> ExitCode {
    let told = Told { rt: &rt };
    let replies = Cell::new(0);
    let first = Cell::new(0);
    let words = words_of(&rt);
    let mut source = StdSource::new(Opened {
        reader: rt.stdin(),
        first: &first,
    });
    let mut sink = StdSink::new(Counted {
        writer: rt.stdout(),
        lines: &replies,
    });
    let mut house = TcpHouse::new(&rt, &told);
    let status = run_alone::<_, _, _, _, Brand>(
        &rt,
        rt.alloc(),
        &words,
        &mut source,
        &mut sink,
        &mut house,
        Blank::new(1),
    );
    explain(&rt, named(&words), status, replies.get(), first.get());
    ExitCode::from(status)
}

/// Tells on standard error why the program did no more: with so many replies written, and an input that begins with
/// this byte.
fn explain(rt: &HostRuntime, command: Spoken, status: u8, replies: usize, first: u8) {
    match (command, status) {
        (Spoken::Run, LONG_LINE) => {
            // Each line before it has one reply.
            let line = replies.saturating_add(1);
            let _ = eprintln!(rt; "navd: line {line} has more than 8388608 bytes");
        }
        (Spoken::Lsp, NO_MESSAGES) if first == b'{' => {
            let _ = eprintln!(rt;
                "navd: lsp reads messages, each behind a header Content-Length; navd run reads lines of JSON"
            );
        }
        (Spoken::Serve, 0) => {
            let _ = eprintln!(rt; "navd: each door has had its connections");
        }
        _ => {
            let why = why(status);
            if !why.is_empty() {
                let _ = eprintln!(rt; "{why}");
            }
        }
    }
}

/// The commands of which standard error tells more than why a status came.
#[derive(Clone, Copy)]
enum Spoken {
    Run,
    Lsp,
    Serve,
    Other,
}

/// The command that the first word names.
fn named(words: &io::Result<Vec<String>>) -> Spoken {
    let Ok(words) = words else {
        return Spoken::Other;
    };
    match words.first() {
        Some(word) if word.as_str() == "run" => Spoken::Run,
        Some(word) if word.as_str() == "lsp" => Spoken::Lsp,
        Some(word) if word.as_str() == "serve" => Spoken::Serve,
        _ => Spoken::Other,
    }
}

/// What standard error tells of a status, in one line: why the program did no more. Of 0 it tells nothing, nor of 8, where
/// the house told what the system refused.
fn why(status: u8) -> &'static str {
    match status {
        BAD_WORDS => USAGE,
        1 => "navd: the editor left without shutdown",
        3 => "navd: reading standard input failed",
        4 => "navd: writing standard output failed",
        NO_MEMORY => "navd: memory was refused",
        LONG_LINE => "navd: a line or a message has more than 8388608 bytes",
        7 => "navd: 1000000 lines or messages were answered, and more input stands behind them",
        NO_MESSAGES =>
            "navd: the input isn't cut into messages as the protocol has it, or ends within one",
        _ => "",
    }
}

/// The words after the program's name. It fails where one isn't UTF-8, and so no command.
fn words_of(rt: &HostRuntime) -> io::Result<Vec<String>> {
    let mut words = Vec::new(rt.alloc());
    for word in env::args(rt)?.skip(1) {
        words.push(word)?;
    }
    Ok(words)
}
