ghost use Rattle.std.specs.{Prelude.{◌≡◌, ◌⊎◌, None, Some, IfOk, IfErr}, List.{list_any}, String.{string_bytes}};
ghost use Rattle.clap.specs.Words.{found_of, rows_of, subcommand_rows_of};
ghost use Rattle.nav_serve.specs.{CommandLine.{chosen, chosen_of, has_hyphen, number_at}, Ended.{or_status}, Words.{command_named, command_of, demo_of, number_of, serve_of, spelled, with_digit, texts}};

use crate::parser::command_line;
use clap::ArgMatches;
use clap::error::ErrorKind;
use nav_session::{BAD_WORDS, Halt};
use std::alloc::{AllocError, Global};

/// A command of the program.
#[derive(Clone, Copy, Debug, PartialEq, Eq)]
pub enum Command {
    /// Answers one reference of one graph.
    Once,
    /// Writes a graph file in format 2.
    Upgrade,
    /// Serves one session.
    Run,
    /// Serves an editor by the Language Server Protocol.
    Lsp,
    /// Commits and queries a made tree of so many files, 1 to 2,048, that is drawn from this start.
    Demo {
        files: u32,
        start: u32,
    },
    /// Serves clients at the port, 1 to 65,535, by so many doors, 1 to 32, each for so many
    /// connections, 1 to 1,000.
    Serve {
        port: u16,
        doors: u32,
        connections: u32,
    },
}

/// The command that the words are, if they are one: exactly one word, a command's name, or `demo`
/// and two numbers, or `serve` and three. A word that begins with a hyphen is part of no command. It
/// fails where memory is refused.
pub fn command_of(alloc: Global, words: &[String]) -> Result<Option<Command>, AllocError>
    ensures { IfOk result (λ command. command ≡ command_of (texts words.now)) }
{
    if has_hyphens(words) {
        return Ok(None);
    }
    match command_line(alloc)?.try_get_matches_from(words) {
        Ok(matches) => Ok(chosen_of(&matches)),
        Err(error) => refused(error.kind()),
    }
}

/// The command that the words are, or the status that tells why there is none: 2 where they are no
/// command, and 5 where memory is refused before they are read.
pub(crate) fn command_or_status(alloc: Global, words: &[String]) -> Result<Command, u8>
    ensures command { IfOk result (λ command. command_of (texts words.now) ≡ Some command) }
    ensures none { IfErr result
        (λ status. ((status ≡ 2) × (command_of (texts words.now) ≡ None)) ⊎ (status ≡ 5)) }
{
    or_status(command_of(alloc, words))
}

/// The command that was found in words, or the status that tells why there is none.
fn or_status(found: Result<Option<Command>, AllocError>) -> Result<Command, u8>
    ensures { result ≡ or_status found }
{
    match found {
        Ok(Some(command)) => Ok(command),
        Ok(None) => Err(BAD_WORDS),
        Err(_) => Err(Halt::NoMemory.status()),
    }
}

/// No command, unless memory was refused: then nothing is known of the words.
fn refused(kind: ErrorKind) -> Result<Option<Command>, AllocError>
    ensures { IfOk result
        (λ command. (command ≡ None) × (kind ≡ ErrorKind.OutOfMemory → ⊥)) }
{
    match kind {
        ErrorKind::OutOfMemory => Err(AllocError),
        _ => Ok(None),
    }
}

/// Asked before `clap` is, which takes a word that begins with a hyphen for an option.
fn has_hyphens(words: &[String]) -> bool
    ensures { result ≡ list_any (λ word. has_hyphen (string_bytes word)) words.now }
{
    words.iter().any(|word| has_hyphen(word.as_str()))
}

fn has_hyphen(word: &str) -> bool
    ensures { result ≡ has_hyphen word.now }
{
    matches!(word.as_bytes(), [b'-', ..])
}

fn chosen_of(matches: &ArgMatches<'_>) -> Option<Command>
    ensures { result ≡ chosen_of (subcommand_rows_of matches.now) }
{
    let (name, values) = matches.subcommand()?;
    chosen(name, values)
}

/// `demo` and `serve` have numbers behind them; each other command is a word alone.
fn chosen(name: &str, values: &ArgMatches<'_>) -> Option<Command>
    ensures { result ≡ chosen name.now (rows_of (found_of values.now)) }
{
    if name == "demo" {
        demo_of(number_at(values, "files"), number_at(values, "start"))
    } else if name == "serve" {
        serve_of(
            number_at(values, "port"),
            number_at(values, "doors"),
            number_at(values, "connections"),
        )
    } else {
        command_named(name)
    }
}

fn number_at(values: &ArgMatches<'_>, id: &str) -> Option<u32>
    ensures { result ≡ number_at id.now (rows_of (found_of values.now)) }
{
    number_of(values.get_str(id)?)
}

/// So many files, 1 to 2,048, which is as many as a version holds.
fn demo_of(files: Option<u32>, start: Option<u32>) -> Option<Command>
    ensures { result ≡ demo_of files start }
{
    match (files, start) {
        (Some(files), Some(start)) if 1 <= files && files <= 2048 => Some(Command::Demo {
            files,
            start,
        }),
        _ => None,
    }
}

/// A port is 1 to 65,535; doors are 1 to 32, since each has a seat of its own and a board has no more; connections
/// are 1 to 1,000.
fn serve_of(port: Option<u32>, doors: Option<u32>, connections: Option<u32>) -> Option<Command>
    ensures { result ≡ serve_of port doors connections }
{
    match (port, doors, connections) {
        (Some(port), Some(doors), Some(connections))
            if 1 <= port
                && port <= 65535
                && 1 <= doors
                && doors <= 32
                && 1 <= connections
                && connections <= 1000 => {
            Some(Command::Serve {
                port: port as u16,
                doors,
                connections,
            })
        }
        _ => None,
    }
}

/// The number that the word is: decimal digits without a sign, and without a zero in front but `0`
/// itself, so that a number has one spelling.
fn number_of(word: &str) -> Option<u32>
    ensures { result ≡ number_of word.now }
{
    match word.as_bytes() {
        [] => None,
        [byte, rest @ ..] => {
            if *byte != b'0' {
                spelled(word.as_bytes())
            } else if rest.is_empty() {
                Some(0)
            } else {
                None
            }
        }
    }
}

/// The number that the digits spell, if it is at most 2^32 - 1.
fn spelled(digits: &[u8]) -> Option<u32>
    ensures { result ≡ spelled 0 digits.now }
{
    let mut n = 0;
    for byte in digits {
        n = with_digit(n, *byte)?;
    }
    Some(n)
}

/// The number with one digit more. It is made in 64 bits, which hold ten times any number of 32 and a digit.
fn with_digit(n: u32, byte: u8) -> Option<u32>
    ensures { result ≡ with_digit n byte }
{
    if byte < b'0' || b'9' < byte {
        return None;
    }
    let more = u64::from(n) * 10 + u64::from(byte - b'0');
    u32::try_from(more).ok()
}

fn command_named(word: &str) -> Option<Command>
    ensures { result ≡ command_named word.now }
{
    if word == "once" {
        return Some(Command::Once);
    }
    if word == "upgrade" {
        return Some(Command::Upgrade);
    }
    if word == "run" {
        return Some(Command::Run);
    }
    if word == "lsp" {
        return Some(Command::Lsp);
    }
    None
}
