//! The lines of a row that states what a command does.
use crate::row::{Exchange, Row, Way, number, numbers, words_of};
use crate::texts::{escaped, plain};
use aux_graph_text::TextFault;
use lsp_frames::frame_text;
use std::alloc::{AllocError, Global};

/// The bytes that a text stands for, as the mark in front of it says.
fn text_of(alloc: Global, mark: &str, text: &str) -> Result<Vec<u8>, TextFault> {
    match mark {
        ">\\" | "<\\" => escaped(alloc, text),
        ">." | "<." => plain(alloc, text),
        ">>" | "<<" => {
            let body = plain(alloc, text)?;
            Ok(frame_text(alloc, body.as_slice())?)
        }
        ">" | "<" | "or" => {
            let mut bytes = plain(alloc, text)?;
            bytes.push(b'\n')?;
            Ok(bytes)
        }
        _ => Err(TextFault::Word),
    }
}

/// Adds bytes to the input of an exchange, to what is to be written, or to what may be written instead.
fn push_bytes(
    alloc: Global,
    exchange: &mut Exchange,
    mark: &str,
    bytes: &[u8],
) -> Result<(), AllocError> {
    if mark.starts_with('>') {
        exchange.input.extend_from_slice(bytes)?;
    } else if mark == "or" {
        exchange
            .or
            .get_or_insert(Vec::new(alloc))
            .extend_from_slice(bytes)?;
    } else {
        exchange.wanted.extend_from_slice(bytes)?;
    }
    Ok(())
}

/// Adds a text so often; `§` in it stands for the number of the repetition, from 1.
fn push_text(
    alloc: Global,
    exchange: &mut Exchange,
    mark: &str,
    text: &str,
    times: u32,
) -> Result<(), TextFault> {
    if !text.contains('§') {
        let bytes = text_of(alloc, mark, text)?;
        for _ in 0..times {
            push_bytes(alloc, exchange, mark, &bytes)?;
        }
        return Ok(());
    }
    for time in 0..times {
        let number = format!(in alloc; "{}", time.saturating_add(1))?;
        let numbered = text.replace(alloc, '§', number.as_str())?;
        let bytes = text_of(alloc, mark, numbered.as_str())?;
        push_bytes(alloc, exchange, mark, &bytes)?;
    }
    Ok(())
}

/// Takes a line that says something of the last exchange.
fn take_of_exchange(
    alloc: Global,
    exchange: &mut Exchange,
    word: &str,
    rest: &str,
    times: u32,
) -> Result<(), TextFault> {
    match word {
        "read" => exchange.reads.push(number(rest)?)?,
        "write" => exchange.writes.push(number(rest)?)?,
        "first" => exchange.wanted.truncate(number(rest)? as usize),
        "unused" => exchange.unused = true,
        _ => push_text(alloc, exchange, word, rest, times)?,
    }
    Ok(())
}

/// The way that the words behind `each` name.
fn way_of(text: &str) -> Result<Way, TextFault> {
    match text {
        "cut" => Ok(Way::EachCut),
        "read" => Ok(Way::EachRead),
        "write" => Ok(Way::EachWrite),
        _ => Err(TextFault::Word),
    }
}

/// Takes one line of a row.
pub fn take_line(alloc: Global, row: &mut Row, line: &str) -> Result<(), TextFault> {
    let (word, rest) = line.split_once(' ').unwrap_or((line, ""));
    row.begun = true;
    match word {
        "words" => row.words = words_of(alloc, rest)?,
        "status" => row.status = u8::try_from(number(rest)?).unwrap_or(u8::MAX),
        "piece" => row.pieces = numbers(alloc, rest)?,
        "takes" => row.takes = Some(number(rest)?),
        "typed" => row.way = Way::Typed,
        "each" => row.way = way_of(rest)?,
        "times" => row.times = number(rest)?,
        "door" => row.doors = row.doors.saturating_add(1),
        "pair" => row.exchanges.push(Exchange::new(alloc, row.doors))?,
        _ => {
            let times = row.times;
            row.times = 1;
            let Some(exchange) = row.exchanges.last_mut() else {
                return Err(TextFault::Word);
            };
            take_of_exchange(alloc, exchange, word, rest, times)?;
        }
    }
    Ok(())
}
