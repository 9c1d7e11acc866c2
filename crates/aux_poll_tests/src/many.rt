//! Rows of many sessions: what the words, the calls of the port and the links are, and what comes of them.
ghost use Rattle.std.specs.Prelude.{◌≡◌, ◌<◌};

use crate::calls::every_second;
use futures::task::{Doorbell, Solo};
use graph_nodes::Steps;
use nav_poll::MemLink;
use poll_many::{MemPort, MemYard, run_many};
use std::alloc::{AllocError, AllocGlobal, Global};
use std::marker::Brand;
use std::random::RandomSource;
use std::sync::Wait;
use std::sync::ledger::{Blank, Ledger};
use std::test::*;
use std::thread::Threads;

/// Each row is the words, the accepts that wait, those that fail, the settles that fail, and the text of each link that waits
/// at the port; then the status, and the replies on each link that came back, in that order. In a text `h` is the operator's
/// `hello`, `p` is `pin`, `c` a commit without edits, `q` is `quit`. Every second pull of a link waits, and with `s` the
/// third one too. A reply is the number of its version, or `+` where it is `ok`.
const ROWS: &str = r#"4000 2 2;;;;hp hp => 0;00;00
4000 2 1;;;;hp hp => 0;00;00
0 1 1;;;;hp => 2
1 1;;;;hp => 2
4000 1 33;;;;hp => 2
4000 01 1;;;;hp => 2
4000 1000001 1;;;;hp => 2
4000 1 1;fails;;;hp => 8
4000 2 2;0 1 3;;;hp hp => 0;00;00
4000 3 2;;;;hc hp hpq => 0;01;11;11+
4000 3 2;;;;hp hp => 8;00;00
4000 3 2;;1;;hp hp hp => 8;
4000 3 2;0;;0;hp => 8
4000 3 2;1 2;;0;hps => 8;00"#;

/// The number that stands there, or 0.
fn number(word: &str) -> u32 {
    word.parse().unwrap_or(0)
}

/// The numbers, parted by blanks.
fn numbers(alloc: Global, text: &str) -> Result<Vec<u32>, AllocError> {
    let mut numbers = Vec::new(alloc);
    for word in text.split(' ') {
        if !word.is_empty() {
            numbers.push(number(word))?;
        }
    }
    Ok(numbers)
}

/// The lines of a text.
fn lines_of(alloc: Global, text: &str) -> Result<Vec<u8>, AllocError> {
    let mut lines = Vec::new(alloc);
    for letter in text.chars() {
        lines.extend_from_slice(match letter {
            'h' => b"{\"do\":\"hello\",\"user\":\"operator\"}\n".as_slice(),
            'p' => b"{\"do\":\"pin\"}\n".as_slice(),
            'c' => b"{\"do\":\"commit\",\"edits\":[]}\n".as_slice(),
            'q' => b"{\"do\":\"quit\"}\n".as_slice(),
            _ => b"".as_slice(),
        })?;
    }
    Ok(lines)
}

/// A link of that text, whose every second pull waits.
fn link_of(alloc: Global, text: &str) -> Result<MemLink, AllocError> {
    let mut waits = every_second(alloc, 1, 20)?;
    if text.ends_with('s') {
        waits.push(2)?;
    }
    Ok(MemLink::new(
        alloc,
        lines_of(alloc, text)?,
        1000,
        waits,
        Vec::new(alloc),
        Vec::new(alloc),
        Vec::new(alloc),
    ))
}

/// The links of these texts, parted by blanks.
fn links_of(alloc: Global, texts: &str) -> Result<Vec<MemLink>, AllocError> {
    let mut links = Vec::new(alloc);
    for text in texts.split(' ') {
        links.push(link_of(alloc, text)?)?;
    }
    Ok(links)
}

/// A yard of what stands behind the words: the calls of its port that wait and fail, and the links.
fn yard_of(alloc: Global, parts: &str) -> Result<MemYard, AllocError> {
    let (waits, parts) = cut(parts);
    let (fails, parts) = cut(parts);
    let (settles, texts) = cut(parts);
    let port = MemPort::new(
        links_of(alloc, texts)?,
        numbers(alloc, waits)?,
        numbers(alloc, fails)?,
        numbers(alloc, settles)?,
    );
    Ok(MemYard::new(port, waits == "fails"))
}

/// The words, parted by blanks.
fn words_of(alloc: Global, text: &str) -> Result<Vec<String>, AllocError> {
    let mut words = Vec::new(alloc);
    for word in text.split(' ') {
        words.push(String::from_str(alloc, word)?)?;
    }
    Ok(words)
}

/// What stands before the first semicolon, and what behind it.
fn cut(text: &str) -> (&str, &str) {
    text.split_once(';').unwrap_or((text, ""))
}

/// The replies on a link, each as a row has it.
fn push_replies(told: &mut String, held: &[u8]) -> Result<(), Fail> {
    told.push(';')?;
    for line in str::from_utf8(held)?.split('\n') {
        let version = line
            .trim_start_matches("{\"version\":")
            .trim_end_matches('}');
        told.push_str(match version {
            "{\"ok\":true" => "+",
            other => other,
        })?;
    }
    Ok(())
}

/// What came of a row: the status, and the replies on each link that came back.
fn told_of(alloc: Global, status: u8, links: &[MemLink]) -> Result<String, Fail> {
    let mut told = format!(in alloc; "{status}")?;
    for link in links {
        push_replies(&mut told, link.held())?;
    }
    Ok(told)
}

/// The links that came back.
fn links_back(alloc: Global, yard: MemYard) -> Vec<MemLink> {
    match yard.into_port() {
        Some(port) => port.into_links(),
        None => Vec::new(alloc),
    }
}

/// Serves what the words say, counting steps on a ledger of this blank, and tells the status.
fn status_on<R: Threads + Wait + Sync + RandomSource + AllocGlobal, L: Ledger>(
    rt: &R,
    words: &[String],
    yard: &mut MemYard,
    blank: Blank,
) -> Result<u8, Fail>
    requires name { blank.name ≡ L.name }
    requires parts { blank.parts ≡ L.parts }
    requires some { 0 < blank.parts }
{
    let solo = Solo::new(rt, Doorbell::spinning())?;
    let mut cx = solo.begin();
    let mut steps = Steps::<L>::new(blank);
    let status = run_many(rt, rt.alloc(), &mut cx, words, yard, &mut steps);
    cx.cancel();
    Ok(status)
}

/// Runs a row on a ledger that nobody reads, and tells its status and what came back.
fn ran<R: Threads + Wait + Sync + RandomSource + AllocGlobal>(
    rt: &R,
    alloc: Global,
    given: &str,
) -> Result<String, Fail> {
    let (words, parts) = cut(given);
    let words = words_of(alloc, words)?;
    let mut yard = yard_of(alloc, parts)?;
    let status = status_on::<R, Brand>(rt, &words, &mut yard, Blank::new(1))?;
    told_of(alloc, status, &links_back(alloc, yard))
}

#[test]
fn many_sessions_take_turns(rt: HostRuntime) -> Result<(), Fail> {
    for row in ROWS.split('\n') {
        let (given, wanted) = row.split_once(" => ").unwrap_or((row, ""));
        let told = ran(&rt, rt.alloc(), given)?;
        assert_eq!(rt; (given, told.as_str()), (given, wanted));
    }
    Ok(())
}
