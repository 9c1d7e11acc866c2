//! Sessions polled over links that wait and fail at each place, beside the same ones served at once.
use crate::calls::{both, one_each};
use crate::given::{Given, polled, served};
use nav_io::{MemSink, MemSource};
use nav_poll::MemLink;
use std::alloc::{AllocError, AllocGlobal, Global};
use std::random::RandomSource;
use std::test::*;
use std::thread::Threads;

/// Each line of a session and its reply.
const SESSION: &str = r#"{"do":"hello","user":"operator"} => {"version":0}
{"do":"commit","edits":[{"put":"a.sg.json","text":"{\"nodes\":[{\"kind\":\"push\",\"symbol\":\"x\",\"reference\":true,\"span\":[0,0,0,1]},{\"kind\":\"scope\"},{\"kind\":\"pop\",\"symbol\":\"x\",\"definition\":true,\"span\":[1,0,1,1]}],\"edges\":[[0,1,0],[1,2,0]]}"}]} => {"version":1}
{"do":"define","path":"a.sg.json","node":0} => {"limit":false,"rows":[{"node":2,"path":"a.sg.json","span":[1,0,1,1]}]}
{"do":"references","path":"a.sg.json","line":1,"column":0} => {"limit":false,"rows":[{"node":0,"path":"a.sg.json","span":[0,0,0,1]}]}"#;

/// A line alone.
const HELLO: &str = "{\"do\":\"hello\",\"user\":\"operator\"}\n";

/// Lines with refusals, an end, and what stands behind it.
const SHORT: &str =
    "{\"do\":\"hello\",\"user\":\"operator\"}\n\n{\"do\":\"pin\"}\nx\n{\"do\":\"quit\"}\n{\"do\":\"pin\"}\n{\"do\"";

/// More polls than any of these sessions takes.
const MOST: u32 = 100_000;

/// The number of a call that none of these sessions makes.
const NEVER: u32 = 10_000;

/// A link in pieces of that size, of which every second pull and push waits, from the first number on and below the second
/// one, and that pull and that push fail.
fn link_of(
    alloc: Global,
    bytes: &[u8],
    piece: u32,
    waits: [(u32, u32); 2],
    fails: [u32; 2],
) -> Result<MemLink, AllocError> {
    let (pulls, pushes) = both(alloc, waits[0], waits[1])?;
    let (bad_pulls, bad_pushes) = one_each(alloc, fails)?;
    Ok(MemLink::new(
        alloc,
        bytes.to_vec(alloc)?,
        piece.max(1),
        pulls,
        pushes,
        bad_pulls,
        bad_pushes,
    ))
}

/// The lines of the session, or the replies to them.
fn side(alloc: Global, replies: bool) -> Result<Vec<u8>, AllocError> {
    let mut text = Vec::new(alloc);
    for row in SESSION.split('\n') {
        let (line, reply) = row.split_once(" => ").unwrap_or((row, ""));
        let part = if replies { reply } else { line };
        text.extend_from_slice(part.as_bytes())?;
        text.push(b'\n')?;
    }
    Ok(text)
}

/// What the session gives byte by byte, over a link that waits at every second pull.
fn byte_by_byte<R: Threads + Sync + RandomSource + AllocGlobal>(
    rt: &R,
    alloc: Global,
) -> Result<Given, Fail> {
    let lines = side(alloc, false)?;
    let link = link_of(alloc, &lines, 1, [(1, 2000), (0, 0)], [NEVER, NEVER])?;
    polled(rt, alloc, link, MOST)
}

#[test]
fn a_session_is_answered_byte_by_byte(rt: HostRuntime) -> Result<(), Fail> {
    let given = byte_by_byte(&rt, rt.alloc())?;
    assert!(rt; given.status == 0);
    let replies = side(rt.alloc(), true)?;
    assert!(rt; given.written == replies);
    Ok(())
}

/// What so many polls give of a session of one line, of whose reply the second part has to wait.
fn polled_in_parts<R: Threads + Sync + RandomSource + AllocGlobal>(
    rt: &R,
    alloc: Global,
    most: u32,
) -> Result<Given, Fail> {
    let link = link_of(alloc, HELLO.as_bytes(), 8, [(0, 0), (1, 2)], [NEVER, NEVER])?;
    polled(rt, alloc, link, most)
}

#[test]
fn a_reply_goes_on_where_it_had_to_wait(rt: HostRuntime) -> Result<(), Fail> {
    let first = polled_in_parts(&rt, rt.alloc(), 1)?;
    assert!(rt; first.pending == 1 && first.written.as_slice() == "{\"versio".as_bytes());
    let both = polled_in_parts(&rt, rt.alloc(), 2)?;
    assert!(rt; both.status == 0 && both.written.as_slice() == "{\"version\":0}\n".as_bytes());
    Ok(())
}

/// What a source and a sink in pieces of that size give, of which that read and that write fail.
fn served_of<R: Threads + Sync>(
    rt: &R,
    alloc: Global,
    bytes: &[u8],
    piece: u32,
    fails: [u32; 2],
) -> Result<Given, Fail> {
    let piece = piece.max(1);
    let (reads, writes) = one_each(alloc, fails)?;
    let source = MemSource::new(bytes.to_vec(alloc)?, piece, reads);
    served(rt, alloc, source, MemSink::new(alloc, piece, writes))
}

/// The number of the call that is the `n`th of those that don't wait, where every second one waits.
fn among_waits(n: u32) -> u32 {
    n.saturating_mul(2).saturating_add(1)
}

/// Whether a session of which that pull and that push fail is the same over a link that waits at every second call and over
/// a source and a sink, in pieces of that size. The calls that wait aren't counted among those that fail.
fn is_same<R: Threads + Sync + RandomSource + AllocGlobal>(
    rt: &R,
    alloc: Global,
    bytes: &[u8],
    piece: u32,
    fails: [u32; 2],
) -> Result<bool, Fail> {
    let link = link_of(
        alloc,
        bytes,
        piece,
        [(0, 400), (0, 400)],
        [among_waits(fails[0]), among_waits(fails[1])],
    )?;
    let one = polled(rt, alloc, link, MOST)?;
    let other = served_of(rt, alloc, bytes, piece, fails)?;
    Ok(one.status == other.status && one.written == other.written)
}

#[test]
fn a_cut_session_is_the_same_polled_and_served(rt: HostRuntime) -> Result<(), Fail> {
    let short = SHORT.as_bytes();
    let mut same = 0usize;
    for n in 0..short.len() {
        let piece = 1 + (n % 9) as u32;
        if is_same(&rt, rt.alloc(), &short[..n], piece, [NEVER, NEVER])? {
            same = same.saturating_add(1);
        }
    }
    assert_eq!(rt; same, short.len());
    Ok(())
}

#[test]
fn a_failing_session_is_the_same_polled_and_served(rt: HostRuntime) -> Result<(), Fail> {
    let (short, alloc) = (SHORT.as_bytes(), rt.alloc());
    let mut same = 0u32;
    for n in 0..40u32 {
        if is_same(&rt, alloc, short, 3, [n, NEVER])?
            && is_same(&rt, alloc, short, 3, [NEVER, n])?
        {
            same = same.saturating_add(1);
        }
    }
    assert_eq!(rt; same, 40);
    Ok(())
}
