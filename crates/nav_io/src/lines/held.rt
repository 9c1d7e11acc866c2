//! The bytes that a line reader holds: taking what is wanting of a line, and lending it.
ghost use Rattle.std.specs.{Prelude.{◌≡◌, ◌≢◌, ◌+◌, ◌<◌, ◌≤◌, ◌++◌, length, vec_len, drop, IfOk, IfErr, OnOk, OnErr, MatchOption, true, false}, Io.KnownBytes.{prepend_known, IsAtEnd}, Option.{option_copied}};
ghost use Rattle.nav_io.specs.{Faults.{HasRisen}, Lines.{line_max, line_len, line_at_front, after_line}, Reading.{reading_of, Finds, is_whole, has_bytes, bytes_at_front}};

use super::search::{find_newline, newline_after, within_limit};
use super::{LINE_MAX, LineError, NoMemory};
use crate::Source;
use crate::settling::Ballast;
use crate::taking::{CHUNK, LONG, let_go, take_chunk, take_until};

/// Lets go of the bytes before `start` where they are more than half, so that all calls together move no more
/// bytes than they let go.
fn compact_large(held: &mut Vec<u8>, start: &mut usize)
    requires { start.old ≤ vec_len held.old }
    ensures within { start.new ≤ vec_len held.new }
    ensures same { drop start.new held.new.items ≡ drop start.old held.old.items }
{
    if *start > held.len() / 2 {
        let_go(held, start);
    }
}

/// Puts bytes behind those that are held, where what is answered was let go of before, so that the room serves again.
pub(super) fn put_behind(
    held: &mut Vec<u8>,
    start: &mut usize,
    bytes: &[u8],
) -> Result<(), NoMemory>
    requires { start.old ≤ vec_len held.old }
    ensures within { start.new ≤ vec_len held.new }
    ensures ok { OnOk result
        (drop start.new held.new.items ≡ drop start.old held.old.items ++ bytes.now) }
    ensures err { OnErr result (drop start.new held.new.items ≡ drop start.old held.old.items) }
{
    compact_large(held, start);
    held.extend_from_slice(bytes).map_err(|_| NoMemory)
}

/// Takes chunks until a newline is held or the source is at its end, and answers the length of the first line. It takes
/// no chunk once more bytes are held than a line may have, so what is held has a bound.
fn fill<S: Source>(
    held: &mut Vec<u8>,
    chunk: &mut [u8],
    source: &mut S,
    ballast: &mut Ballast,
) -> Result<usize, LineError>
    requires room { CHUNK ≤ length chunk.old }
    requires no_newline { line_len held.old.items ≡ length held.old.items }
    ensures kept { prepend_known held.new.items (S.left source.new)
        ≡ prepend_known held.old.items (S.left source.old) }
    ensures ok { IfOk result (λ n. (line_len held.new.items ≡ n) × (n ≤ line_max)) }
    ensures end { IfOk result (λ n. n ≡ length held.new.items → IsAtEnd (S.left source.new)) }
    ensures too_long { result ≡ Err LineError.TooLong → line_max < line_len held.new.items }
    ensures fault { result ≡ Err LineError.ReadFault
        → line_len held.new.items ≡ length held.new.items }
    ensures memory { result ≡ Err LineError.NoMemory
        → (line_len held.new.items ≡ length held.new.items) × (length held.new.items ≤ line_max) }

    ensures count { S.faults source.old ≤ S.faults source.new }
    ensures cause { result ≡ Err LineError.ReadFault
        → HasRisen (S.faults source.old) (S.faults source.new) }
{
    ballast.take();
    while held.len() <= LINE_MAX {
        let before = held.len();
        if before > LONG {
            ballast.take_more();
        }
        let taken = take_chunk(held, chunk, source)?;
        if taken == 0 {
            return Ok(before);
        }
        if let Some(n) = newline_after(held, before) {
            return Ok(within_limit(before + n)?);
        }
    }
    Err(LineError::TooLong)
}

/// Takes what is wanting of the first line, and answers its length. Past the end of input the source isn't asked: one
/// that may give more, as a terminal, would be waited for again.
pub(super) fn find_line<S: Source>(
    held: &mut Vec<u8>,
    start: &mut usize,
    searched: &mut usize,
    ended: &mut bool,
    chunk: &mut [u8],
    source: &mut S,
    ballast: &mut Ballast,
) -> Result<usize, LineError>
    requires room { CHUNK ≤ length chunk.old }
    requires within { start.old ≤ vec_len held.old }
    requires searched { searched.old ≤ line_len (drop start.old held.old.items) }
    ensures within { start.new ≤ vec_len held.new }
    ensures searched { searched.new ≤ line_len (drop start.new held.new.items) }
    ensures unread { is_whole (reading_of start.old held.old.items ended.old) ≡ true
        → source.new ≡ source.old }
    ensures finds { Finds (reading_of start.old held.old.items ended.old)
        (reading_of start.new held.new.items ended.new) (S.left source.old) (S.left source.new) }

    ensures ok { IfOk result
        (λ n. (line_len (drop start.new held.new.items) ≡ n) × (n ≤ line_max)) }
    ensures end { IfOk result (λ n. n ≡ length (drop start.new held.new.items) → ended.new ≡ true) }
    ensures err { OnErr result (ended.new ≡ ended.old) }
    ensures too_long { IfErr result (λ e. e ≡ LineError.TooLong
        → line_max < line_len (drop start.new held.new.items)) }
    ensures fault { IfErr result (λ e. e ≡ LineError.ReadFault → (ended.old ≡ false)
        × (line_len (drop start.new held.new.items) ≡ length (drop start.new held.new.items))) }
    ensures memory { IfErr result (λ e. e ≡ LineError.NoMemory → (ended.old ≡ false)
        × (line_len (drop start.new held.new.items) ≡ length (drop start.new held.new.items))
        × (length (drop start.new held.new.items) ≤ line_max)) }

    ensures count { S.faults source.old ≤ S.faults source.new }
    ensures cause { result ≡ Err LineError.ReadFault
        → HasRisen (S.faults source.old) (S.faults source.new) }
{
    if let Some(len) = find_newline(held, *start, searched) {
        return Ok(within_limit(len)?);
    }
    // Room is taken for what is unanswered alone, and behind a line that was answered there is mostly little. After a very
    // long line what its answer left is given back too.
    if let_go(held, start) {
        ballast.give_back();
    }
    if *ended {
        return Ok(within_limit(held.len())?);
    }
    *searched = 0;
    let len = fill(held, chunk, source, ballast)?;
    *ended = len == held.len();
    Ok(len)
}

/// Lends the line of `len` bytes from `start` on, and moves `start` past it and its newline. The last line has none, so
/// `start` stops at the end.
pub(super) fn take_line<'a>(held: &'a [u8], start: &mut usize, len: usize) -> Option<&'a [u8]>
    requires within { start.old ≤ length held.now }
    requires line { line_len (drop start.old held.now) ≡ len }
    ensures within { start.new ≤ length held.now }
    ensures line { option_copied result ≡ line_at_front (drop start.old held.now) }
    ensures rest { drop start.new held.now ≡ after_line (drop start.old held.now) }
{
    let from = *start;
    if from == held.len() {
        return None;
    }
    let end = from + len;
    *start = held.len().min(end.saturating_add(1));
    Some(&held[from..end])
}

/// Takes what is wanting of `n` bytes. Past the end of input the source isn't asked, as in `find_line`.
pub(super) fn find_bytes<S: Source>(
    held: &mut Vec<u8>,
    start: &mut usize,
    ended: &mut bool,
    chunk: &mut [u8],
    source: &mut S,
    n: usize,
) -> Result<(), LineError>
    requires room { CHUNK ≤ length chunk.old }
    requires within { start.old ≤ vec_len held.old }
    ensures within { start.new ≤ vec_len held.new }
    ensures finds { Finds (reading_of start.old held.old.items ended.old)
        (reading_of start.new held.new.items ended.new) (S.left source.old) (S.left source.new) }
    ensures unread { has_bytes n (reading_of start.old held.old.items ended.old) ≡ true
        → source.new ≡ source.old }

    ensures ok { OnOk result (length (drop start.new held.new.items) < n → ended.new ≡ true) }
    ensures err { OnErr result ((ended.new ≡ ended.old) × (ended.old ≡ false)
        × (length (drop start.new held.new.items) < n)) }
    ensures not_long { result ≢ Err LineError.TooLong }

    ensures count { S.faults source.old ≤ S.faults source.new }
    ensures cause { result ≡ Err LineError.ReadFault
        → HasRisen (S.faults source.old) (S.faults source.new) }
{
    if *ended || held.len() - *start >= n {
        return Ok(());
    }
    let_go(held, start);
    *ended = take_until(held, chunk, source, n)?;
    Ok(())
}

/// Lends the `n` bytes from `start` on and moves `start` past them. Where there are fewer it lends nothing, and they stay
/// for a call that asks for less.
pub(super) fn take_bytes<'a>(held: &'a [u8], start: &mut usize, n: usize) -> Option<&'a [u8]>
    requires { start.old ≤ length held.now }
    ensures within { start.new ≤ length held.now }
    ensures bytes { option_copied result ≡ bytes_at_front n (drop start.old held.now) }
    ensures rest { MatchOption (option_copied result)
        (drop start.new held.now ≡ drop start.old held.now)
        (λ _. drop start.new held.now ≡ drop n (drop start.old held.now)) }
{
    let from = *start;
    if held.len() - from < n {
        return None;
    }
    *start = from + n;
    Some(&held[from..from + n])
}
