//! Where the first line of the bytes ends that a line reader holds.
ghost use Rattle.std.specs.{Prelude.{◌≡◌, ◌≤◌, ◌<◌, vec_len, drop, IfOk, OnOk, OnErr, MatchOption, true, false}, List.{position}};
ghost use Rattle.nav_io.specs.{Lines.{line_max, line_len, is_newline}, Reading.{is_whole}, Search.{FindsNewline}};

use super::{LINE_MAX, TooLong};

fn newline_in(bytes: &[u8]) -> Option<usize>
    ensures { result ≡ position is_newline bytes.now }
{
    bytes.iter().position(|byte| *byte == b'\n')
}

/// How many bytes stand between `from` and the first newline after it, if there is one.
#[tactic(auto, using(crate::proofs::Cuts::line_ends))]
pub(super) fn newline_after(held: &Vec<u8>, from: usize) -> Option<usize>
    requires { from ≤ vec_len held.now }
    ensures { FindsNewline result (drop from held.now.items) }
{
    newline_in(&held[from..])
}

/// Where the first newline stands from `start` on, if there is one. The first `searched` bytes from there are known to be
/// none and aren't searched again, so that a line which comes in many pieces costs time in its length.
pub(super) fn find_newline(held: &Vec<u8>, start: usize, searched: &mut usize) -> Option<usize>
    requires within { start ≤ vec_len held.now }
    requires searched { searched.old ≤ line_len (drop start held.now.items) }
    ensures found { FindsNewline result (drop start held.now.items) }
    ensures searched { searched.new ≤ line_len (drop start held.now.items) }
{
    match newline_after(held, start + *searched) {
        Some(n) => {
            *searched += n;
            Some(*searched)
        }
        None => {
            *searched = held.len() - start;
            None
        }
    }
}

/// A line of this many bytes, if that is within the limit, `LINE_MAX` included.
pub(super) fn within_limit(len: usize) -> Result<usize, TooLong>
    ensures ok { IfOk result (λ n. (n ≡ len) × (n ≤ line_max)) }
    ensures err { OnErr result (line_max < len) }
{
    if len > LINE_MAX {
        return Err(TooLong);
    }
    Ok(len)
}

/// The length of the first line from `start` on, if it is whole. One that isn't is refused too once more bytes are there
/// than a line may have, so that a caller can stop there.
pub(super) fn find_whole(
    held: &Vec<u8>,
    start: usize,
    searched: &mut usize,
    ended: bool,
) -> Result<Option<usize>, TooLong>
    requires within { start ≤ vec_len held.now }
    requires searched { searched.old ≤ line_len (drop start held.now.items) }
    ensures searched { searched.new ≤ line_len (drop start held.now.items) }
    ensures found { IfOk result (λ found. MatchOption found
        (is_whole (record { front = drop start held.now.items; ended = ended }) ≡ false)
        (λ n. (is_whole (record { front = drop start held.now.items; ended = ended }) ≡ true)
        × (line_len (drop start held.now.items) ≡ n))) }
    ensures short { OnOk result (line_len (drop start held.now.items) ≤ line_max) }
    ensures too_long { OnErr result (line_max < line_len (drop start held.now.items)) }
{
    if let Some(len) = find_newline(held, start, searched) {
        return Ok(Some(within_limit(len)?));
    }
    let len = within_limit(held.len() - start)?;
    if ended {
        return Ok(Some(len));
    }
    Ok(None)
}
