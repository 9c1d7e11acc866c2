//! The length of a body that a block of header lines states.
ghost use Rattle.std.specs.{Prelude.{◌≡◌, ◌∷◌, ◌+◌, ◌<◌, ◌≤◌, true, false, ℕ, List, Option, Some, length, min, MatchOption}, List.{position, position_or_len}, Option.{option_copied}};
ghost use Rattle.lsp_frames.specs.{Blocks.{is_colon, is_length_name, is_no_space, is_no_digit, number, number_at_front, length_of, lengths_in, value_in, ends_line, without_end, stated_length}, Frames.{body_max}, Inside.{States, StatesSoFar, StatesAll, lines_left}};

use crate::reader::BODY_MAX;

/// What a line or a block says of the length of a body, in bytes.
#[derive(Clone, Copy)]
pub(crate) enum Stated {
    /// Nothing.
    Absent,
    /// What is no number, or more than one length.
    Wrong,
    /// More than a body may have.
    Large,
    /// So many bytes.
    Bytes(usize),
}

/// The length that the block states.
pub(crate) fn stated_length(block: &[u8]) -> Stated
    ensures { StatesAll result (stated_length block.now) }
{
    let mut stated = Stated::Absent;
    let mut start = 0;
    for n in 0..block.len() {
        (stated, start) = with_byte(stated, block, start, n);
    }
    stated
}

/// What is stated, and where the next line begins, with one byte more than the first `n`.
fn with_byte(stated: Stated, block: &[u8], start: usize, n: usize) -> (Stated, usize)
    requires { (start ≤ n) × (n < length block.now) }
    ensures begun { result.1 ≤ n + 1 }
    ensures stated { (all : List (Option ℕ))
        → StatesSoFar stated all (lengths_in (lines_left start n block.now))
        → StatesSoFar result.0 all (lengths_in (lines_left result.1 (n + 1) block.now)) }
{
    match line_begun(&block[start..n + 1]) {
        Some(line) => (with_line(stated, line), n + 1),
        None => (stated, start),
    }
}

/// The line without its end, if the bytes end there: with a carriage return and a newline, and not with a newline alone.
fn line_begun(bytes: &[u8]) -> Option<&[u8]>
    ensures { MatchOption (option_copied result) (ends_line bytes.now ≡ false)
        (λ line. (ends_line bytes.now ≡ true) × (line ≡ without_end bytes.now)) }
{
    if bytes.ends_with(b"\r\n") {
        Some(&bytes[..bytes.len() - 2])
    } else {
        None
    }
}

/// What is stated with this line too. Lines of other names are passed over, whatever they hold.
fn with_line(stated: Stated, line: &[u8]) -> Stated
    ensures { (all : List (Option ℕ)) (lines : List (List ℕ))
        → StatesSoFar stated all (lengths_in (line.now ∷ lines))
        → StatesSoFar result all (lengths_in lines) }
{
    match value_in(line) {
        Some(value) => with_value(stated, value),
        None => stated,
    }
}

fn with_value(stated: Stated, value: &[u8]) -> Stated
    ensures { (all : List (Option ℕ)) (rest : List (Option ℕ))
        → StatesSoFar stated all (length_of value.now ∷ rest) → StatesSoFar result all rest }
{
    match stated {
        Stated::Absent => length_of(value),
        // A second length is wrong, also where it is the same one.
        _ => Stated::Wrong,
    }
}

/// The value of the line, if that is a length's. The first colon ends the name.
fn value_in(line: &[u8]) -> Option<&[u8]>
    ensures { option_copied result ≡ value_in line.now }
{
    match colon_in(line) {
        Some(n) if is_length_name(&line[..n]) => Some(&line[n + 1..]),
        _ => None,
    }
}

fn colon_in(line: &[u8]) -> Option<usize>
    ensures { result ≡ position is_colon line.now }
{
    line.iter().position(|byte| *byte == b':')
}

/// Whether the name is `Content-Length`, in letters of either case (RFC 9110, section 5.1).
fn is_length_name(name: &[u8]) -> bool
    ensures { result ≡ is_length_name name.now }
{
    name.eq_ignore_ascii_case(b"content-length")
}

/// The length that a value is: digits, with any spaces round them.
fn length_of(value: &[u8]) -> Stated
    ensures { States result (length_of value.now) }
{
    number_of(&value[spaces_len(value)..])
}

/// The same of a value without spaces at its front.
fn number_of(value: &[u8]) -> Stated
    ensures { States result (number_at_front (position_or_len is_no_digit value.now) value.now) }
{
    let n = digits_len(value);
    if n == 0 || text_in(&value[n..]).is_some() {
        return Stated::Wrong;
    }
    limited(&value[..n])
}

/// The length that digits are, zeros in front among them.
fn limited(digits: &[u8]) -> Stated
    ensures { States result (Some (number digits.now)) }
{
    let number = capped(digits);
    if number > BODY_MAX {
        return Stated::Large;
    }
    Stated::Bytes(number)
}

#[tactic(auto, using(crate::proofs::Numbers::places))]
fn spaces_len(value: &[u8]) -> usize
    ensures is { result ≡ position_or_len is_no_space value.now }
    ensures within { result ≤ length value.now }
{
    text_in(value).unwrap_or(value.len())
}

#[tactic(auto, using(crate::proofs::Numbers::places))]
fn digits_len(value: &[u8]) -> usize
    ensures is { result ≡ position_or_len is_no_digit value.now }
    ensures within { result ≤ length value.now }
{
    other_in(value).unwrap_or(value.len())
}

/// Where the first byte is that isn't a space.
fn text_in(value: &[u8]) -> Option<usize>
    ensures { result ≡ position is_no_space value.now }
{
    value.iter().position(|byte| *byte != b' ')
}

/// Where the first byte is that is no digit.
fn other_in(value: &[u8]) -> Option<usize>
    ensures { result ≡ position is_no_digit value.now }
{
    value
        .iter()
        .position(|byte| !(b'0' <= *byte && *byte <= b'9'))
}

/// The number that the digits are, or one more than a body may have, if that is less: so no line of digits is too long for
/// a number.
fn capped(digits: &[u8]) -> usize
    ensures { result ≡ min (number digits.now) (body_max + 1) }
{
    let mut number = 0;
    for digit in digits {
        number = (10 * number + usize::from(digit.saturating_sub(b'0'))).min(BODY_MAX + 1);
    }
    number
}
