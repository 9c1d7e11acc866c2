//! What is to be written where an input is cut, or a read or a write fails.
use crate::row::Exchange;
use std::alloc::{AllocError, Global};

/// The reply to a line that is cut.
const CUT: &[u8] = b"{\"error\":\"bad_json\"}\n";

/// A status and what was written.
pub fn told(alloc: Global, status: u8, written: &[u8]) -> Result<Vec<u8>, AllocError> {
    let text = format!(in alloc; "status {status} ")?;
    let mut bytes = text.into_bytes();
    bytes.extend_from_slice(written)?;
    Ok(bytes)
}

/// The first so many lines of a text.
fn first_lines(alloc: Global, text: &[u8], count: usize) -> Result<Vec<u8>, AllocError> {
    let mut lines = Vec::new(alloc);
    let mut left = count;
    for byte in text {
        if left > 0 {
            lines.push(*byte)?;
        }
        if *byte == b'\n' {
            left = left.saturating_sub(1);
        }
    }
    Ok(lines)
}

/// What is to be written where so many bytes of the input were taken and it ended there or goes on: the reply to
/// each whole line; and where it ended, to the last one too, which may be cut.
pub fn due(
    alloc: Global,
    exchange: &Exchange,
    taken: usize,
    ended: bool,
) -> Result<Vec<u8>, AllocError> {
    let input = exchange.input.as_slice();
    let whole = input.iter().take(taken).filter(|b| **b == b'\n').count();
    let cut = match input.iter().take(taken).last() {
        Some(b'\n') | None => false,
        Some(_) => ended,
    };
    let is_end = matches!(input.get(taken), Some(b'\n'));
    let lines = if cut && is_end {
        whole.saturating_add(1)
    } else {
        whole
    };
    let mut due = first_lines(alloc, &exchange.wanted, lines)?;
    if cut && !is_end {
        due.extend_from_slice(CUT)?;
    }
    Ok(due)
}

/// The status and what is to be written where so many reads of such pieces go well and the next one fails: 3, where
/// there is such a read.
pub fn due_at_read(
    alloc: Global,
    exchange: &Exchange,
    piece: u32,
    read: u32,
) -> Result<Vec<u8>, AllocError> {
    let taken = (piece as usize).saturating_mul(read as usize);
    let all = exchange.input.len();
    if taken < all.saturating_add(piece as usize) {
        told(alloc, 3, &due(alloc, exchange, taken, false)?)
    } else {
        told(alloc, 0, &due(alloc, exchange, all, true)?)
    }
}

/// The status and what is taken where an output of such pieces takes so many writes and fails the next one: 4, where
/// there is such a write. Each line is written by itself.
pub fn due_at_write(
    alloc: Global,
    replies: &[u8],
    piece: u32,
    write: u32,
) -> Result<Vec<u8>, AllocError> {
    let mut taken = Vec::new(alloc);
    let mut writes: u32 = 0;
    let mut room = piece;
    for byte in replies {
        if room == piece {
            if writes == write {
                return told(alloc, 4, &taken);
            }
            writes = writes.saturating_add(1);
        }
        taken.push(*byte)?;
        room = if *byte == b'\n' || room <= 1 {
            piece
        } else {
            room - 1
        };
    }
    told(alloc, 0, &taken)
}
