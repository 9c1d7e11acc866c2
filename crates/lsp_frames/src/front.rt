//! What stands at the front of the bytes that were taken.
ghost use Rattle.std.specs.Prelude.{◌≡◌, ◌≤◌, length, IfSome, Some};
ghost use Rattle.lsp_frames.specs.{Blocks.{block_len, ends_block}, Inside.{IsFront}};

use crate::lengths::{Stated, stated_length};

/// The most bytes that a block of header lines may have, with its empty line.
pub(crate) const BLOCK_MAX: usize = 4_096;

/// Where a body stands.
#[derive(Clone, Copy)]
pub(crate) struct Place {
    pub from: usize,
    pub to: usize,
}

/// What stands at the front of bytes.
#[derive(Clone, Copy)]
pub(crate) enum Front {
    /// A whole frame, with its body there.
    Whole(Place),
    /// Nothing, or a beginning of a frame; there is none before there are so many bytes.
    Short(usize),
    /// No frame, whatever follows.
    Malformed,
    /// A block that states too long a body.
    Large,
}

/// What stands at the front of the bytes. It costs time in the block of header lines.
#[tactic(auto, using(crate::proofs::Cuts::fronts))]
pub(crate) fn front_of(bytes: &[u8]) -> Front
    ensures { IsFront result bytes.now }
{
    match block_len(bytes) {
        Some(n) => behind_block(bytes, n),
        None if bytes.len() < BLOCK_MAX => Front::Short(bytes.len() + 1),
        None => Front::Malformed,
    }
}

/// The same where the block has so many bytes. What the block states is told before its body is there, so that a body that
/// is too long isn't waited for.
#[tactic(auto, using(crate::proofs::Cuts::fronts))]
fn behind_block(bytes: &[u8], block: usize) -> Front
    requires block { block_len bytes.now ≡ Some block }
    requires within { (block ≤ length bytes.now) × (block ≤ BLOCK_MAX) }
    ensures { IsFront result bytes.now }
{
    match stated_length(&bytes[..block]) {
        Stated::Bytes(n) if bytes.len() - block < n => Front::Short(block + n),
        Stated::Bytes(n) => Front::Whole(Place {
            from: block,
            to: block + n,
        }),
        Stated::Large => Front::Large,
        _ => Front::Malformed,
    }
}

/// How many bytes the block of header lines at the front has. The first empty line ends it, so lengths are tried from 0
/// on; none above `BLOCK_MAX` is.
fn block_len(bytes: &[u8]) -> Option<usize>
    ensures is { result ≡ block_len bytes.now }
    ensures within { IfSome result (λ n. (n ≤ length bytes.now) × (n ≤ BLOCK_MAX)) }
{
    for n in 0..bytes.len().min(BLOCK_MAX) + 1 {
        if ends_block(&bytes[..n]) {
            return Some(n);
        }
    }
    None
}

/// Whether the text ends with an empty line: alone, or behind the end of another.
fn ends_block(text: &[u8]) -> bool
    ensures { result ≡ ends_block text.now }
{
    text == b"\r\n".as_slice() || text.ends_with(b"\r\n\r\n")
}
