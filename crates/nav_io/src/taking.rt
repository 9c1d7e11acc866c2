//! Taking the bytes of a source behind those that are held, for readers that cut an input into lines or frames. What is
//! held is a vector, of which the bytes before a place are answered.
ghost use Rattle.std.specs.{Prelude.{◌≡◌, ℕ, ◌+◌, ◌<◌, ◌≤◌, List, ◌++◌, length, vec_len, vec_capacity, drop, IfOk, OnOk, OnErr, true, false}, Io.KnownBytes.{prepend_known, IsAtEnd}};
ghost use Rattle.nav_io.specs.{declared.taking.TakeError.TheVariants.{ReadFault, NoMemory}, Faults.{HasRisen}};

use crate::{Failed, Source};
use std::alloc::AllocError;

/// How many bytes each read of the source is offered: as many as a pipe holds. With fewer, who writes to a full pipe
/// would be woken for each.
pub const CHUNK: usize = 65_536;

/// Why no bytes were taken.
#[derive(Clone, Copy, Debug, PartialEq, Eq)]
pub enum TakeError {
    /// The source failed; its count of faults rose.
    ReadFault,
    /// Memory was wanting.
    NoMemory,
}

impl From<AllocError> for TakeError {
    ghost from_gives = { λ _ e. e ≡ NoMemory };

    fn from(_: AllocError) -> Self {
        TakeError::NoMemory
    }
}

impl From<Failed> for TakeError {
    ghost from_gives = { λ _ e. e ≡ ReadFault };

    fn from(_: Failed) -> Self {
        TakeError::ReadFault
    }
}

/// Once so many bytes are held they may be a beginning of a very long line, behind which memory is given back.
pub(crate) const LONG: usize = 65_536;

/// Room for the longest line or frame, in one block of over 32 MB: the C library never takes one so large from what it
/// keeps.
const LARGEST: usize = 33_619_968;

/// Behind so many bytes that were answered room is given back.
const LARGE: usize = 1_048_576;

/// Lets go of the bytes before `start`. Where they are more than those behind, as after a long line, it takes time that
/// follows the number of those behind: std's `drain` turns all that is held round. After a very long line its room is
/// given back, and what its answer took with it; it answers whether that was so.
pub fn let_go(held: &mut Vec<u8>, start: &mut usize) -> bool
    requires { start.old ≤ vec_len held.old }
    ensures items { held.new.items ≡ drop start.old held.old.items }
    ensures start { start.new ≡ 0 }
{
    let was_large = is_large(*start);
    cut_front(held, start);
    if was_large {
        give_back(held);
    }
    was_large
}

/// Whether what was answered of what is held is so long that its room is given back before more is waited for.
pub(crate) fn is_large(start: usize) -> bool {
    start > LARGE
}

/// Lets go of the bytes before `start`, and keeps their room.
fn cut_front(held: &mut Vec<u8>, start: &mut usize)
    requires { start.old ≤ vec_len held.old }
    ensures items { held.new.items ≡ drop start.old held.old.items }
    ensures start { start.new ≡ 0 }
{
    let left = held.len() - *start;
    if left <= *start {
        let (front, back) = held.split_at_mut(*start);
        front[..left].copy_from_slice(back);
        held.truncate(left);
    } else {
        held.drain(..*start);
    }
    *start = 0;
}

/// Gives back the room that no held byte needs; where memory is refused that stays. The bytes move to a block of at least
/// `CHUNK` bytes, of which then only theirs are kept: the C library puts small blocks that were freed together, and gives
/// them back, only where so large a block is freed behind them, and a line of small objects leaves millions.
fn give_back(held: &mut Vec<u8>)
    ensures { held.new.items ≡ held.old.items }
{
    if let Ok(rest) = moved(held) {
        *held = rest;
        held.shrink_to_fit();
    }
}

/// The bytes in a block of their own, with room for `CHUNK` more. The one error is want of memory.
fn moved(held: &Vec<u8>) -> Result<Vec<u8>, AllocError>
    ensures { IfOk result (λ moved. moved.items ≡ held.now.items) }
{
    let mut moved = Vec::with_capacity(*held.allocator(), held.len().saturating_add(CHUNK))?;
    moved.extend_from_slice(held.as_slice())?;
    Ok(moved)
}

/// Makes room for so many bytes behind those that are held; and where those may be a beginning of something very long, for
/// the longest line or frame, unless memory is refused. What isn't written of it takes no memory, and the system lends so
/// large a block by itself: behind a smaller one that is freed the C library would keep twice as much free room at the end
/// of a thread's memory.
fn make_room(held: &mut Vec<u8>, more: usize) -> Result<(), AllocError>
    ensures items { held.new.items ≡ held.old.items }
    ensures room { OnOk result (vec_len held.old + more ≤ vec_capacity held.new) }
{
    if held.len() > LONG {
        let _large = held.reserve(LARGEST.saturating_sub(held.len()));
    }
    held.reserve(more)
}

/// Takes one chunk of the source behind what is held, and answers its length, which is 0 at the end of input alone.
/// An error changes nothing.
pub fn take_chunk<S: Source>(
    held: &mut Vec<u8>,
    chunk: &mut [u8],
    source: &mut S,
) -> Result<usize, TakeError>
    requires { CHUNK ≤ length chunk.old }
    ensures ok { IfOk result (λ n. (taken : List ℕ) × (length taken ≡ n)
        × (held.new.items ≡ held.old.items ++ taken)
        × (S.left source.old ≡ prepend_known taken (S.left source.new))) }
    ensures end { IfOk result (λ n. n ≡ 0 → IsAtEnd (S.left source.new)) }
    ensures err { OnErr result
        ((held.new.items ≡ held.old.items) × (S.left source.new ≡ S.left source.old)) }

    ensures count { S.faults source.old ≤ S.faults source.new }
    ensures cause { result ≡ Err TakeError.ReadFault
        → HasRisen (S.faults source.old) (S.faults source.new) }
{
    // The room comes first: once the source has given bytes, a refusal would lose them.
    make_room(held, chunk.len())?;
    let n = source.read(chunk)?;
    held.extend_from_slice(&chunk[..n]).unwrap();
    Ok(n)
}

/// Takes chunks until `n` bytes are held or the source is at its end, and answers whether it is. After an error what came
/// before it is held.
pub fn take_until<S: Source>(
    held: &mut Vec<u8>,
    chunk: &mut [u8],
    source: &mut S,
    n: usize,
) -> Result<bool, TakeError>
    requires room { CHUNK ≤ length chunk.old }
    ensures kept { prepend_known held.new.items (S.left source.new)
        ≡ prepend_known held.old.items (S.left source.old) }
    ensures enough { result ≡ Ok false → n ≤ vec_len held.new }
    ensures end { result ≡ Ok true → (vec_len held.new < n) × IsAtEnd (S.left source.new) }
    ensures err { OnErr result (vec_len held.new < n) }
    ensures grows { (more : List ℕ) × (held.new.items ≡ held.old.items ++ more) }

    ensures count { S.faults source.old ≤ S.faults source.new }
    ensures cause { result ≡ Err TakeError.ReadFault
        → HasRisen (S.faults source.old) (S.faults source.new) }
{
    while held.len() < n {
        if take_chunk(held, chunk, source)? == 0 {
            return Ok(true);
        }
    }
    Ok(false)
}
