//! Giving memory back to the system behind a very long line.
//!
//! A value of such a line is millions of small blocks. The C library keeps the first seven blocks of each small size that a
//! thread frees for itself, and the rest of a piece of 64 MB that was too small for the next block as well, wherever they
//! lie. A thread's memory goes back from its end on, piece by piece, so of what is free before such a block nothing does.
//! And it keeps as much free room at the end of a thread's memory as twice the largest block that the system lent and took
//! back.

use std::alloc::Global;

/// The small sizes of which the C library keeps blocks: from this one up to that one, in steps.
const LEAST: usize = 24;

const MOST: usize = 1_032;

const STEP: usize = 16;

const SIZES: usize = (MOST - LEAST) / STEP + 1;

/// How many blocks of each size it keeps for a thread.
const KEPT: usize = 7;

/// So many blocks of so many bytes have the room that it may keep at the end of a thread's memory behind a line of the
/// greatest length. Each is less than what the system would lend by itself.
const ROOM_BLOCKS: usize = 560;

const ROOM_BYTES: usize = 100_000;

/// Small blocks that are taken before the first read, and so lie before all that lines and their answers take. Behind a
/// long line they change places with those that the C library keeps. The lists of the blocks that are taken then have
/// their memory from the beginning too: what is freed last must not lie behind what is to go back.
#[derive(Drop)]
pub(crate) struct Ballast {
    alloc: Global,
    blocks: Vec<Vec<u8>>,
    kept: Vec<Vec<u8>>,
    room: Vec<Vec<u8>>,
}

impl Ballast {
    /// None yet. It takes no memory.
    pub(crate) fn new(alloc: Global) -> Ballast {
        Ballast {
            alloc,
            blocks: Vec::new(alloc),
            kept: Vec::new(alloc),
            room: Vec::new(alloc),
        }
    }

    /// Takes the blocks, unless there are some; as many as there is memory for. So they are there from the beginning of a
    /// session, and long lines leave little more than it had.
    pub(crate) fn take(&mut self) {
        if !self.blocks.is_empty() {
            return;
        }
        let _kept = self.kept.reserve(SIZES * KEPT);
        let _room = self.room.reserve(ROOM_BLOCKS);
        let _blocks = self.blocks.reserve(2 * SIZES * KEPT);
        take_down(self.alloc, &mut self.blocks);
    }

    /// Takes as many once more, unless that was done, while a long line comes: some of the first may be a step longer than
    /// they were asked to be, where free room of that length was there, small ones most often. The small ones of these
    /// come first, and so lie lowest; those that aren't needed go back.
    pub(crate) fn take_more(&mut self) {
        if self.blocks.len() <= SIZES * KEPT {
            take_up(self.alloc, &mut self.blocks);
        }
    }

    /// Gives the blocks back in place of those that the C library keeps, which then are put together with what is free
    /// beside them. Then it takes room at the end of the thread's memory, of which nothing is written, and gives it back at
    /// once, so that the C library finds more there than it may keep. At last it takes the blocks again.
    pub(crate) fn give_back(&mut self) {
        // Only once as many of a size were given back as it may keep is it sure that taking as many leaves it none: while
        // it has fewer, it may take others of that size for itself with each that is asked for.
        take_down(self.alloc, &mut self.kept);
        self.kept.clear();
        take_down(self.alloc, &mut self.kept);
        give_in_order(&mut self.blocks);
        self.kept.clear();
        take_blocks(self.alloc, ROOM_BYTES, ROOM_BLOCKS, &mut self.room);
        give_in_order(&mut self.room);
        take_down(self.alloc, &mut self.blocks);
    }
}

/// Gives the blocks back, the first one first. Of small ones the C library then keeps those that lie lowest. Large ones are
/// all free room only with the last, which is more than may be kept: from the last one on they would go back in parts, and
/// of the first ones would be kept as much as may be.
fn give_in_order(blocks: &mut Vec<Vec<u8>>) {
    for block in blocks.drain(..) {
        drop(block);
    }
}

/// Takes as many blocks of each small size as the C library keeps, the largest first, so that free room of one size isn't
/// given out for the size below; fewer where memory is refused.
fn take_down(alloc: Global, blocks: &mut Vec<Vec<u8>>) {
    for i in 0..SIZES {
        take_blocks(alloc, MOST - i * STEP, KEPT, blocks);
    }
}

/// The same, the smallest first.
fn take_up(alloc: Global, blocks: &mut Vec<Vec<u8>>) {
    for i in 0..SIZES {
        take_blocks(alloc, LEAST + i * STEP, KEPT, blocks);
    }
}

/// Takes so many blocks of that size; fewer where memory is refused.
fn take_blocks(alloc: Global, size: usize, count: usize, blocks: &mut Vec<Vec<u8>>) {
    for _ in 0..count {
        if let Ok(block) = Vec::with_capacity(alloc, size) {
            let _kept = blocks.push(block);
        }
    }
}
