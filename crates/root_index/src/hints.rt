//! Where the paths of a key seem to begin, found by a hash of the heads of its symbols. What is told here is a guess, which
//! whoever asks has to test: it spares halving over all paths.
use partial_path::KEY_SIZE;
use std::alloc::{AllocError, Global};

/// How many slots there are for each path, of whose key and its beginnings most have another path noted.
const SLOTS: usize = 4;

/// In how many slots, one behind the other, a key is looked for.
const NEAR: usize = 8;

/// The place of the first path of a key, with its group. A mark of 0 stands in a slot where nothing is noted.
#[derive(Clone, Copy, Debug)]
struct Hint {
    mark: u32,
    group: u32,
    place: u32,
}

/// For the keys of an index's paths, and for each beginning of one, where their paths begin.
#[derive(Drop)]
pub(crate) struct Hints {
    slots: Vec<Hint>,
}

impl Hints {
    /// Nothing noted, with room for so many paths. The one error is want of memory.
    pub(crate) fn with_room(alloc: Global, paths: usize) -> Result<Hints, AllocError> {
        let empty = Hint {
            mark: 0,
            group: 0,
            place: 0,
        };
        let mut slots = Vec::new(alloc);
        slots.resize(paths.saturating_mul(SLOTS).saturating_add(1), empty)?;
        Ok(Hints { slots })
    }

    /// Notes the path with these heads, at that place and in that group, for each beginning of its key that the path in
    /// front of it, with the other heads, doesn't have.
    pub(crate) fn note(&mut self, heads: &[u64; 6], before: &[u64; 6], place: usize, group: usize) {
        let mut mark = 0;
        let mut is_new = false;
        for i in 0..KEY_SIZE {
            if heads[i] == 0 {
                return;
            }
            mark = with_head(mark, heads[i]);
            is_new = is_new || heads[i] != before[i];
            if is_new {
                self.put(short(mark), place, group);
            }
        }
    }

    /// Puts it into the first slot that is free; nowhere where those near are not, or where a number has more than 32 bits.
    fn put(&mut self, mark: u32, place: usize, group: usize) {
        if place > u32::MAX as usize || group > u32::MAX as usize {
            return;
        }
        let hint = Hint {
            mark,
            group: group as u32,
            place: place as u32,
        };
        let first = self.first_slot(mark);
        for i in 0..NEAR {
            if let Some(slot) = self.slots.get_mut(first.saturating_add(i)) {
                if slot.mark == 0 {
                    *slot = hint;
                    return;
                }
            }
        }
    }

    /// Where the paths with these heads seem to begin, and in which group; None where nothing is noted of them.
    pub(crate) fn found(&self, wanted: &[u64; 6]) -> Option<(usize, usize)> {
        let mark = short(mark_of(wanted));
        let first = self.first_slot(mark);
        for i in 0..NEAR {
            let slot = self.slots.get(first.saturating_add(i))?;
            if slot.mark == mark {
                return Some((slot.place as usize, slot.group as usize));
            }
            if slot.mark == 0 {
                return None;
            }
        }
        None
    }

    /// The slot in which a key of that mark is looked for first.
    fn first_slot(&self, mark: u32) -> usize {
        match self.slots.len() {
            0 => 0,
            count => (mark as usize) % count,
        }
    }
}

/// The mark of a key with these heads.
fn mark_of(heads: &[u64; 6]) -> u64 {
    let mut mark = 0;
    for i in 0..KEY_SIZE {
        if heads[i] == 0 {
            return mark;
        }
        mark = with_head(mark, heads[i]);
    }
    mark
}

/// The mark of a key with one head more.
fn with_head(mark: u64, head: u64) -> u64 {
    let mixed = (mark ^ head).wrapping_mul(0x9e37_79b9_7f4a_7c15);
    mixed ^ (mixed >> 32)
}

/// A mark in 32 bits, which isn't 0.
fn short(mark: u64) -> u32 {
    (mark >> 32) as u32 | 1
}
