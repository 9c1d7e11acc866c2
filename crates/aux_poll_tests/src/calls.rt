//! Which calls of a link wait or fail, by their numbers from 0.
use std::alloc::{AllocError, Global};

/// Every second number from `first` on, below `end`.
pub fn every_second(alloc: Global, first: u32, end: u32) -> Result<Vec<u32>, AllocError> {
    let mut numbers = Vec::new(alloc);
    for i in first..end {
        if i % 2 == first % 2 {
            numbers.push(i)?;
        }
    }
    Ok(numbers)
}

/// The same of pulls and of pushes.
pub fn both(
    alloc: Global,
    pulls: (u32, u32),
    pushes: (u32, u32),
) -> Result<(Vec<u32>, Vec<u32>), AllocError> {
    let numbers = every_second(alloc, pulls.0, pulls.1)?;
    Ok((numbers, every_second(alloc, pushes.0, pushes.1)?))
}

/// That pull alone, and that push.
pub fn one_each(alloc: Global, calls: [u32; 2]) -> Result<(Vec<u32>, Vec<u32>), AllocError> {
    let [pull, push] = calls;
    both(
        alloc,
        (pull, pull.saturating_add(1)),
        (push, push.saturating_add(1)),
    )
}
