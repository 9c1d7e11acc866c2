//! A writer that counts the lines that were written through it.
#![tactic(auto)]

mod counted;

pub use counted::Counted;
