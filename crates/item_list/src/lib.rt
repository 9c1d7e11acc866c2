//! A vector that contracts see as a list.
#![tactic(auto)]

mod listed;

pub use listed::Listed;
