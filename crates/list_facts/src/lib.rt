//! Facts on lists that the proofs of the other crates cite: members, what holds of each element and of each two,
//! lists in which no element stands twice, lists in a strict order, and the halving search. Nothing runs: the
//! definitions are in `specs/`, the statements in `proofs/`, and the main ones are the laws here.
#![tactic(auto)]

mod laws;

pub use laws::{
    apart_lists_are_short, apart_lists_change_places, apart_lists_join, apart_sums_are_low,
    halving_finds, members_are_contained, parts_tell,
};
