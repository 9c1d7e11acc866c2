//! Who may see which path: grants and denies of a user and a prefix, the longest prefix deciding.
#![tactic(auto)]

mod access;
mod laws;
mod rule;
mod rule_set;

pub use access::{GrantFault, Grants};
pub use laws::a_pair_comes_and_goes;
