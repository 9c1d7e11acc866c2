//! Which paths are shadowed by others of higher precedence.
#![tactic(auto)]

mod paths;
mod shadow;

pub use paths::{EdgeList, EdgeNo, EdgeStep};
pub use shadow::unshadowed;
