//! Joins partial paths: two rules become one that does what the first and then the second does.
#![tactic(auto)]

mod copying;
mod entering;
mod extending;
mod filling;
mod joining;
mod joint;
mod known;
mod meeting;
mod sides;
mod stored;
mod units;
mod writing;

pub use extending::{extend, extend_in_place, extended, whole};
pub use joining::join;
pub use stored::join_stored;
pub use units::{opening, unit};
