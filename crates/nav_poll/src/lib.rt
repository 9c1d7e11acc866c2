//! Sessions over links that never wait, each polled by hand.
#![tactic(auto)]

mod driven;
mod going;
mod laws;
mod link;
mod mem_link;
mod polled;
mod pulling;
mod pushing;
mod turning;
mod went;

pub use driven::Driven;
pub use going::go_on;
pub use laws::polled_sessions_keep_to_script;
pub use link::{Counts, Link, LinkFault, Moved};
pub use mem_link::{MemLink, is_listed};
pub use polled::{NotStarted, Polled};
