//! Doors served for the seats of a board: each by a loop of its own, connection after connection.
#![tactic(auto)]

mod connecting;
mod door;
mod doors;
mod house;
mod laws;
mod place;
mod placing;

pub use door::{ACCEPT_FAILED, serve_door};
pub use doors::serve_doors;
pub use house::serve_house;
pub use laws::connections_lie_on_one_log;
