//! Boards: logs of versions, as the sessions that read and extend them see them.
#![tactic(auto)]

mod amending;
mod board;
mod fault;
mod history;
mod laws;
mod plain;

pub use amending::{amended, fitting};
pub use board::{Commits, Pinned, Pins};
pub use fault::CommitFault;
pub use laws::{Exchange, seats_keep_their_entries};
pub use plain::PlainBoard;
