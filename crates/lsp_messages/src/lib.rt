//! The messages of a session of an editor: which of an input are to be answered, read one by one, and replies written.
#![tactic(auto)]

mod halt;
mod laws;
mod receiving;
mod writing;

pub use halt::Halt;
pub use laws::messages_stand_in_turn;
pub use receiving::{MAX_MESSAGES, More, ends_session, look_on, next_message};
pub use writing::write_reply;
