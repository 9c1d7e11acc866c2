//! A board that threads share: one log of versions that only grows, each seat of which has seen a beginning of it.
#![tactic(auto)]

mod body;
mod book;
mod desk;
mod head;
mod making;
mod next;
mod note;
mod seat;
mod showing;
mod tying;

pub use book::{Naming, SharedBoard};
pub use desk::{HeadWriter, Shared, SharedBy};
pub use head::{Head, Slot};
pub use making::close;
pub use note::Note;
pub use seat::{Seat, SeatOf};
pub use showing::Shows;
pub use tying::tie;
