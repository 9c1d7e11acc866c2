//! Frames of the Language Server Protocol: a block of header lines that states a length, and a body of that length,
//! read from a source one by one and written to a vector.
#![tactic(auto)]

mod front;
mod held;
mod laws;
mod lengths;
mod reader;
mod written;

pub use laws::frames_stay;
pub use reader::{BODY_MAX, FrameError, FrameReader};
pub use written::frame_text;
