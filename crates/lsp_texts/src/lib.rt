//! The texts of open documents at their paths, each with the places of its lines, and parts of them as editors count.
#![tactic(auto)]

mod locations;
mod open_text;
mod open_texts;

pub use locations::location;
pub use open_text::{MOST_BYTES, OpenText};
pub use open_texts::OpenTexts;
