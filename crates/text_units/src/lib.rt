//! Places in a text as editors count them: lines by each form of line end, columns in UTF-16 code units.
#![tactic(auto)]

mod columns;
mod laws;
mod line_starts;

pub use laws::units_are_those_of_utf16;
pub use line_starts::LineStarts;
