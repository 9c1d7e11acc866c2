//! Values of JSON: the value that bytes are, whole numbers in a range, strings taken and printed, objects that have no
//! member but those of a form, and a text that contracts see as its bytes.
#![tactic(auto)]

mod checking;
mod forms;
mod held_text;
mod lists;
mod numbers;
mod objects;
mod parsing;
mod ranges;
mod strings;

pub use forms::{Form, has_only, other_member};
pub use held_text::Text;
pub use lists::{into_items, items};
pub use numbers::{number, u16_of, u32_of};
pub use objects::parse_object;
pub use parsing::{JsonFault, parse};
pub use strings::{into_string, quoted_text};
