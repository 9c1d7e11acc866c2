//! The lines of a session: which request a line is, and which text a reply has.
#![tactic(auto)]

mod edits;
mod faults;
mod fields;
mod forms;
mod lines;
mod members;
mod pieces;
mod print;
mod proto_fault;
mod reply;
mod request;
mod rows;
mod words;

pub use json_values::{Text as DocText, Text as ReplyText};
pub use lines::{read_node, read_request};
pub use partial_path::Bounds;
pub use pieces::is_path;
pub use print::print_reply;
pub use proto_fault::ProtoFault;
pub use reply::{FileError, PlainError, Reply, ShapePart};
pub use request::{Edits, FileEdit, Point, Request};
