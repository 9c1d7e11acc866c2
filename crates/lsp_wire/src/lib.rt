//! What the messages of the Language Server Protocol mean that a server of definitions and references reads and
//! writes: URIs of documents, requests and notifications, and replies.
#![tactic(auto)]

mod asks;
mod bodies;
mod members;
mod message;
mod print;
mod reply;
mod uris;

pub use bodies::read_body;
pub use json_values::Text;
pub use message::{Asks, Body, Id, Message, Method, Position};
pub use print::print_reply;
pub use reply::{Location, Locations, Outcome, Refusal, Reply};
pub use uris::{inside, path_of_uri, root_of, uri_of_path, uris_name_their_paths};
