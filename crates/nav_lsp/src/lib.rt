//! The session of an editor over the Language Server Protocol: each message answered, in a transcript over the log of a
//! board.
#![tactic(auto)]

mod answering;
mod committing;
mod editor;
mod laws;
mod phase;
mod querying;
mod refusals;
mod serving;

pub use answering::answer_message;
pub use editor::Editor;
pub use laws::messages_have_one_script;
pub use phase::Phase;
pub use serving::serve_lsp;
