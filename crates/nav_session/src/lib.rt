//! One session: each line of its input answered, in a transcript over the log of its board.
#![tactic(auto)]

mod answering;
mod asking;
mod bad_file;
mod committing;
mod desk;
mod drafts;
mod exchange;
mod halt;
mod judging;
mod laws;
mod means;
mod output;
mod pinning;
mod refusals;
mod room;
mod serving;
mod step;

pub use answering::{answer_line, reply_to};
pub use bad_file::file_error;
pub use desk::{Desk, MAX_COST, SHARED_COST};
pub use exchange::Replied;
pub use halt::{ANSWERED, BAD_WORDS, Halt};
pub use laws::{
    first_lines_have_one_script, lines_have_one_script, queries_are_answered_at_the_pin,
};
pub use means::Means;
pub use output::{reply_bytes, write_line};
pub use serving::serve_session;
pub use step::Step;
