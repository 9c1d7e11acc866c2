//! The program as a function: the words after its name, its input and output, and its status.
#![tactic(auto)]

mod alone;
mod file;
mod found_rows;
mod input_lines;
mod laws;
mod node_line;
mod once_input;
mod parser;
mod running;
mod session;
mod tasks;
mod upgrade_input;
mod words;

pub use alone::run_alone;
pub use laws::{commands_have_one_output, once_and_upgrade_are_tasks, two_tells_of_no_command};
pub use running::run;
pub use tasks::{Task, perform};
pub use words::{Command, command_of};
