//! Graph files: the graph that a JSON text is, or the first fault in it.
#![tactic(auto)]

mod edge;
mod fault;
mod kind;
mod name_fault;
mod named;
mod names;
mod node;
mod parts;
mod pieces;
mod plain;
mod print;
mod printer;
mod read;
mod top;

pub use fault::{GraphTextFault, Part};
pub use printer::{print_graph, print_named};
pub use read::read_graph;
