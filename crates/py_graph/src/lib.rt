//! The stack graph of a Python module, by a table of its statements and expressions.
#![tactic(auto)]

mod draft;
mod expressions;
mod fault;
mod frame;
mod head;
mod imports;
mod names;
mod nodes;
mod parameters;
mod seen;
mod simple;
mod statements;
mod translating;

pub use fault::TransFault;
pub use translating::translate;
