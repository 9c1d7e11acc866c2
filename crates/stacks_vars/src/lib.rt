//! Symbol stacks and scope stacks, and what entering a node does to them.
#![tactic(auto)]

mod action;
mod entering;
mod held;
mod items;
mod lent;
mod patterns;
mod scopes;
mod stack;
mod stacks;
mod symbol;

pub use action::Action;
pub use entering::{drop_scopes, enter, jump, pop, pop_scoped, push, push_scoped};
pub use held::Held;
pub use item_list::Listed;
pub use items::{SymbolItem, SymbolStack};
pub use lent::{LentItem, LentStack};
pub use patterns::{Post, Pre, ScopeOut, ScopePat, SymOut, SymPat, Tail};
pub use scopes::{NodeAt, ScopeStack};
pub use stack::Stack;
pub use stacks::Stacks;
pub use symbol::Symbol;
