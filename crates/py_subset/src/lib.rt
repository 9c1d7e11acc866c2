//! Reads a module of a Python subset exactly, or tells its first fault and the line.
#![tactic(auto)]

mod block;
mod brackets;
mod bytes;
mod compound;
mod expr;
mod header;
mod imports;
mod keywords;
mod laws;
mod layout;
mod lex;
mod lists;
mod making;
mod mark;
mod piece;
mod primaries;
mod reading;
mod sign_pieces;
mod simple;
mod symbols;
mod token;
mod token_list;
mod tree;
mod whole;

pub use bytes::{begins_name, is_in_name};
pub use item_list::Listed as Items;
pub use laws::{lookahead_reads_texts, texts_are_read_once};
pub use piece::{Bracket, Flaw, Piece, PieceKind};
pub use reading::{Place, Reading};
pub use token::{Mark, PyFault, Token};
pub use token_list::Tokens;
pub use tree::{
    Arm, Atom, BinOp, Expr, Exprs, FromItem, ImportItem, Joined, Module, Operand, Postfix, Primary,
    PyText, Sign, Stmt, Target, Word,
};
pub use whole::{one_module, parse};
