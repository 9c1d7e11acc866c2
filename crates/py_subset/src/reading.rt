//! The reading of tokens: lines, indentation and brackets.

ghost use Rattle.std.specs.Prelude.{◌≡◌, ◌+◌, ◌-◌, ◌^◌, ◌<◌, ◌≤◌, ◌++◌, length, take, replicate, OnOk};
ghost use Rattle.py_subset.specs.Layout as spec;

use crate::Items;
use crate::piece::Bracket;
use crate::token::{Mark, PyFault, Token};
use crate::tree::{PyText, Word};
use std::alloc::{AllocError, Global};

/// A place in a text: the line and the column, both from 0, the column in bytes.
#[derive(Clone, Copy, Debug, PartialEq, Eq)]
pub struct Place {
    pub line: u32,
    pub column: u32,
}

/// What has been read of a text: the tokens so far, and what the next line and bracket depend on.
#[derive(Drop)]
pub struct Reading<'a> {
    /// The tokens so far.
    pub tokens: Items<Token<'a>>,
    /// The columns of the open blocks, the innermost last.
    pub blocks: Items<u32>,
    /// The open brackets, the innermost last.
    pub brackets: Items<Bracket>,
    /// Whether no token of the line has come.
    pub fresh: bool,
    /// Whether a tab stands before the first token of the line.
    pub tab: bool,
}
