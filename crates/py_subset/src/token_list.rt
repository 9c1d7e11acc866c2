//! The tokens that are left to read.

use crate::Items;
use crate::mark::same;
use crate::token::{Mark, Token};
use crate::tree::Word;
use std::alloc::{AllocError, Global};
use std::marker::Model;

/// Why a rule of the grammar stops.
#[derive(Clone, Copy, Debug, PartialEq, Eq)]
pub enum Stop {
    /// The next token is refused.
    Refused,
    /// Memory ran out.
    NoMemory,
}

/// What a rule of the grammar reads.
pub(crate) type Parsed<T> = Result<T, Stop>;

impl From<AllocError> for Stop {
    ghost use Rattle.std.specs.Prelude.{◌≡◌};
    ghost use Rattle.py_subset.specs.declared.token_list.Stop.TheVariants.{NoMemory};

    ghost from_gives = { λ _ e. e ≡ NoMemory };

    fn from(_: AllocError) -> Stop {
        Stop::NoMemory
    }
}

/// Tokens in order, taken from the front, and the allocator of what is read from them. Contracts see the list of tokens.
#[derive(Drop)]
pub struct Tokens<'a> {
    /// The tokens that are left, the next one last, so that one is taken without a move of the others.
    turned: Vec<Token<'a>>,
    alloc: Global,
}

impl<'a> Model for Tokens<'a> {
    ghost use Rattle.std.specs.Prelude.{List, reverse};
    ghost use Rattle.py_subset.specs.declared.token.Token.{Token};

    ghost Value = { List Token };

    ghost view = { λ t. reverse t.turned.items };
}

impl<'a> Tokens<'a> {
    ghost use Rattle.std.specs.Prelude.{◌≡◌, [], length};
    ghost use Rattle.py_subset.specs.Marks as marks;
    ghost use Rattle.py_subset.specs.Language as language;
    ghost use Rattle.py_subset.specs.Parsers as parsers;
    ghost use Rattle.py_subset.specs.Refusals as refusals;

    /// The tokens of this list, in its order. It takes time that follows their number, and no memory.
    pub(crate) fn of(alloc: Global, tokens: Items<Token<'a>>) -> Tokens<'a>
        ensures { result ≡ tokens.entry }
    {
        let mut turned = tokens.into_items();
        turned.reverse();
        Tokens { turned, alloc }
    }

    /// An empty list of what is read. It takes no memory.
    pub(crate) fn list<T>(&self) -> Items<T>
        ensures { result ≡ [] }
    {
        Items::new(self.alloc)
    }

    /// How many tokens there are.
    pub(crate) fn len(&self) -> usize
        ensures { result ≡ length self.now }
    {
        self.turned.len()
    }

    /// The line of the next token, or this one where there is none.
    pub(crate) fn line_or(&self, end: u32) -> u32
        ensures { result ≡ refusals.line_or end self.now }
    {
        match self.turned.last() {
            Some(token) => token.word.line,
            None => end,
        }
    }

    /// The mark of the next token.
    pub(crate) fn peek(&self) -> Mark
        ensures { result ≡ language.next self.now }
    {
        match self.turned.last() {
            Some(token) => token.mark,
            None => Mark::End,
        }
    }

    /// Whether the next token has this mark.
    pub(crate) fn sees(&self, mark: Mark) -> bool
        ensures { result ≡ marks.same (language.next self.now) mark }
    {
        same(self.peek(), mark)
    }

    /// Passes over the next token.
    pub(crate) fn pass(&mut self)
        ensures { self.new ≡ parsers.rest self.old }
    {
        let _ = self.turned.pop();
    }

    /// Takes the next token, where it stands for a value.
    pub(crate) fn told<T>(&mut self, value: Option<T>) -> Parsed<T>
        ensures { parsers.Gives result self.new (parsers.told value self.old) }
    {
        match value {
            Some(value) => {
                self.pass();
                Ok(value)
            }
            None => Err(Stop::Refused),
        }
    }

    /// Takes a token with this mark.
    pub(crate) fn take(&mut self, mark: Mark) -> Parsed<()>
        ensures { parsers.Gives result self.new (parsers.tok mark self.old) }
    {
        if self.sees(mark) {
            self.pass();
            Ok(())
        } else {
            Err(Stop::Refused)
        }
    }

    /// Takes a name.
    pub(crate) fn name(&mut self) -> Parsed<Word<'a>>
        ensures { parsers.Gives result self.new (parsers.name self.old) }
    {
        if !self.sees(Mark::Name) {
            return Err(Stop::Refused);
        }
        match self.turned.pop() {
            Some(token) => Ok(token.word),
            None => Err(Stop::Refused),
        }
    }
}
