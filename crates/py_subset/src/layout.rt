//! What each piece adds to the tokens.

ghost use Rattle.std.specs.{Prelude.{◌≡◌, ◌+◌, ◌^◌, ◌<◌, ◌≤◌, length, nat_le}, List.{prefix_len}, Str.{IsAscii}};
ghost use Rattle.py_subset.specs.Pieces as pieces;
ghost use Rattle.py_subset.specs.Layout as spec;

use crate::brackets::{close_mark, closes, open_mark};
use crate::making::{dedents, name_token, token};
use crate::piece::{Bracket, Flaw, PieceKind};
use crate::reading::{Place, Reading};
use crate::token::{Mark, PyFault};

/// How many brackets and blocks may be open at once.
const MOST_OPEN: usize = 64;

/// The column of the innermost block, 0 where there is none, at which the lines of the module stand.
fn innermost(blocks: &[u32]) -> u32
    ensures { result ≡ spec.innermost blocks.now }
{
    match blocks.last() {
        Some(column) => *column,
        None => 0,
    }
}

/// How many blocks a line with this indentation leaves open. Their columns rise, so the first one that is further in ends
/// them.
fn kept(column: u32, blocks: &[u32]) -> usize
    ensures exact { result ≡ prefix_len (λ b. nat_le b column) blocks.now }
    ensures within { result ≤ length blocks.now }
{
    for (i, b) in blocks.iter().enumerate() {
        if *b > column {
            return i;
        }
    }
    blocks.len()
}

/// The fault that a flaw is.
fn fault_of(flaw: Flaw, line: u32) -> PyFault
    ensures { result ≡ spec.fault_of flaw line }
{
    match flaw {
        Flaw::NotAscii => PyFault::NotAscii(line),
        Flaw::BadToken => PyFault::BadToken(line),
        Flaw::Unsupported => PyFault::Unsupported(line),
    }
}

impl<'a> Reading<'a> {
    /// Whether one more bracket or block is too many.
    fn is_full(&self) -> bool
        ensures { result ≡ spec.is_full self.now }
    {
        // A difference and no sum, which would have to fit for any numbers.
        let blocks = self.blocks.len();
        blocks >= MOST_OPEN || MOST_OPEN - blocks <= self.brackets.len()
    }

    /// A line begins at this place.
    fn indent(&mut self, place: Place) -> Result<(), PyFault>
        ensures { spec.Does result (spec.indented place self.old) self.new }
    {
        let blocks = self.blocks.items();
        let len = blocks.len();
        let n = kept(place.column, blocks);
        if innermost(&blocks[..n]) == place.column {
            dedents(&mut self.tokens, len - n, place.line)?;
            self.blocks.truncate(n);
            self.fresh = false;
            return Ok(());
        }
        // It goes back, past a block's column but to none.
        if n < len {
            return Err(PyFault::BadIndent(place.line));
        }
        if self.is_full() {
            return Err(PyFault::TooDeep(place.line));
        }
        self.tokens.push(token(Mark::Indent, place.line))?;
        self.blocks.push(place.column)?;
        self.fresh = false;
        Ok(())
    }

    /// The first token of a line begins it.
    fn begin(&mut self, place: Place) -> Result<(), PyFault>
        ensures { spec.Does result (spec.begin place self.old) self.new }
    {
        if self.fresh {
            self.indent(place)
        } else {
            Ok(())
        }
    }

    /// Adds a name.
    fn name(&mut self, bytes: &'a [u8], place: Place) -> Result<(), PyFault>
        requires ascii { IsAscii bytes.now }
        requires short { place.column + length bytes.now < 2 ^ 32 }
        ensures { spec.Does result (spec.name bytes.now place self.old) self.new }
    {
        self.begin(place)?;
        self.tokens.push(name_token(bytes, place))?;
        Ok(())
    }

    /// Adds a token other than a name, a string or a bracket.
    fn plain(&mut self, mark: Mark, place: Place) -> Result<(), PyFault>
        ensures { spec.Does result (spec.plain mark place self.old) self.new }
    {
        self.begin(place)?;
        self.tokens.push(token(mark, place.line))?;
        Ok(())
    }

    /// Adds a string, which holds no carriage return.
    fn text(&mut self, has_return: bool, place: Place) -> Result<(), PyFault>
        ensures { spec.Does result (spec.text has_return place self.old) self.new }
    {
        self.begin(place)?;
        if has_return {
            return Err(PyFault::BadToken(place.line));
        }
        self.tokens.push(token(Mark::Text, place.line))?;
        Ok(())
    }

    /// Adds an opening bracket.
    fn opened(&mut self, b: Bracket, place: Place) -> Result<(), PyFault>
        ensures { spec.Does result (spec.opened b place self.old) self.new }
    {
        self.begin(place)?;
        if self.is_full() {
            return Err(PyFault::TooDeep(place.line));
        }
        self.brackets.push(b)?;
        self.tokens.push(token(open_mark(b), place.line))?;
        Ok(())
    }

    /// Adds a closing bracket, which closes the innermost one.
    fn closed(&mut self, b: Bracket, place: Place) -> Result<(), PyFault>
        ensures { spec.Does result (spec.closed b place self.old) self.new }
    {
        let brackets = self.brackets.items();
        let len = brackets.len();
        if !closes(b, brackets) {
            return Err(PyFault::BadToken(place.line));
        }
        self.brackets.truncate(len.saturating_sub(1));
        self.tokens.push(token(close_mark(b), place.line))?;
        Ok(())
    }

    /// Ends a line: with `Newline` where the line counts and no bracket is open.
    fn line_end(&mut self, place: Place) -> Result<(), PyFault>
        ensures { spec.Does result (spec.line_end place self.old) self.new }
    {
        if !self.fresh && self.brackets.len() == 0 {
            self.tokens.push(token(Mark::Newline, place.line))?;
            self.fresh = true;
        }
        self.tab = false;
        Ok(())
    }

    /// Adds what a piece adds that makes a line count.
    fn counted(&mut self, kind: PieceKind, bytes: &'a [u8], place: Place) -> Result<(), PyFault>
        requires spelled { pieces.IsSpelled kind bytes.now }
        requires short { place.column + length bytes.now < 2 ^ 32 }
        ensures { spec.Does result (spec.counted kind bytes.now place self.old) self.new }
    {
        match kind {
            PieceKind::Blanks(_) | PieceKind::Comment | PieceKind::LineEnd => Ok(()),
            PieceKind::Name => self.name(bytes, place),
            PieceKind::Plain(mark) => self.plain(mark, place),
            PieceKind::Text(has_return) => self.text(has_return, place),
            PieceKind::Open(b) => self.opened(b, place),
            PieceKind::Close(b) => self.closed(b, place),
            PieceKind::Broken(flaw) => Err(fault_of(flaw, place.line)),
        }
    }

    /// Takes the next piece, with its bytes and its place. After an `Err` the reading is over.
    pub(crate) fn take(
        &mut self,
        kind: PieceKind,
        bytes: &'a [u8],
        place: Place,
    ) -> Result<(), PyFault>
        requires spelled { pieces.IsSpelled kind bytes.now }
        requires short { place.column + length bytes.now < 2 ^ 32 }
        ensures { spec.Does result (spec.step kind bytes.now place self.old) self.new }
    {
        match kind {
            PieceKind::Blanks(tab) => {
                // Between tokens a tab is a blank like any; before the first of a line its width would matter.
                self.tab = self.tab || self.fresh && tab;
                Ok(())
            }
            PieceKind::Comment => {
                // A line of blanks and a comment doesn't count, so its tabs are let be.
                self.tab = false;
                Ok(())
            }
            PieceKind::LineEnd => self.line_end(place),
            PieceKind::Name
            | PieceKind::Plain(_)
            | PieceKind::Text(_)
            | PieceKind::Open(_)
            | PieceKind::Close(_)
            | PieceKind::Broken(_) => {
                if self.tab {
                    return Err(PyFault::Unsupported(place.line));
                }
                self.counted(kind, bytes, place)
            }
        }
    }

    /// Ends the reading, at the line of the text's end.
    pub(crate) fn finish(&mut self, line: u32) -> Result<(), PyFault>
        ensures { spec.Does result (spec.finish line self.old) self.new.tokens }
    {
        // Not at the bracket itself: until the end something could have closed it.
        if self.brackets.len() > 0 {
            return Err(PyFault::BadToken(line));
        }
        if !self.fresh {
            self.tokens.push(token(Mark::Newline, line))?;
        }
        dedents(&mut self.tokens, self.blocks.len(), line)?;
        Ok(())
    }
}
