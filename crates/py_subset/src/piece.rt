//! The piece of a text at its front: blanks, a comment, a line's end, a token, or a fault.

ghost use Rattle.std.specs.Prelude.{◌≡◌, ◌<◌, length};
ghost use Rattle.py_subset.specs.Pieces as spec;

use crate::bytes::{
    begins_name, blanks_len, byte_at, closing, comment_len, digits_len, holds_return, holds_tab,
    is_blank, is_digit, is_quote, name_len,
};
use crate::keywords::keyword;
use crate::sign_pieces::{bracket_at, sign};
use crate::token::Mark;

/// The kind of a bracket.
#[derive(Clone, Copy, Debug, PartialEq, Eq)]
pub enum Bracket {
    Round,
    Square,
    Curly,
}

/// Why no token begins at a place.
#[derive(Clone, Copy, Debug, PartialEq, Eq)]
pub enum Flaw {
    /// A byte from 128 up.
    NotAscii,
    /// A byte that begins no token, a string that isn't closed on its line, or a lone carriage return.
    BadToken,
    /// A token of Python that is left out, such as a number with a fraction.
    Unsupported,
}

/// What kind of piece it is.
#[derive(Clone, Copy, Debug, PartialEq, Eq)]
pub enum PieceKind {
    /// Spaces and tabs, and whether there is a tab.
    Blanks(bool),
    /// From `#` up to the end of the line.
    Comment,
    /// A newline, alone or after a carriage return.
    LineEnd,
    /// A name that is no keyword.
    Name,
    /// A token other than a name, a string or a bracket.
    Plain(Mark),
    /// A string, and whether a carriage return is in it.
    Text(bool),
    /// An opening bracket.
    Open(Bracket),
    /// A closing bracket.
    Close(Bracket),
    /// No token begins here.
    Broken(Flaw),
}

/// A piece of a text, and how many bytes it takes. Pieces are what definitions cut a text into.
#[derive(Clone, Copy, Debug, PartialEq, Eq)]
pub struct Piece {
    pub kind: PieceKind,
    /// In bytes.
    pub len: usize,
}

/// A piece of this kind and length.
fn of(kind: PieceKind, len: usize) -> Piece
    ensures { result ≡ spec.of kind len }
{
    Piece { kind, len }
}

/// A token that is no name, string or bracket.
pub fn plain(mark: Mark, len: usize) -> Piece
    ensures { result ≡ spec.plain mark len }
{
    of(PieceKind::Plain(mark), len)
}

/// No token begins here.
pub fn broken(flaw: Flaw) -> Piece
    ensures { result ≡ spec.broken flaw }
{
    of(PieceKind::Broken(flaw), 1)
}

/// A keyword, or a name that isn't directly before a quote.
#[tactic(auto, using(crate::proofs::Pieces::pieces))]
fn word_piece(text: &[u8]) -> Piece
    ensures exact { result ≡ spec.word_piece (spec.run spec.is_in_name text.now) text.now }
    ensures within { 0 < spec.run spec.is_in_name text.now → spec.IsWithin result text.now }
{
    let n = name_len(text);
    match keyword(&text[..n]) {
        Some(mark) => plain(mark, n),
        // The prefix of a string, as in `r"a"`, which is left out.
        None if is_quote(byte_at(text, n)) => broken(Flaw::Unsupported),
        None => of(PieceKind::Name, n),
    }
}

/// A number without a leading zero before more digits, not directly before a letter, `_` or `.`.
#[tactic(auto, using(crate::proofs::Pieces::pieces))]
fn number_piece(text: &[u8]) -> Piece
    ensures exact { result ≡ spec.number_piece (spec.run spec.is_digit text.now) text.now }
    ensures within { 0 < spec.run spec.is_digit text.now → spec.IsWithin result text.now }
{
    let n = digits_len(text);
    let next = byte_at(text, n);
    if byte_at(text, 0) == b'0' && 1 < n || begins_name(next) || next == b'.' {
        broken(Flaw::Unsupported)
    } else {
        plain(Mark::Number, n)
    }
}

/// A string with its quotes, but for three quotes in a row.
fn text_piece(quote: u8, text: &[u8]) -> Piece
    requires { 0 < length text.now }
    ensures exact { result ≡ spec.text_piece quote text.now }
    ensures within { spec.IsWithin result text.now }
{
    // Three quotes in a row begin a string of several lines, which is left out.
    if byte_at(text, 1) == quote && byte_at(text, 2) == quote {
        return broken(Flaw::Unsupported);
    }
    let inside = &text[1..];
    match closing(quote, inside) {
        Some(n) => of(PieceKind::Text(holds_return(&inside[..n])), 1 + n),
        None => broken(Flaw::BadToken),
    }
}

/// A line's end, if a newline is directly after the carriage return.
fn return_piece(c: u8) -> Piece
    ensures exact { result ≡ spec.return_piece c }
    ensures short { spec.IsShort result c 0 }
{
    if c == b'\n' {
        of(PieceKind::LineEnd, 2)
    } else {
        broken(Flaw::BadToken)
    }
}

/// Spaces and tabs.
fn blanks_piece(text: &[u8]) -> Piece
    ensures exact { result ≡ spec.blanks_piece (spec.run spec.is_blank text.now) text.now }
    ensures within { 0 < spec.run spec.is_blank text.now → spec.IsWithin result text.now }
{
    let n = blanks_len(text);
    of(PieceKind::Blanks(holds_tab(&text[..n])), n)
}

/// What is no blank, comment, word, number or string.
fn other_piece(b: u8, c: u8, d: u8) -> Piece
    ensures exact { result ≡ spec.other_piece b c d }
    ensures short { spec.IsShort result c d }
{
    if b == b'\n' {
        return of(PieceKind::LineEnd, 1);
    }
    if b == b'\r' {
        return return_piece(c);
    }
    match bracket_at(b) {
        Some(kind) => of(kind, 1),
        None => sign(b, c, d),
    }
}

/// The piece at the front of a text that isn't empty.
#[tactic(auto, using(crate::proofs::Pieces::pieces), unfolding(crate::specs::Pieces::piece_at))]
pub fn piece_at(text: &[u8]) -> Piece
    requires { 0 < length text.now }
    ensures exact { result ≡ spec.piece_at text.now }
    ensures within { spec.IsWithin result text.now }
{
    let b = byte_at(text, 0);
    if is_blank(b) {
        blanks_piece(text)
    } else if b == b'#' {
        of(PieceKind::Comment, comment_len(text))
    } else if begins_name(b) {
        word_piece(text)
    } else if is_digit(b) {
        number_piece(text)
    } else if is_quote(b) {
        text_piece(b, text)
    } else {
        other_piece(b, byte_at(text, 1), byte_at(text, 2))
    }
}
