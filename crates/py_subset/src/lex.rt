//! The tokens of a text.

ghost use Rattle.std.specs.Prelude.{◌≡◌, ◌+◌, ◌^◌, ◌<◌, ◌≤◌, length, take, drop, IfOk};
ghost use Rattle.py_subset.specs.Pieces as pieces;
ghost use Rattle.py_subset.specs.Layout as spec;

use crate::Items;
use crate::piece::{Piece, PieceKind, piece_at};
use crate::reading::{Place, Reading};
use crate::token::PyFault;
use crate::token_list::Tokens;
use std::alloc::{AllocError, Global};

/// For how many bytes of a text room for one token is made at once. A text with more tokens than that takes
/// more room as they come.
const BYTES_A_TOKEN: usize = 3;

/// Before the first line of a text of this many bytes; the one error is want of memory.
fn start<'a>(alloc: Global, bytes: usize) -> Result<Reading<'a>, AllocError>
    ensures { IfOk result (λ r. r ≡ spec.start) }
{
    Ok(Reading {
        tokens: Items::with_capacity(alloc, bytes / BYTES_A_TOKEN)?,
        blocks: Items::new(alloc),
        brackets: Items::new(alloc),
        fresh: true,
        tab: false,
    })
}

/// The place after a piece of this kind and length.
fn past(kind: PieceKind, len: u32, place: Place) -> Place
    requires room { place.line + place.column + len < 2 ^ 32 }
    requires some { 0 < len }
    ensures exact { result ≡ spec.past kind len place }
    ensures sum { result.line + result.column ≤ place.line + place.column + len }
{
    match kind {
        PieceKind::LineEnd => Place {
            line: place.line + 1,
            column: 0,
        },
        PieceKind::Blanks(_)
        | PieceKind::Comment
        | PieceKind::Name
        | PieceKind::Plain(_)
        | PieceKind::Text(_)
        | PieceKind::Open(_)
        | PieceKind::Close(_)
        | PieceKind::Broken(_) => Place {
            line: place.line,
            column: place.column + len,
        },
    }
}

/// The text from an index on.
fn rest_from(text: &[u8], at: usize) -> &[u8]
    requires { at ≤ length text.now }
    ensures { result.now ≡ drop at text.now }
{
    &text[at..]
}

/// The first bytes of a text, this many.
fn front(text: &[u8], len: usize) -> &[u8]
    requires { len ≤ length text.now }
    ensures { result.now ≡ take len text.now }
{
    &text[..len]
}

/// The line of the text's end, which is the number of its newlines.
pub fn end_line(text: &[u8]) -> u32
    requires { length text.now < 2 ^ 32 }
    ensures { result ≡ spec.end_line text.now }
{
    text.iter().filter(|b| **b == b'\n').count() as u32
}

/// The tokens of a text of fewer than 2^32 bytes, without the end of the text, or its first fault. It takes time
/// and memory that follow the length of the text.
pub fn tokens<'a>(alloc: Global, text: &'a [u8]) -> Result<Tokens<'a>, PyFault>
    requires { length text.now < 2 ^ 32 }
    ensures { spec.Reads result (spec.tokens_of text.now) }
{
    let mut reading = start(alloc, text.len())?;
    let mut place = Place { line: 0, column: 0 };
    let mut at = 0;
    // Each piece has a byte at least, so the text is used up.
    while at < text.len() {
        let rest = rest_from(text, at);
        let piece = piece_at(rest);
        reading.take(piece.kind, front(rest, piece.len), place)?;
        place = past(piece.kind, piece.len as u32, place);
        at += piece.len;
    }
    reading.finish(end_line(text))?;
    Ok(Tokens::of(alloc, reading.tokens))
}
