//! Tokens that are made of pieces.

ghost use Rattle.std.specs.{Prelude.{◌≡◌, ◌+◌, ◌^◌, ◌<◌, ◌++◌, length, replicate, OnOk}, Str.{IsAscii}};
ghost use Rattle.py_subset.specs.Layout as spec;

use crate::Items;
use crate::reading::Place;
use crate::token::{Mark, Token};
use crate::tree::{PyText, Word};
use std::alloc::AllocError;
use std::str;

/// A token other than a name.
pub fn token<'a>(mark: Mark, line: u32) -> Token<'a>
    ensures { result ≡ spec.token mark line }
{
    Token {
        mark,
        word: Word {
            text: PyText::of(""),
            line,
            from_column: 0,
            to_column: 0,
        },
    }
}

/// The characters of bytes that are ASCII.
#[tactic(auto, using(crate::proofs::Pieces::texts))]
fn characters(name: &[u8]) -> &str
    requires { IsAscii name.now }
    ensures { result.now ≡ name.now }
{
    str::from_utf8(name).unwrap()
}

/// A name with its text and its columns.
pub fn name_token<'a>(name: &'a [u8], place: Place) -> Token<'a>
    requires ascii { IsAscii name.now }
    requires short { place.column + length name.now < 2 ^ 32 }
    ensures { result ≡ spec.name_token name.now place }
{
    Token {
        mark: Mark::Name,
        word: Word {
            text: PyText::of(characters(name)),
            line: place.line,
            from_column: place.column,
            to_column: place.column + name.len() as u32,
        },
    }
}

/// Adds this many `Dedent`, one for each block that ends.
pub fn dedents<'a>(tokens: &mut Items<Token<'a>>, n: usize, line: u32) -> Result<(), AllocError>
    ensures { OnOk result (tokens.new ≡ tokens.old ++ replicate n (spec.token Mark.Dedent line)) }
{
    for i in 0..n {
        tokens.push(token(Mark::Dedent, line))?;
    }
    Ok(())
}
