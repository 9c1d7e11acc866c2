ghost use Rattle.std.specs.{Prelude.{◌≡◌, ◌<◌, length, is_some, IfOk, OnErr}, List.{list_all}};
ghost use Rattle.json.specs.{Lex.{tokens}, Reads.{token_of}};
ghost use Rattle.serde_json.specs.Read.{read};
ghost use Rattle.json_values.specs.{Text.{json_of}, Checks.{Tells, opens_object, one_value, token_fits}};

use crate::ranges::number_fits;
use json::{Reader, Scratch, Token};
use std::alloc::{AllocError, Global};
use std::str;

/// How deep arrays and objects may nest.
const MAX_DEPTH: usize = 127;

/// What bytes are, as far as is told without a value of them.
#[derive(Clone, Copy, Debug, PartialEq, Eq)]
pub(crate) enum Shape {
    /// They are no JSON in UTF-8 that nests at most 127 deep.
    NoJson,
    /// They are such JSON, and no object.
    NoObject,
    /// They begin as an object, and were looked at no further.
    MayBeObject,
}

/// What the bytes are. The one error is want of memory.
///
/// They are gone over three times, and no value is made of them: the one block of memory is as long as they are.
#[inline(never)]
#[tactic(auto, using(crate::proofs::Checks::shapes))]
pub(crate) fn shape_of(alloc: Global, bytes: &[u8]) -> Result<Shape, AllocError>
    ensures told { IfOk result (λ s. Tells s (json_of bytes.now)) }
    ensures memory { OnErr result (0 < length bytes.now) }
{
    match str::from_utf8(bytes) {
        Ok(text) => shape_of_text(text, &mut Scratch::new(alloc)),
        Err(_) => Ok(Shape::NoJson),
    }
}

/// The same of a text.
#[tactic(auto, using(crate::proofs::Checks::texts))]
fn shape_of_text(text: &str, scratch: &mut Scratch) -> Result<Shape, AllocError>
    ensures told { IfOk result (λ s. Tells s (read text.now)) }
    ensures memory { OnErr result (0 < length text.now) }
{
    if begins_object(text, scratch)? {
        return Ok(Shape::MayBeObject);
    }
    if !is_value(text, scratch)? {
        return Ok(Shape::NoJson);
    }
    if numbers_fit(text, scratch)? {
        Ok(Shape::NoObject)
    } else {
        Ok(Shape::NoJson)
    }
}

/// Whether the text's first token begins an object.
fn begins_object(text: &str, scratch: &mut Scratch) -> Result<bool, AllocError>
    ensures first { IfOk result (λ b. b ≡ opens_object (tokens text.now)) }
    ensures memory { OnErr result (0 < length text.now) }
{
    let mut reader = Reader::new(text, scratch)?;
    Ok(matches!(reader.next(), Some(Token::BeginObject)))
}

/// Whether the text is one value of the grammar, of whatever size its numbers are.
fn is_value(text: &str, scratch: &mut Scratch) -> Result<bool, AllocError>
    ensures one { IfOk result (λ b. b ≡ is_some (one_value (tokens text.now))) }
    ensures memory { OnErr result (0 < length text.now) }
{
    let mut reader = Reader::new(text, scratch)?;
    Ok(reader.skip_value(MAX_DEPTH).is_ok() && reader.next().is_none())
}

/// Whether each number of the text is in range.
fn numbers_fit(text: &str, scratch: &mut Scratch) -> Result<bool, AllocError>
    ensures each { IfOk result (λ b. b ≡ list_all token_fits (tokens text.now)) }
    ensures memory { OnErr result (0 < length text.now) }
{
    let mut reader = Reader::new(text, scratch)?;
    Ok(all_fit(&mut reader))
}

fn all_fit(reader: &mut Reader<'_>) -> bool
    ensures { result ≡ list_all token_fits reader.old }
{
    while let Some(token) = reader.next() {
        if !token_fits(&token) {
            return false;
        }
    }
    true
}

fn token_fits(token: &Token<'_>) -> bool
    ensures { result ≡ token_fits (token_of token.now) }
{
    match *token {
        Token::Number(text) => number_fits(text),
        _ => true,
    }
}
