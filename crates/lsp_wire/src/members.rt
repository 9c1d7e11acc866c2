ghost use Rattle.std.specs.Prelude.{◌≡◌, IfOk, option_map};
ghost use Rattle.lsp_wire.specs.Members.{member, i32_of, id_of, position_of, uri_in};
ghost use Rattle.lsp_wire.specs.declared.message.Id.TheVariants as id;
ghost use Rattle.serde_json.specs.{Find.{get, as_str}, View.{view}};

use crate::{Id, Position, Text};
use json_values::{into_string, u32_of};
use serde_json::Value;
use std::alloc::{AllocError, Global};

/// The text of this value, whose bytes aren't copied.
fn text_of(v: Value) -> Option<Text>
    ensures { result ≡ as_str (view v) }
{
    Some(Text::from_string(into_string(v)?))
}

/// The member of this name. It leaves the value without what stood there.
pub(crate) fn take_member(v: &mut Value, name: &str) -> Option<Value>
    ensures { option_map view result ≡ get name.now (view v.old) }
{
    Some(v.get_mut(name)?.take())
}

/// The text that is the member of this name, whose bytes aren't copied.
pub(crate) fn take_text(v: Value, name: &str) -> Option<Text>
    ensures { result ≡ member name.now as_str (view v) }
{
    let mut v = v;
    text_of(take_member(&mut v, name)?)
}

/// The same, copied.
fn text_in(alloc: Global, v: &Value, name: &str) -> Result<Option<Text>, AllocError>
    ensures { IfOk result (λ text. text ≡ member name.now as_str (view v.now)) }
{
    match v.get(name).and_then(Value::as_str) {
        Some(text) => Ok(Some(Text::of(alloc, text)?)),
        None => Ok(None),
    }
}

/// The URI of the document that the parameters name.
pub(crate) fn uri_in(alloc: Global, params: &Value) -> Result<Option<Text>, AllocError>
    ensures { IfOk result (λ uri. uri ≡ uri_in (view params.now)) }
{
    match params.get("textDocument") {
        Some(document) => text_in(alloc, document, "uri"),
        None => Ok(None),
    }
}

/// The value as a place in a text.
#[tactic(auto, unfolding(crate::specs::Members::position_of))]
pub(crate) fn position_of(v: &Value) -> Option<Position>
    ensures { result ≡ position_of (view v.now) }
{
    let line = u32_of(v.get("line")?)?;
    let character = u32_of(v.get("character")?)?;
    Some(Position { line, character })
}

/// The id that the value is.
pub(crate) fn id_of(alloc: Global, v: &Value) -> Result<Option<Id>, AllocError>
    ensures { IfOk result (λ id. id ≡ id_of (view v.now)) }
{
    match v.as_str() {
        Some(text) => Ok(Some(Id::Text(Text::of(alloc, text)?))),
        None => Ok(number_id(v)),
    }
}

/// The id that a number is.
fn number_id(v: &Value) -> Option<Id>
    ensures { result ≡ option_map id.Number (i32_of (view v.now)) }
{
    Some(Id::Number(i32_of(v)?))
}

/// The value as a whole number of 32 bits with a sign, as the protocol's `integer` is.
fn i32_of(v: &Value) -> Option<i32>
    ensures { result ≡ i32_of (view v.now) }
{
    match v.as_i64() {
        Some(n) if -2_147_483_648 <= n && n <= 2_147_483_647 => Some(n as i32),
        _ => None,
    }
}
