//! What the bytes of a body are.
ghost use Rattle.std.specs.Prelude.{◌≡◌, ◌<◌, length, IfOk, OnOk, OnErr, option_map, codes};
ghost use Rattle.serde_json.specs.{Find.{get, as_str}, View.{view}};
ghost use Rattle.lsp_wire.specs.Messages.{method_of, params_of, id_from, message_with, body_with, body_of, body_from};

use crate::asks::{asks, method_of};
use crate::members::{id_of, take_member};
use crate::{Body, Id, Message, Method};
use json_values::{JsonFault, parse};
use serde_json::Value;
use std::alloc::{AllocError, Global};

/// What the bytes of a frame's body are: the message that they are, or why they are none.
///
/// The one error is want of memory, of which there is none where there are no bytes. The bytes are gone over once to make
/// a value of them, which copies each text once; the text of a document is taken out of that value and not copied again.
#[tactic(auto, using(crate::proofs::Valued::some_bytes))]
pub fn read_body(alloc: Global, bytes: &[u8]) -> Result<Body, AllocError>
    ensures body { IfOk result (λ body. body ≡ body_from bytes.now) }
    ensures memory { OnErr result (0 < length bytes.now) }
{
    match parse(alloc, bytes) {
        Ok(value) => body_of(alloc, value),
        Err(fault) => without_value(fault),
    }
}

/// What a body is that has no value for this reason; the one error is want of memory.
fn without_value(fault: JsonFault) -> Result<Body, AllocError>
    ensures body { IfOk result (λ body. body ≡ Body.NotJson) }
    ensures bad { OnOk result (fault ≡ JsonFault.BadJson) }
    ensures memory { OnErr result (fault ≡ JsonFault.NoMemory) }
{
    match fault {
        JsonFault::BadJson => Ok(Body::NotJson),
        JsonFault::NoMemory => Err(AllocError),
    }
}

/// What the value is. An object without a method is passed over whatever its id, as a client's reply is.
fn body_of(alloc: Global, v: Value) -> Result<Body, AllocError>
    ensures { IfOk result (λ body. body ≡ body_of (view v)) }
{
    if v.as_object().is_none() {
        return Ok(Body::Invalid);
    }
    let Some(name) = v.get("method") else {
        return Ok(Body::Passed);
    };
    let method = method_named(name);
    Ok(message(alloc, method, v)?.map_or(Body::Invalid, Body::Message))
}

/// The method that is named, which may be unknown, if the name is a text.
fn method_named(name: &Value) -> Option<Option<Method>>
    ensures { result ≡ option_map method_of (as_str (view name.now)) }
{
    Some(method_of(name.as_str()?))
}

/// The message with this method. Its id is read before its parameters, since these take the value apart.
#[tactic(auto, unfolding(crate::specs::Messages::message_with))]
fn message(
    alloc: Global,
    method: Option<Option<Method>>,
    v: Value,
) -> Result<Option<Message>, AllocError>
    ensures { IfOk result (λ message. message ≡ message_with method (view v)) }
{
    let Some(method) = method else {
        return Ok(None);
    };
    let Some(id) = id_in(alloc, &v)? else {
        return Ok(None);
    };
    let asks = asks(alloc, method, params_of(v))?;
    Ok(Some(Message { id, asks }))
}

/// The id of the message, if it has one; the outer None where there is a member `id` that is none, as `null`.
fn id_in(alloc: Global, v: &Value) -> Result<Option<Option<Id>>, AllocError>
    ensures { IfOk result (λ id. id ≡ id_from (get (codes "id") (view v.now))) }
{
    let Some(found) = v.get("id") else {
        return Ok(Some(None));
    };
    Ok(id_of(alloc, found)?.map(Some))
}

/// The parameters of the message, moved out of it; `null` where it has none, in which every member is missing.
fn params_of(v: Value) -> Value
    ensures { view result ≡ params_of (view v) }
{
    let mut v = v;
    take_member(&mut v, "params").unwrap_or(Value::Null)
}
