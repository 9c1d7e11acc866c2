ghost use Rattle.std.specs.Prelude.{◌≡◌, ◌<◌, length, IfOk, IfSome, IfNone, IsSome, Some, None, Err};
ghost use Rattle.serde_json.specs.{Find.{as_object}, View.{view}};
ghost use Rattle.json_values.specs.Text.{json_of, IsNoObject};

use crate::checking::{Shape, shape_of};
use crate::parsing::{JsonFault, parse};
use serde_json::Value;
use std::alloc::Global;

/// The value of the bytes where it is an object, `None` where they are other JSON, or `BadJson` where they are no JSON in
/// UTF-8 that nests at most 127 deep.
///
/// Of bytes that don't begin as an object no value is made: they are looked at alone, in one block of memory as long as they
/// are. `NoMemory` may come in place of any answer but that of no bytes, which is `BadJson`.
pub fn parse_object(alloc: Global, bytes: &[u8]) -> Result<Option<Value>, JsonFault>
    ensures object { IfOk result (λ found. IfSome found (λ v.
        (json_of bytes.now ≡ Some (view v)) × IsSome (as_object (view v)))) }
    ensures other { IfOk result (λ found. IfNone found (IsNoObject bytes.now)) }
    ensures bad { result ≡ Err JsonFault.BadJson → json_of bytes.now ≡ None }
    ensures memory { result ≡ Err JsonFault.NoMemory → 0 < length bytes.now }
{
    if begins_otherwise(bytes) {
        look_first(alloc, bytes)
    } else {
        made(alloc, bytes)
    }
}

/// Whether the first byte that is no blank of JSON isn't that of an object. Nothing hangs on the answer but the memory that
/// is taken.
fn begins_otherwise(bytes: &[u8]) -> bool {
    match bytes.iter().find(|byte| !is_blank(**byte)) {
        Some(first) => *first != b'{',
        None => true,
    }
}

fn is_blank(byte: u8) -> bool {
    matches!(byte, b' ' | b'\t' | b'\n' | b'\r')
}

/// The same, where a value is made of what may be an object alone.
fn look_first(alloc: Global, bytes: &[u8]) -> Result<Option<Value>, JsonFault>
    ensures object { IfOk result (λ found. IfSome found (λ v.
        (json_of bytes.now ≡ Some (view v)) × IsSome (as_object (view v)))) }
    ensures other { IfOk result (λ found. IfNone found (IsNoObject bytes.now)) }
    ensures bad { result ≡ Err JsonFault.BadJson → json_of bytes.now ≡ None }
    ensures memory { result ≡ Err JsonFault.NoMemory → 0 < length bytes.now }
{
    match shape_of(alloc, bytes) {
        Ok(Shape::NoJson) => Err(JsonFault::BadJson),
        Ok(Shape::NoObject) => Ok(None),
        Ok(Shape::MayBeObject) => made(alloc, bytes),
        Err(_) => Err(JsonFault::NoMemory),
    }
}

/// The same, where a value is made of whatever the bytes are.
#[tactic(auto, using(crate::proofs::Others::others))]
fn made(alloc: Global, bytes: &[u8]) -> Result<Option<Value>, JsonFault>
    ensures object { IfOk result (λ found. IfSome found (λ v.
        (json_of bytes.now ≡ Some (view v)) × IsSome (as_object (view v)))) }
    ensures other { IfOk result (λ found. IfNone found (IsNoObject bytes.now)) }
    ensures bad { result ≡ Err JsonFault.BadJson → json_of bytes.now ≡ None }
    ensures memory { result ≡ Err JsonFault.NoMemory → 0 < length bytes.now }
{
    match parse(alloc, bytes) {
        Ok(value) if value.is_object() => Ok(Some(value)),
        Ok(_) => Ok(None),
        Err(fault) => Err(fault),
    }
}
