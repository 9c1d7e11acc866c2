ghost use Rattle.std.specs.Prelude.{◌≡◌, ◌↔◌, ◌<◌, length, IfOk, Some, None, Err};
ghost use Rattle.serde_json.specs.{Errors.{IsMemory}, View.{view}};
ghost use Rattle.json_values.specs.Text.{json_of};

use serde_json::{Category, Error, Value};
use std::alloc::Global;

/// Why there is no value.
#[derive(Clone, Copy, Debug, PartialEq, Eq)]
pub enum JsonFault {
    /// The bytes aren't JSON in UTF-8, or nest deeper than 127.
    BadJson,
    /// Memory was refused.
    NoMemory,
}

/// The value of the bytes, or `BadJson` where they are no JSON in UTF-8 that nests at most 127 deep.
///
/// `NoMemory` may come in place of any answer but that of no bytes, which is `BadJson`. The bytes are gone over once, and
/// each text is copied once.
#[tactic(auto, using(crate::proofs::Parsed::texts))]
pub fn parse(alloc: Global, bytes: &[u8]) -> Result<Value, JsonFault>
    ensures ok { IfOk result (λ v. json_of bytes.now ≡ Some (view v)) }
    ensures bad { result ≡ Err JsonFault.BadJson → json_of bytes.now ≡ None }
    ensures memory { result ≡ Err JsonFault.NoMemory → 0 < length bytes.now }
{
    match Value::from_slice(alloc, bytes) {
        Ok(value) => Ok(value),
        Err(error) => Err(fault_of(&error)),
    }
}

/// The fault that an error of reading is.
fn fault_of(error: &Error) -> JsonFault
    ensures { (result ≡ JsonFault.NoMemory) ↔ IsMemory error.now }
{
    if error.classify() == Category::Memory {
        JsonFault::NoMemory
    } else {
        JsonFault::BadJson
    }
}
