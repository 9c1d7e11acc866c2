ghost use Rattle.std.specs.{Prelude.{◌≡◌, option_map, IfOk}, String.{string_bytes}};
ghost use Rattle.json.specs.Print.{quoted};
ghost use Rattle.serde_json.specs.{Find.{as_str}, View.{view}};

use serde_json::Value;
use std::alloc::{AllocError, Global};

/// The string of the value, where it is one, by value: its bytes aren't copied.
pub fn into_string(v: Value) -> Option<String>
    ensures { option_map string_bytes result ≡ as_str (view v) }
{
    match v {
        Value::String(text) => Some(text),
        _ => None,
    }
}

/// The text as a JSON string, in quotes and escaped (RFC 8259, section 7); the one error is want of memory.
pub fn quoted_text(alloc: Global, text: &str) -> Result<String, AllocError>
    ensures { IfOk result (λ s. string_bytes s ≡ quoted text.now) }
{
    Value::String(String::from_str(alloc, text)?).to_string(alloc)
}
