ghost use Rattle.std.specs.Prelude.{◌≡◌, map, option_map};
ghost use Rattle.serde_json.specs.{Find.{as_array}, View.{view, items_view}};
ghost use Rattle.json_values.specs.Lists.{list_of};

use serde_json::Value;

/// The items of the value, where it is an array.
#[tactic(auto, using(crate::proofs::Arrays::lists))]
pub fn items(v: &Value) -> Option<&[Value]>
    ensures { option_map (λ vs. map view vs.now) result ≡ list_of (view v.now) }
{
    match v.as_array() {
        Some(items) => Some(items.as_slice()),
        None => None,
    }
}

/// The same by value: the items aren't copied.
#[tactic(auto, using(crate::proofs::Arrays::lists))]
pub fn into_items(v: Value) -> Option<Vec<Value>>
    ensures { option_map (λ vs. map view vs.items) result ≡ list_of (view v) }
{
    array(v)
}

fn array(v: Value) -> Option<Vec<Value>>
    ensures { option_map (λ vs. items_view vs.items) result ≡ as_array (view v) }
{
    match v {
        Value::Array(items) => Some(items),
        _ => None,
    }
}
