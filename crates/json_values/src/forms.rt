ghost use Rattle.std.specs.{Prelude.{◌≡◌, ℕ, List, Bool, not, option_map}, BTreeMap.{keys}, List.{find, list_all}, String.{string_bytes}};
ghost use Rattle.serde_json.specs.View.{view, members_view};
ghost use Rattle.json_values.specs.Members.{each_name, other_of, has_only, other_in};

use serde_json::{Map, Value};

/// A form of objects: which names their members may have.
pub trait Form {
    /// Whether a member may have this name.
    ghost allows: { Self → List ℕ → Bool };

    /// Whether a member may have this name.
    fn may_have(&self, name: &str) -> bool
        ensures { result ≡ allows self.now name.now };
}

/// Whether the value is an object with no member but those of the form.
pub fn has_only<F: Form>(v: &Value, form: &F) -> bool
    ensures { result ≡ has_only (F.allows form.now) (view v.now) }
{
    match v.as_object() {
        Some(members) => all_allowed(members, form),
        None => false,
    }
}

#[tactic(auto, using(crate::proofs::Members::members))]
fn all_allowed<F: Form>(members: &Map<String, Value>, form: &F) -> bool
    ensures { result ≡ each_name (F.allows form.now) (members_view members.now.entries) }
{
    all_keys(members, form)
}

/// The same of the map's keys, as std's contracts see them.
fn all_keys<F: Form>(members: &Map<String, Value>, form: &F) -> bool
    ensures { result ≡ list_all (λ k. F.allows form.now (string_bytes k)) (keys members.now) }
{
    members.keys().all(|name| form.may_have(name.as_str()))
}

/// The least name by bytes among the members of the object that the form doesn't have.
pub fn other_member<'a, F: Form>(v: &'a Value, form: &F) -> Option<&'a str>
    ensures { option_map (λ name. name.now) result ≡ other_in (F.allows form.now) (view v.now) }
{
    other_name(v.as_object()?, form)
}

#[tactic(auto, using(crate::proofs::Members::members))]
fn other_name<'a, F: Form>(members: &'a Map<String, Value>, form: &F) -> Option<&'a str>
    ensures { option_map (λ name. name.now) result
        ≡ other_of (F.allows form.now) (members_view members.now.entries) }
{
    match other_key(members, form) {
        Some(name) => Some(name.as_str()),
        None => None,
    }
}

/// The same among the map's keys, as std's contracts see them. The map is in the order of its keys' bytes, so the first is
/// the least.
fn other_key<'a, F: Form>(members: &'a Map<String, Value>, form: &F) -> Option<&'a String>
    ensures { option_map (λ k. k.now) result
        ≡ find (λ k. not (F.allows form.now (string_bytes k))) (keys members.now) }
{
    members.keys().find(|name| !form.may_have(name.as_str()))
}
