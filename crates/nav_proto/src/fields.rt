ghost use Rattle.std.specs.Prelude.{◌≡◌, ◌≤◌, IfOk, None, Some, option_map, option_and_then, codes};
ghost use Rattle.serde_json.specs.{Find.{get}, View.{view}};
ghost use Rattle.nav_proto.specs.{Answers.{LineGives}, Members.{field, optional_field}, Texts.{text_of, is_path, is_prefix, is_user}};
ghost use Rattle.json_values.specs.Numbers.{number_between, u32_of};

use crate::ProtoFault;
use crate::pieces::{is_path, is_prefix, is_user, wrong};
use json_values::{number, u32_of};
use serde_json::Value;
use std::alloc::Global;
use version_tree::{PathText, UserText};

/// The member `user`.
#[tactic(auto, using(crate::proofs::Named::named))]
pub(crate) fn user_field(alloc: Global, v: &Value) -> Result<UserText, ProtoFault>
    ensures { LineGives result (field (codes "user") (text_of is_user) (view v.now)) }
{
    match v.get("user").and_then(Value::as_str) {
        Some(text) if is_user(text) => Ok(UserText::of(alloc, text)?),
        _ => Err(wrong(alloc, "user")),
    }
}

/// The member `prefix`.
#[tactic(auto, using(crate::proofs::Named::named))]
pub(crate) fn prefix_field(alloc: Global, v: &Value) -> Result<PathText, ProtoFault>
    ensures { LineGives result (field (codes "prefix") (text_of is_prefix) (view v.now)) }
{
    match v.get("prefix").and_then(Value::as_str) {
        Some(text) if is_prefix(text) => Ok(PathText::of(alloc, text)?),
        _ => Err(wrong(alloc, "prefix")),
    }
}

/// The member `path`.
#[tactic(auto, using(crate::proofs::Named::named))]
pub(crate) fn path_field(alloc: Global, v: &Value) -> Result<PathText, ProtoFault>
    ensures { LineGives result (field (codes "path") (text_of is_path) (view v.now)) }
{
    match v.get("path").and_then(Value::as_str) {
        Some(text) if is_path(text) => Ok(PathText::of(alloc, text)?),
        _ => Err(wrong(alloc, "path")),
    }
}

fn number_in(v: &Value, name: &str) -> Option<u32>
    ensures { result ≡ option_and_then u32_of (get name.now (view v.now)) }
{
    u32_of(v.get(name)?)
}

/// The number that is the member of this name.
#[tactic(auto, using(crate::proofs::Named::named))]
pub(crate) fn number_field(alloc: Global, v: &Value, name: &str) -> Result<u32, ProtoFault>
    ensures { LineGives result (field name.now u32_of (view v.now)) }
{
    match number_in(v, name) {
        Some(n) => Ok(n),
        None => Err(wrong(alloc, name)),
    }
}

/// The number from 1 to `most` that is the member of this name, where absent the default. `null` isn't absent, but wrong.
#[tactic(auto, using(crate::proofs::Named::named))]
pub(crate) fn bound_field(
    alloc: Global,
    v: &Value,
    name: &str,
    most: u32,
    default: u32,
) -> Result<u32, ProtoFault>
    requires { (1 ≤ default) × (default ≤ most) }
    ensures gives { LineGives result
        (optional_field name.now (number_between 1 most) default (view v.now)) }
    ensures bounded { IfOk result (λ n. (1 ≤ n) × (n ≤ most)) }
{
    let Some(found) = v.get(name) else {
        return Ok(default);
    };
    match number(found, 1, most) {
        Some(bound) => Ok(bound),
        None => Err(wrong(alloc, name)),
    }
}

/// The member `base`, which may be absent.
#[tactic(auto, using(crate::proofs::Named::named))]
pub(crate) fn base_field(alloc: Global, v: &Value) -> Result<Option<u32>, ProtoFault>
    ensures { LineGives result
        (optional_field (codes "base") (λ d. option_map Some (u32_of d)) None (view v.now)) }
{
    let Some(found) = v.get("base") else {
        return Ok(None);
    };
    match u32_of(found) {
        Some(base) => Ok(Some(base)),
        None => Err(wrong(alloc, "base")),
    }
}
