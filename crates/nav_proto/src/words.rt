ghost use Rattle.std.specs.Prelude.{◌≡◌, IfOk};
ghost use Rattle.serde_json.specs.View.{view};
ghost use Rattle.nav_proto.specs.{Bounded.{IsBounded}, Answers.{LineGives}, Requests.{hello_of, commit_of, callers_of, request_of}};

use crate::fields::{base_field, path_field, user_field};
use crate::forms::{callers_form, edits_field, point, query, rule};
use crate::members::{Form, only};
use crate::pieces::wrong;
use crate::{ProtoFault, Request};
use serde_json::Value;
use std::alloc::Global;

/// The request of the form that the member `do` names. The words are compared one by one, as the definition does.
#[tactic(auto, using(crate::proofs::Named::named), unfolding(crate::specs::Requests::request_of, crate::specs::Requests::form_of))]
pub(crate) fn request(alloc: Global, v: Value) -> Result<Request, ProtoFault>
    ensures gives { LineGives result (request_of (view v)) }
    ensures bounded { IfOk result IsBounded }
{
    let Some(word) = v.get("do").and_then(Value::as_str) else {
        return Err(wrong(alloc, "do"));
    };
    if word == "hello" {
        hello(alloc, &v)
    } else if word == "pin" {
        only(alloc, &v, Form::Bare).map(|()| Request::Pin)
    } else if word == "commit" {
        commit(alloc, v)
    } else if word == "grant" {
        rule(alloc, &v).map(|(user, prefix)| Request::Grant { user, prefix })
    } else if word == "revoke" {
        rule(alloc, &v).map(|(user, prefix)| Request::Revoke { user, prefix })
    } else if word == "deny" {
        rule(alloc, &v).map(|(user, prefix)| Request::Deny { user, prefix })
    } else if word == "undeny" {
        rule(alloc, &v).map(|(user, prefix)| Request::Undeny { user, prefix })
    } else if word == "define" {
        query(alloc, &v).map(|(path, (at, bounds))| Request::Define { path, at, bounds })
    } else if word == "references" {
        query(alloc, &v).map(|(path, (at, bounds))| Request::References { path, at, bounds })
    } else if word == "callers" {
        callers(alloc, &v)
    } else if word == "quit" {
        only(alloc, &v, Form::Bare).map(|()| Request::Quit)
    } else {
        Err(wrong(alloc, "do"))
    }
}

/// The request `hello`. As in each request here, the members come first, in the order of `docs/FORMATS.md`, and one that
/// may not stand is told last.
#[tactic(auto, unfolding(crate::specs::Requests::hello_of))]
fn hello(alloc: Global, v: &Value) -> Result<Request, ProtoFault>
    ensures gives { LineGives result (hello_of (view v.now)) }
    ensures bounded { IfOk result IsBounded }
{
    let user = user_field(alloc, v)?;
    only(alloc, v, Form::User)?;
    Ok(Request::Hello { user })
}

/// The request `commit`.
#[tactic(auto, unfolding(crate::specs::Requests::commit_of))]
fn commit(alloc: Global, v: Value) -> Result<Request, ProtoFault>
    ensures gives { LineGives result (commit_of (view v)) }
    ensures bounded { IfOk result IsBounded }
{
    let base = base_field(alloc, &v)?;
    // Looked for before the edits are taken out of the value, so that no document is copied; told after them, since the
    // members' own faults come first.
    let alone = only(alloc, &v, Form::Commit);
    let edits = edits_field(alloc, v)?;
    alone?;
    Ok(Request::Commit { base, edits })
}

/// The request `callers`, which has no bounds.
#[tactic(auto, unfolding(crate::specs::Requests::callers_of))]
fn callers(alloc: Global, v: &Value) -> Result<Request, ProtoFault>
    ensures gives { LineGives result (callers_of (view v.now)) }
    ensures bounded { IfOk result IsBounded }
{
    let path = path_field(alloc, v)?;
    let at = point(alloc, v)?;
    only(alloc, v, callers_form(v))?;
    Ok(Request::Callers { path, at })
}
