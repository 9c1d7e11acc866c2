//! What the methods ask for, with their parameters.
ghost use Rattle.std.specs.Prelude.{◌≡◌, IfOk, None, codes, map, option_map, unwrap_or};
ghost use Rattle.lsp_wire.specs.{declared.message.Asks.TheVariants.{WrongParams}, Members.{member, position_of}, Messages.{method_of, opened, change_of, text_after, changed, closed, definition, references, asks_by, asks_of}};
ghost use Rattle.serde_json.specs.{Find.{as_bool, as_str}, View.{view}};
ghost use Rattle.json_values.specs.Lists.{list_of};

use crate::members::{position_of, take_member, take_text, uri_in};
use crate::{Asks, Method, Position, Text};
use json_values::into_items;
use serde_json::Value;
use std::alloc::{AllocError, Global};

/// The method of this name.
#[tactic(auto, unfolding(crate::specs::Messages::method_of))]
pub(crate) fn method_of(name: &str) -> Option<Method>
    ensures { result ≡ method_of name.now }
{
    if name == "initialize" {
        Some(Method::Initialize)
    } else if name == "initialized" {
        Some(Method::Initialized)
    } else if name == "shutdown" {
        Some(Method::Shutdown)
    } else if name == "exit" {
        Some(Method::Exit)
    } else if name == "textDocument/didOpen" {
        Some(Method::DidOpen)
    } else if name == "textDocument/didChange" {
        Some(Method::DidChange)
    } else if name == "textDocument/didClose" {
        Some(Method::DidClose)
    } else if name == "textDocument/definition" {
        Some(Method::Definition)
    } else if name == "textDocument/references" {
        Some(Method::References)
    } else {
        None
    }
}

/// What the method asks for with these parameters. A long text among them isn't copied.
pub(crate) fn asks(alloc: Global, method: Option<Method>, params: Value) -> Result<Asks, AllocError>
    ensures { IfOk result (λ asks. asks ≡ asks_of method (view params)) }
{
    match method {
        Some(known) => asks_by(alloc, known, params),
        None => Ok(Asks::Unknown),
    }
}

fn asks_by(alloc: Global, method: Method, params: Value) -> Result<Asks, AllocError>
    ensures { IfOk result (λ asks. asks ≡ asks_by method (view params)) }
{
    match method {
        Method::Initialize => Ok(Asks::Initialize {
            root: take_text(params, "rootUri"),
        }),
        Method::Initialized => Ok(Asks::Initialized),
        Method::Shutdown => Ok(Asks::Shutdown),
        Method::Exit => Ok(Asks::Exit),
        Method::DidOpen => Ok(or_wrong(opened(alloc, params)?, method)),
        Method::DidChange => Ok(or_wrong(changed(alloc, params)?, method)),
        Method::DidClose => Ok(or_wrong(closed(alloc, &params)?, method)),
        Method::Definition => Ok(or_wrong(definition(alloc, &params)?, method)),
        Method::References => Ok(or_wrong(references(alloc, &params)?, method)),
    }
}

/// What is asked for, or that the method's parameters are wrong, which the method alone doesn't tell.
fn or_wrong(asks: Option<Asks>, method: Method) -> Asks
    ensures { result ≡ unwrap_or asks (WrongParams method) }
{
    asks.unwrap_or(Asks::WrongParams(method))
}

/// A document is opened. Its URI is copied before its text is taken out of the parameters.
#[tactic(auto, unfolding(crate::specs::Messages::opened))]
fn opened(alloc: Global, params: Value) -> Result<Option<Asks>, AllocError>
    ensures { IfOk result (λ asks. asks ≡ opened (view params)) }
{
    let Some(uri) = uri_in(alloc, &params)? else {
        return Ok(None);
    };
    Ok(document_text(params).map(|text| Asks::DidOpen { uri, text }))
}

/// The text of the document in the parameters, moved out of them: it may be megabytes.
fn document_text(params: Value) -> Option<Text>
    ensures { result ≡ member (codes "textDocument") (member (codes "text") as_str) (view params) }
{
    let mut params = params;
    take_text(take_member(&mut params, "textDocument")?, "text")
}

/// A document is changed, by changes of its whole text alone, as the server's capabilities ask for.
#[tactic(auto, unfolding(crate::specs::Messages::changed))]
fn changed(alloc: Global, params: Value) -> Result<Option<Asks>, AllocError>
    ensures { IfOk result (λ asks. asks ≡ changed (view params)) }
{
    let Some(uri) = uri_in(alloc, &params)? else {
        return Ok(None);
    };
    let Some(changes) = changes_in(params) else {
        return Ok(None);
    };
    Ok(text_after(changes).map(|text| Asks::DidChange { uri, text }))
}

/// The changes in the parameters, moved out of them.
fn changes_in(params: Value) -> Option<Vec<Value>>
    ensures { option_map (λ vs. map view vs.items) result
        ≡ member (codes "contentChanges") list_of (view params) }
{
    let mut params = params;
    into_items(take_member(&mut params, "contentChanges")?)
}

/// The text after these changes, which is that of the last, where each is one; none where there are none, and then the
/// document's text stays.
fn text_after(changes: Vec<Value>) -> Option<Option<Text>>
    ensures { result ≡ text_after None (map view changes.items) }
{
    let mut last = None;
    for change in changes {
        last = Some(change_of(change)?);
    }
    Some(last)
}

/// The text that the change gives. One with a member `range` changes a part, also where that is `null`.
fn change_of(v: Value) -> Option<Text>
    ensures { result ≡ change_of (view v) }
{
    if v.get("range").is_some() {
        return None;
    }
    take_text(v, "text")
}

/// A document is closed.
fn closed(alloc: Global, params: &Value) -> Result<Option<Asks>, AllocError>
    ensures { IfOk result (λ asks. asks ≡ closed (view params.now)) }
{
    Ok(uri_in(alloc, params)?.map(|uri| Asks::DidClose { uri }))
}

/// The definitions are asked for.
#[tactic(auto, unfolding(crate::specs::Messages::definition))]
fn definition(alloc: Global, params: &Value) -> Result<Option<Asks>, AllocError>
    ensures { IfOk result (λ asks. asks ≡ definition (view params.now)) }
{
    let Some(uri) = uri_in(alloc, params)? else {
        return Ok(None);
    };
    Ok(position_in(params).map(|at| Asks::Definition { uri, at }))
}

/// The references are asked for, with the declaration among them or not: the protocol wants that said.
#[tactic(auto, unfolding(crate::specs::Messages::references))]
fn references(alloc: Global, params: &Value) -> Result<Option<Asks>, AllocError>
    ensures { IfOk result (λ asks. asks ≡ references (view params.now)) }
{
    let Some(uri) = uri_in(alloc, params)? else {
        return Ok(None);
    };
    let Some(at) = position_in(params) else {
        return Ok(None);
    };
    Ok(declaration_in(params).map(|declaration| Asks::References {
        uri,
        at,
        declaration,
    }))
}

/// The place in the parameters, in lines and UTF-16 code units from 0.
fn position_in(params: &Value) -> Option<Position>
    ensures { result ≡ member (codes "position") position_of (view params.now) }
{
    position_of(params.get("position")?)
}

/// Whether the parameters ask for the declaration too; None where they don't say.
fn declaration_in(params: &Value) -> Option<bool>
    ensures { result
        ≡ member (codes "context") (member (codes "includeDeclaration") as_bool) (view params.now) }
{
    params.get("context")?.get("includeDeclaration")?.as_bool()
}
