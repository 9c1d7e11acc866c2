//! The text of a reply.
ghost use Rattle.std.specs.Prelude.{◌≡◌, string_bytes, IfOk};
ghost use Rattle.lsp_wire.specs.Replies.{id_text, refusal_text, position_text, location_text, locations_text, capabilities_text, result_text, list_text, error_text, outcome_text, reply_text};

use crate::{Id, Location, Outcome, Position, Refusal, Reply};
use json_values::quoted_text;
use std::alloc::{AllocError, Global};

/// The text of the reply, the body of a frame; the one error is want of memory. Its time follows the text's length.
pub fn print_reply(alloc: Global, reply: &Reply) -> Result<String, AllocError>
    ensures { IfOk result (λ text. string_bytes text ≡ reply_text reply.now) }
{
    let id = id_text(alloc, &reply.id)?;
    outcome_text(alloc, id.as_str(), &reply.outcome)
}

/// The text of an outcome of a message with this id. Members stand in the order of their names' bytes.
fn outcome_text(alloc: Global, id: &str, outcome: &Outcome) -> Result<String, AllocError>
    ensures { IfOk result (λ text. string_bytes text ≡ outcome_text id.now outcome.now) }
{
    match outcome {
        Outcome::Capabilities => result_text(alloc, id, capabilities_text()),
        Outcome::Null => result_text(alloc, id, "null"),
        Outcome::Locations(locations) => {
            let list = locations_text(alloc, locations.items())?;
            list_text(alloc, id, list.as_str())
        }
        Outcome::Refused(refusal) => error_text(alloc, id, refusal_text(*refusal)),
    }
}

/// A result.
fn result_text(alloc: Global, id: &str, outcome: &str) -> Result<String, AllocError>
    ensures { IfOk result (λ text. string_bytes text ≡ result_text id.now outcome.now) }
{
    format!(in alloc; "{{\"id\":{id},\"jsonrpc\":\"2.0\",\"result\":{outcome}}}")
}

/// A result that is a list.
fn list_text(alloc: Global, id: &str, list: &str) -> Result<String, AllocError>
    ensures { IfOk result (λ text. string_bytes text ≡ list_text id.now list.now) }
{
    format!(in alloc; "{{\"id\":{id},\"jsonrpc\":\"2.0\",\"result\":[{list}]}}")
}

/// An error. It stands where a result would, since a reply has one of the two.
fn error_text(alloc: Global, id: &str, error: &str) -> Result<String, AllocError>
    ensures { IfOk result (λ text. string_bytes text ≡ error_text id.now error.now) }
{
    format!(in alloc; "{{\"error\":{error},\"id\":{id},\"jsonrpc\":\"2.0\"}}")
}

/// An id, `null` where there is none: JSON-RPC 2.0, section 5, asks for that where it couldn't be read.
fn id_text(alloc: Global, id: &Option<Id>) -> Result<String, AllocError>
    ensures { IfOk result (λ text. string_bytes text ≡ id_text id.now) }
{
    match id {
        Some(Id::Text(text)) => quoted_text(alloc, text.as_str()),
        Some(Id::Number(n)) => format!(in alloc; "{n}"),
        None => String::from_str(alloc, "null"),
    }
}

/// What a server can do. `textDocumentSync` 1 asks for the whole text with each change.
fn capabilities_text() -> &'static str
    ensures { result.now ≡ capabilities_text }
{
    "{\"capabilities\":{\"definitionProvider\":true,\"referencesProvider\":true,\"textDocumentSync\":1}}"
}

/// The code and the message of a refusal. The negative codes are those of JSON-RPC 2.0, section 5.1, and of the Language
/// Server Protocol; 1 is this server's own.
fn refusal_text(refusal: Refusal) -> &'static str
    ensures { result.now ≡ refusal_text refusal }
{
    match refusal {
        Refusal::ParseError => "{\"code\":-32700,\"message\":\"parse error\"}",
        Refusal::InvalidRequest => "{\"code\":-32600,\"message\":\"invalid request\"}",
        Refusal::NotInitialized => "{\"code\":-32002,\"message\":\"not initialized\"}",
        Refusal::MethodNotFound => "{\"code\":-32601,\"message\":\"method not found\"}",
        Refusal::InvalidParams => "{\"code\":-32602,\"message\":\"invalid params\"}",
        Refusal::Crowded => "{\"code\":1,\"message\":\"crowded\"}",
    }
}

/// The parts with a comma between each and the next.
fn locations_text(alloc: Global, locations: &[Location]) -> Result<String, AllocError>
    ensures { IfOk result (λ text. string_bytes text ≡ locations_text locations.now) }
{
    let Some((first, rest)) = locations.split_first() else {
        return Ok(String::new(alloc));
    };
    let mut text = location_text(alloc, first)?;
    for location in rest {
        text.push_str(",")?;
        text.push_str(location_text(alloc, location)?.as_str())?;
    }
    Ok(text)
}

/// One part of a document.
fn location_text(alloc: Global, location: &Location) -> Result<String, AllocError>
    ensures { IfOk result (λ text. string_bytes text ≡ location_text location.now) }
{
    let end = position_text(alloc, location.end)?;
    let start = position_text(alloc, location.start)?;
    let uri = quoted_text(alloc, location.uri.as_str())?;
    format!(in alloc; "{{\"range\":{{\"end\":{end},\"start\":{start}}},\"uri\":{uri}}}")
}

/// A place in a text.
fn position_text(alloc: Global, position: Position) -> Result<String, AllocError>
    ensures { IfOk result (λ text. string_bytes text ≡ position_text position) }
{
    let Position { line, character } = position;
    format!(in alloc; "{{\"character\":{character},\"line\":{line}}}")
}
