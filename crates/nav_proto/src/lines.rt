ghost use Rattle.std.specs.Prelude.{◌≡◌, ◌≢◌, ◌↔◌, ◌<◌, length, IfOk, IfErr, Ok, Err, ok_or};
ghost use Rattle.serde_json.specs.View.{view};
ghost use Rattle.json_values.specs.Text.{json_of};
ghost use Rattle.nav_proto.specs.{Bounded.{IsBounded}, Answers.{LineGives, Shows}, Requests.{request_from}, NodeLine.{node_of, node_from}};

use crate::members::Form;
use crate::pieces::wrong;
use crate::words::request;
use crate::{ProtoFault, Request};
use json_values::{JsonFault, has_only, parse, parse_object, u32_of};
use serde_json::Value;
use std::alloc::Global;

/// The request that the line is, or its first fault, as `docs/FORMATS.md` tells them.
///
/// `NoMemory` may come in place of any answer. A line that begins as an object is gone over once to
/// make a value of it, which copies each text once; the documents of a commit are taken out of that
/// value and not copied again. Any other line is gone over three times, and no value is made of it.
#[tactic(auto, using(crate::proofs::Causes::causes))]
pub fn read_request(alloc: Global, line: &[u8]) -> Result<Request, ProtoFault>
    ensures ok { IfOk result (λ request. request_from line.now ≡ Ok request) }
    ensures err { IfErr result (λ e. e ≢ ProtoFault.NoMemory → request_from line.now ≡ Err e) }
    ensures bounded { IfOk result IsBounded }
{
    read(alloc, line)
}

#[tactic(auto, using(crate::proofs::Whole::whole))]
fn read(alloc: Global, line: &[u8]) -> Result<Request, ProtoFault>
    ensures gives { LineGives result (request_from line.now) }
    ensures bounded { IfOk result IsBounded }
{
    match parse_object(alloc, line) {
        Ok(Some(value)) => request(alloc, value),
        // What is no object has no member `do`.
        Ok(None) => Err(wrong(alloc, "do")),
        Err(fault) => Err(fault_of(fault)),
    }
}

/// The node that the line of `once` asks for: `{"node":n}`, n a whole number of 32 bits, with no
/// other member. `BadRequest` names `node` where the line is JSON of any other form.
///
/// `NoMemory` may come in place of any answer.
#[tactic(auto, using(crate::proofs::Causes::causes))]
pub fn read_node(alloc: Global, line: &[u8]) -> Result<u32, ProtoFault>
    ensures ok { IfOk result (λ node. node_from line.now ≡ Ok node) }
    ensures err { IfErr result (λ e. e ≢ ProtoFault.NoMemory → node_from line.now ≡ Err e) }
{
    node(alloc, line)
}

#[tactic(auto, using(crate::proofs::Named::named), unfolding(crate::specs::NodeLine::node_from))]
fn node(alloc: Global, line: &[u8]) -> Result<u32, ProtoFault>
    ensures { LineGives result (node_from line.now) }
{
    let value = value_of(alloc, line)?;
    match node_of(&value) {
        Some(node) => Ok(node),
        // One field is told for every wrong form, since the line has no other.
        None => Err(wrong(alloc, "node")),
    }
}

/// The node that the value asks for.
#[tactic(auto, unfolding(crate::specs::NodeLine::node_of))]
fn node_of(v: &Value) -> Option<u32>
    ensures { result ≡ node_of (view v.now) }
{
    let node = u32_of(v.get("node")?)?;
    if has_only(v, &Form::NodeLine) {
        Some(node)
    } else {
        None
    }
}

/// The value of the bytes. No memory is wanting where there are no bytes.
fn value_of(alloc: Global, bytes: &[u8]) -> Result<Value, ProtoFault>
    ensures value { Shows view result (ok_or (json_of bytes.now) ProtoFault.BadJson) }
    ensures memory { result ≡ Err ProtoFault.NoMemory → 0 < length bytes.now }
{
    match parse(alloc, bytes) {
        Ok(value) => Ok(value),
        Err(fault) => Err(fault_of(fault)),
    }
}

/// The fault of bytes that have no value for this reason.
fn fault_of(fault: JsonFault) -> ProtoFault
    ensures json { (result ≡ ProtoFault.BadJson) ↔ (fault ≡ JsonFault.BadJson) }
    ensures memory { (result ≡ ProtoFault.NoMemory) ↔ (fault ≡ JsonFault.NoMemory) }
{
    match fault {
        JsonFault::BadJson => ProtoFault::BadJson,
        JsonFault::NoMemory => ProtoFault::NoMemory,
    }
}
