ghost use Rattle.std.specs.{Prelude.{◌≡◌, IfOk, map, option_map, option_and_then}, String.{string_bytes}};
ghost use Rattle.serde_json.specs.{Find.{get, as_str}, View.{view}};
ghost use Rattle.nav_proto.specs.Edits.{path_in, put_of, remove_of, edit_of, all_some, edits_of};

use crate::members::{Form, other};
use crate::pieces::is_path;
use crate::{DocText, Edits, FileEdit};
use json_values::{into_items, into_string};
use serde_json::Value;
use std::alloc::{AllocError, Global};
use version_tree::PathText;

/// The string that is the member of this name. It is moved out, and leaves the member without it, so that a document's
/// text isn't copied.
fn take_string(v: &mut Value, name: &str) -> Option<String>
    ensures { option_map string_bytes result ≡ option_and_then as_str (get name.now (view v.old)) }
{
    match v.get_mut(name) {
        Some(found) => into_string(found.take()),
        None => None,
    }
}

/// The path that is the member of this name.
fn path_in(alloc: Global, v: &Value, name: &str) -> Result<Option<PathText>, AllocError>
    ensures { IfOk result (λ path. path ≡ path_in name.now (view v.now)) }
{
    match v.get(name).and_then(Value::as_str) {
        Some(text) if is_path(text) => Ok(Some(PathText::of(alloc, text)?)),
        _ => Ok(None),
    }
}

/// The edit that puts a document, whose text isn't copied.
#[tactic(auto, unfolding(crate::specs::Edits::put_of))]
fn put(alloc: Global, v: &mut Value) -> Result<Option<FileEdit>, AllocError>
    ensures { IfOk result (λ edit. edit ≡ put_of (view v.old)) }
{
    let Some(path) = path_in(alloc, v, "put")? else {
        return Ok(None);
    };
    // Before the text is taken out: behind that the value is no longer what the line says.
    if other(v, Form::Put).is_some() {
        return Ok(None);
    }
    let Some(text) = take_string(v, "text") else {
        return Ok(None);
    };
    Ok(Some(FileEdit::Put {
        path,
        text: DocText::from_string(text),
    }))
}

/// The edit that removes a file.
#[tactic(auto, unfolding(crate::specs::Edits::remove_of))]
fn remove(alloc: Global, v: &Value) -> Result<Option<FileEdit>, AllocError>
    ensures { IfOk result (λ edit. edit ≡ remove_of (view v.now)) }
{
    let Some(path) = path_in(alloc, v, "remove")? else {
        return Ok(None);
    };
    if other(v, Form::Remove).is_some() {
        return Ok(None);
    }
    Ok(Some(FileEdit::Remove { path }))
}

/// The edit that the value is: one with a member `put` puts, any other has to remove.
fn edit(alloc: Global, v: Value) -> Result<Option<FileEdit>, AllocError>
    ensures { IfOk result (λ edit. edit ≡ edit_of (view v)) }
{
    let mut v = v;
    match v.get("put") {
        Some(_) => put(alloc, &mut v),
        None => remove(alloc, &v),
    }
}

/// The edits of these values, where each is one.
fn all_edits(alloc: Global, values: Vec<Value>) -> Result<Option<Edits>, AllocError>
    ensures { IfOk result (λ edits. edits ≡ all_some (map edit_of (map view values.items))) }
{
    let mut edits = Vec::new(alloc);
    for value in values {
        match edit(alloc, value)? {
            Some(edit) => edits.push(edit)?,
            // One wrong edit is a fault of the whole field, and which one it is isn't told.
            None => return Ok(None),
        }
    }
    Ok(Some(Edits::of(edits)))
}

/// The edits of a value. It leaves the value without them.
#[tactic(auto, unfolding(crate::specs::Edits::edits_of))]
pub(crate) fn edits_in(alloc: Global, v: Value) -> Result<Option<Edits>, AllocError>
    ensures { IfOk result (λ edits. edits ≡ edits_of (view v)) }
{
    match into_items(v) {
        Some(values) => all_edits(alloc, values),
        None => Ok(None),
    }
}
