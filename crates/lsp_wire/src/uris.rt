//! URIs of documents, and paths under a root.
ghost use Rattle.std.specs.{Prelude.{◌≡◌, IfOk, option_map}, Option.{option_copied}, String.{string_bytes}};
ghost use Rattle.lsp_wire.specs.Uris.{behind, has_digits, is_escaped, unescaped, decoded, encoded, without_slash, root_of, inside, NamesItsPath};

use percent_encoding::{AsciiSet, NON_ALPHANUMERIC, ascii_set, percent_decode, percent_encode};
use std::alloc::{AllocError, Global};

/// The bytes of ASCII that don't stand for themselves: all but letters, digits, the unreserved marks of RFC 3986, section
/// 2.3, and the slash, which parts a path.
const ESCAPED: AsciiSet = ascii_set!(
    NON_ALPHANUMERIC
        .remove(b'-')
        .remove(b'.')
        .remove(b'_')
        .remove(b'~')
        .remove(b'/')
);

/// The path that the URI names: `file://` and then the path, in which `%` and two hexadecimal digits of either case
/// stand for a byte (RFC 8089 and RFC 3986, section 2.1). `None` where it is no such URI; so is one in which a `%`
/// isn't followed by two such digits.
///
/// The one error is want of memory.
pub fn path_of_uri(alloc: Global, uri: &str) -> Result<Option<Vec<u8>>, AllocError>
    ensures { IfOk result (λ path. option_map (λ bytes. bytes.items) path ≡ decoded uri.now) }
{
    match behind(uri.as_bytes(), b"file://") {
        Some(path) => unescaped(alloc, path),
        None => Ok(None),
    }
}

/// What stands behind `front`, where the text begins with that.
fn behind<'a>(text: &'a [u8], front: &[u8]) -> Option<&'a [u8]>
    ensures { option_copied result ≡ behind front.now text.now }
{
    if text.starts_with(front) {
        Some(&text[front.len()..])
    } else {
        None
    }
}

/// The bytes that the escaped ones stand for. The escapes are tested before, since `percent_decode` lets a wrong one stand
/// for itself.
fn unescaped(alloc: Global, path: &[u8]) -> Result<Option<Vec<u8>>, AllocError>
    ensures { IfOk result (λ bytes. option_map (λ v. v.items) bytes ≡ unescaped path.now) }
{
    if !is_escaped(path) {
        return Ok(None);
    }
    let mut bytes = Vec::new(alloc);
    percent_decode(path).append_to(&mut bytes)?;
    Ok(Some(bytes))
}

/// Whether each `%` has its two digits.
fn is_escaped(path: &[u8]) -> bool
    ensures { result ≡ is_escaped path.now }
{
    for i in 0..path.len() {
        if path[i] == b'%' && !has_digits(&path[i + 1..]) {
            return false;
        }
    }
    true
}

fn has_digits(bytes: &[u8]) -> bool
    ensures { result ≡ has_digits bytes.now }
{
    match bytes {
        [high, low, ..] => high.is_ascii_hexdigit() && low.is_ascii_hexdigit(),
        _ => false,
    }
}

/// The URI of the path: `file://`, and then each byte as itself where it is an ASCII letter, a digit or one of
/// `-._~/`, else as `%` and two upper-case hexadecimal digits.
///
/// The one error is want of memory.
pub fn uri_of_path(alloc: Global, path: &[u8]) -> Result<String, AllocError>
    ensures { IfOk result (λ uri. string_bytes uri ≡ encoded path.now) }
{
    let mut uri = String::from_str(alloc, "file://")?;
    percent_encode(path, ESCAPED).append_to(&mut uri)?;
    Ok(uri)
}

/// The root of a client's project: the path that the URI names, without a slash at its end. It is empty where there is
/// no URI, or none that names a path.
///
/// The one error is want of memory.
pub fn root_of(alloc: Global, uri: Option<&str>) -> Result<Vec<u8>, AllocError>
    ensures { IfOk result (λ root. root.items ≡ root_of (option_copied uri.entry)) }
{
    let Some(uri) = uri else {
        return Ok(Vec::new(alloc));
    };
    match path_of_uri(alloc, uri)? {
        Some(path) => Ok(without_slash(path)),
        None => Ok(Vec::new(alloc)),
    }
}

/// The path without one slash at its end, so that a root is the same with it and without.
fn without_slash(path: Vec<u8>) -> Vec<u8>
    ensures { result.items ≡ without_slash path.items }
{
    let mut path = path;
    if path.ends_with(b"/") {
        path.truncate(path.len() - 1);
    }
    path
}

/// Where the path stands under the root: what stands behind the root and a slash, or `None` where it isn't under it.
pub fn inside<'a>(root: &[u8], path: &'a [u8]) -> Option<&'a [u8]>
    ensures { option_copied result ≡ inside root.now path.now }
{
    behind(behind(path, root)?, b"/")
}

/// A law: the URI of a path names that path.
pub fn uris_name_their_paths()
    ensures { NamesItsPath }
{}
