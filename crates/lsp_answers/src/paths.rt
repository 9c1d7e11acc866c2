//! Which documents of an editor are modules of the project.
ghost use Rattle.std.specs.Prelude.{◌≡◌, IfOk, None, Some, if◌then◌else◌};
ghost use Rattle.lsp_answers.specs.Documents.{module_path, names_module, path_under};

use lsp_wire::{inside, path_of_uri};
use nav_proto::is_path;
use std::alloc::{AllocError, Global};
use std::str;
use version_tree::PathText;

/// The path in the project of the document that the URI names, where it is inside. The one error is want of memory.
pub fn path_under(alloc: Global, root: &[u8], uri: &str) -> Result<Option<PathText>, AllocError>
    ensures { IfOk result (λ path. path ≡ path_under root.now uri.now) }
{
    let Some(path) = path_of_uri(alloc, uri)? else {
        return Ok(None);
    };
    match inside(root, &path) {
        Some(path) => module_path(alloc, path),
        None => Ok(None),
    }
}

/// The path, where it is that of a module. Its bytes come from a URI and may be any, also such as are no UTF-8.
fn module_path(alloc: Global, path: &[u8]) -> Result<Option<PathText>, AllocError>
    ensures { IfOk result (λ found. found ≡ module_path path.now) }
{
    match str::from_utf8(path) {
        Ok(text) => if_module(alloc, text),
        Err(_) => Ok(None),
    }
}

/// The text as a path, where it names a module: it is copied then alone.
fn if_module(alloc: Global, text: &str) -> Result<Option<PathText>, AllocError>
    ensures { IfOk result (λ o. o ≡ if names_module text.now then Some text.now else None) }
{
    if names_module(text) {
        Ok(Some(PathText::of(alloc, text)?))
    } else {
        Ok(None)
    }
}

/// Whether the text is a path that a commit may put, of a document that is read as a module.
fn names_module(text: &str) -> bool
    ensures { result ≡ names_module text.now }
{
    is_path(text) && text.as_bytes().ends_with(b".py")
}
