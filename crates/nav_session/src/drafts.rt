ghost use Rattle.std.specs.Prelude.{◌≡◌, ◌++◌, map, IfOk};
ghost use Rattle.path_store.specs.Documents.{doc_of};
ghost use Rattle.nav_session.specs.{Requests.{docs_in}, Inside.{draft_of, filled}};

use nav_proto::{DocText, Edits, FileEdit};
use partial_path::SharedPaths;
use path_store::Document;
use std::alloc::{AllocError, Global};
use version_tree::{Edit, PathText};

/// An edit of a commit without its document.
#[derive(Drop)]
pub enum Draft {
    Put(PathText),
    Remove(PathText),
}

/// The edits of a commit, their documents apart.
#[derive(Drop)]
pub struct Drafts {
    pub docs: Vec<Document>,
    pub drafts: Vec<Draft>,
}

/// Takes the documents out of the edits; their texts aren't copied. The one error is want of memory.
pub fn drafts_of(alloc: Global, edits: Edits) -> Result<Drafts, AllocError>
    ensures docs { IfOk result (λ made. made.docs.items ≡ docs_in edits) }
    ensures drafts { IfOk result (λ made. made.drafts.items ≡ map draft_of edits) }
{
    let mut docs = Vec::new(alloc);
    let mut drafts = Vec::new(alloc);
    for edit in edits.into_items() {
        match edit {
            FileEdit::Put { path, text } => {
                docs.push(document(alloc, &path, text)?)?;
                drafts.push(Draft::Put(path))?;
            }
            FileEdit::Remove { path } => drafts.push(Draft::Remove(path))?,
        }
    }
    Ok(Drafts { docs, drafts })
}

/// The document of the text at the path; the text isn't copied. The one error is want of memory.
fn document(alloc: Global, path: &PathText, text: DocText) -> Result<Document, AllocError>
    ensures { IfOk result (λ doc. doc ≡ doc_of path.now text) }
{
    let path = String::from_str(alloc, path.as_str())?;
    Document::taking(alloc, path, text.into_string().into_bytes())
}

/// The edits of a version where these are the files of the documents, in their order. The one error is want of memory.
pub fn edits_from(
    alloc: Global,
    drafts: Vec<Draft>,
    files: Vec<SharedPaths>,
) -> Result<Vec<Edit>, AllocError>
    ensures { IfOk result (λ edits. edits.items ≡ filled drafts.items files.items) }
{
    let mut edits = Vec::with_capacity(alloc, drafts.len())?;
    let mut files = files.into_iter();
    for draft in drafts {
        match draft {
            Draft::Put(path) => match files.next() {
                Some(paths) => edits.push(Edit::Put { path, paths })?,
                None => return Ok(edits),
            },
            Draft::Remove(path) => edits.push(Edit::Remove { path })?,
        }
    }
    Ok(edits)
}
