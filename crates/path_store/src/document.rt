use std::alloc::{AllocError, Global};
use std::marker::Model;
use std::sync::Arc;

/// What a document is made of: a path, and the bytes that stand there.
#[derive(Drop)]
struct Contents {
    path: String,
    bytes: Vec<u8>,
}

/// A document: a path and the bytes that stand there. Who holds it once more shares what it is made of.
#[derive(Drop)]
pub struct Document {
    contents: Arc<Contents, Global>,
}

impl Model for Document {
    ghost use Rattle.std.specs.{Prelude.{◌≡◌}, Arc.{arc_value}, String.{string_bytes}};
    ghost use Rattle.path_store.specs.Documents.{Doc, doc_of};

    ghost Value = { Doc };

    ghost view = { λ d. doc_of (string_bytes (arc_value d.contents).path)
        (arc_value d.contents).bytes.items };
}

impl Document {
    ghost use Rattle.std.specs.{Prelude.{◌≡◌, IfOk, IsTrue}, String.{string_bytes}};
    ghost use Rattle.path_store.specs.Documents.{doc_of, same_doc};

    /// The document of a copy of this path and these bytes. The one error is want of memory.
    pub fn new(alloc: Global, path: &str, bytes: &[u8]) -> Result<Document, AllocError>
        ensures { IfOk result (λ doc. doc ≡ doc_of path.now bytes.now) }
    {
        let path = String::from_str(alloc, path)?;
        let bytes = Vec::from_slice(alloc, bytes)?;
        Document::taking(alloc, path, bytes)
    }

    /// The document of this path and these bytes, which are taken over and not copied. It takes constant time. The
    /// one error is want of memory.
    pub fn taking(alloc: Global, path: String, bytes: Vec<u8>) -> Result<Document, AllocError>
        ensures { IfOk result (λ doc. doc ≡ doc_of (string_bytes path) bytes.items) }
    {
        Ok(Document {
            contents: Arc::new(alloc, Contents { path, bytes })?,
        })
    }

    /// The same document once more, not copied. The one error is want of room to count one holder more.
    pub fn share(&self) -> Result<Document, AllocError>
        ensures { IfOk result (λ doc. doc ≡ self.now) }
    {
        Ok(Document {
            contents: Arc::try_clone(&self.contents)?,
        })
    }

    /// The path.
    pub fn path(&self) -> &str
        ensures { result.now ≡ self.now.path }
    {
        self.contents.path.as_str()
    }

    /// The bytes at that path.
    pub fn bytes(&self) -> &[u8]
        ensures { result.now ≡ self.now.bytes }
    {
        self.contents.bytes.as_slice()
    }

    /// Whether the other document has the same path and the same bytes. It takes time that follows the number of
    /// bytes, where they are as many.
    #[tactic(auto, using(crate::proofs::Same::same_is))]
    pub fn is_same(&self, other: &Document) -> bool
        ensures exact { result ≡ same_doc self.now other.now }
        ensures same { IsTrue result → self.now ≡ other.now }
    {
        self.path() == other.path() && self.bytes() == other.bytes()
    }
}
