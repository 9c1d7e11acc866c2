ghost use Rattle.std.specs.Prelude.{◌≡◌};
ghost use Rattle.path_store.specs.Documents.{doc_of, digest_of};

use crate::document::Document;
use sha2::{Digest, Sha256};
use std::marker::Model;

/// A document with its digest, by which a store finds it. A contract sees the document.
#[derive(Drop)]
pub struct Digested<'a> {
    doc: &'a Document,
    digest: [u8; 32],
}

impl<'a> Model for Digested<'a> {
    ghost use Rattle.std.specs.Prelude.{◌≡◌};
    ghost use Rattle.path_store.specs.Documents.{Doc, digest_of};

    ghost Value = { Doc };

    ghost view = { λ d. d.doc.now };

    ghost invariant = { λ d. d.digest ≡ digest_of d.doc.now };
}

impl<'a> Digested<'a> {
    ghost use Rattle.std.specs.Prelude.{◌≡◌};
    ghost use Rattle.path_store.specs.Documents.{digest_of};

    /// The document with its digest, which is made here. It takes time that follows the number of the document's
    /// bytes, and no memory.
    pub fn of(doc: &'a Document) -> Digested<'a>
        ensures { result ≡ doc.now }
    {
        Digested::with(doc, digest_of(doc.path(), doc.bytes()))
    }

    /// The document with this digest, which was made before.
    pub(crate) fn with(doc: &'a Document, digest: [u8; 32]) -> Digested<'a>
        requires { digest ≡ digest_of doc.now }
        ensures { result ≡ doc.now }
    {
        Digested { doc, digest }
    }

    /// The document.
    pub fn doc(&self) -> &'a Document
        ensures { result.now ≡ self.now }
    {
        self.doc
    }

    /// The SHA-256 digest (FIPS 180-4) of the path's bytes, a zero byte and the document's bytes.
    pub fn digest(&self) -> &[u8; 32]
        ensures { result.now ≡ digest_of self.now }
    {
        &self.digest
    }
}

// The digest of the document with this path and these bytes.
#[tactic(auto, unfolding(crate::specs::Documents::digest_of))]
fn digest_of(path: &str, bytes: &[u8]) -> [u8; 32]
    ensures { result ≡ digest_of (doc_of path.now bytes.now) }
{
    let mut hasher = Sha256::new();
    hasher.update(path.as_bytes());
    hasher.update(&[0]);
    hasher.update(bytes);
    hasher.finalize()
}
