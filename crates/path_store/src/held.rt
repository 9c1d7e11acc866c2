use crate::digested::Digested;
use crate::document::Document;
use partial_path::SharedPaths;
use std::alloc::AllocError;
use std::marker::Model;

/// A document that is kept, with its digest and its paths.
#[derive(Drop)]
pub(crate) struct Held {
    doc: Document,
    digest: [u8; 32],
    paths: SharedPaths,
}

impl Model for Held {
    ghost use Rattle.std.specs.Prelude.{◌≡◌};
    ghost use Rattle.path_store.specs.{Documents.{digest_of}, Store.{Kept, kept_of}};

    ghost Value = { Kept };

    ghost view = { λ h. kept_of h.doc h.paths };

    ghost invariant = { λ h. h.digest ≡ digest_of h.doc };
}

impl Held {
    ghost use Rattle.std.specs.Prelude.{◌≡◌, IfOk};
    ghost use Rattle.path_store.specs.{Documents.{digest_of, same_doc}, Store.{kept_of, cost_of_pair}};

    /// The pair of these; the document is shared. The one error is want of memory.
    pub(crate) fn of(doc: &Digested, paths: SharedPaths) -> Result<Held, AllocError>
        ensures { IfOk result (λ held. held ≡ kept_of doc.now paths) }
    {
        Ok(Held {
            doc: doc.doc().share()?,
            digest: *doc.digest(),
            paths,
        })
    }

    /// The document with its digest.
    pub(crate) fn digested(&self) -> Digested<'_>
        ensures { result ≡ self.now.doc }
    {
        Digested::with(&self.doc, self.digest)
    }

    /// The digest of the document.
    pub(crate) fn digest(&self) -> &[u8; 32]
        ensures { result.now ≡ digest_of self.now.doc }
    {
        &self.digest
    }

    /// The paths.
    pub(crate) fn paths(&self) -> &SharedPaths
        ensures { result.now ≡ self.now.paths }
    {
        &self.paths
    }

    /// Whether it is kept for this document: the digest alone doesn't decide.
    pub(crate) fn is_of(&self, doc: &Document) -> bool
        ensures { result ≡ same_doc self.now.doc doc.now }
    {
        self.doc.is_same(doc)
    }

    /// The weight of its paths and the bytes of its document together.
    pub(crate) fn cost(&self) -> u64
        ensures { result ≡ cost_of_pair self.now }
    {
        u64::from(self.paths.get().weight()) + self.doc.bytes().len() as u64
    }
}
