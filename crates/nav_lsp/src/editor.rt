//! What a session keeps between its messages.
ghost use Rattle.std.specs.Prelude.{◌≡◌, [], None, Some, IfOk, IfSome};
ghost use Rattle.lsp_texts.specs.Texts.{AreSame, no_texts, texts_in};
ghost use Rattle.version_tree.specs.Contents.{granted_rows};
ghost use Rattle.nav_session.specs.Desks.{max_cost};
ghost use Rattle.nav_lsp.specs.Editing.{operator};
ghost use Rattle.nav_lsp.specs.declared.phase.Phase.TheVariants as phase;

use crate::phase::Phase;
use lsp_answers::Project;
use lsp_texts::OpenTexts;
use nav_answers::AskedView;
use nav_session::Desk;
use std::alloc::{AllocError, Global};
use version_tree::Version;

/// The user as whom an editor acts.
pub(crate) const OPERATOR: &str = "operator";

/// What the session of an editor keeps between its messages: how far it is, the root of the project, the texts of open
/// documents, the documents with their paths, and what the operator sees of the version that is pinned, once it was
/// looked at, with what was found of its references. A contract sees it by `editing_at` and `IsReady` (`specs/Held.antt`).
#[derive(Drop)]
pub struct Editor {
    pub(crate) phase: Phase,
    pub(crate) root: Vec<u8>,
    pub(crate) texts: OpenTexts,
    pub(crate) desk: Desk,
    view: Option<AskedView>,
}

impl Editor {
    /// The editor before its first message, with an empty desk. It takes no memory.
    pub fn new(alloc: Global) -> Editor
        ensures phase { result.phase ≡ phase.Before }
        ensures root { result.root.items ≡ [] }
        ensures texts { AreSame no_texts (texts_in result.texts) }
        ensures desk { result.desk ≡ record {
          store = [];
          user = None;
          view = None;
          keeps = max_cost;
        } }
        ensures view { result.view ≡ None }
    {
        Editor {
            phase: Phase::Before,
            root: Vec::new(alloc),
            texts: OpenTexts::new(alloc),
            desk: Desk::new(alloc),
            view: None,
        }
    }

    /// The project as queries are told of it.
    pub(crate) fn project(&self) -> Project<'_>
        ensures root { result.root.now ≡ self.now.root.items }
        ensures texts { result.texts.now ≡ self.now.texts }
    {
        Project {
            root: self.root.as_slice(),
            texts: &self.texts,
        }
    }

    /// What the operator sees of the version: the view that is kept, which is taken out, or one that is made, of whose
    /// references nothing is kept. The one error is want of memory.
    pub(crate) fn take_view(
        &mut self,
        alloc: Global,
        version: &Version,
    ) -> Result<AskedView, AllocError>
        requires { IfSome self.old.view (λ rows. rows ≡ granted_rows operator version.now.content) }
        ensures view { IfOk result (λ view. view ≡ granted_rows operator version.now.content) }
        ensures rest { self.new ≡ record self.old { view = None } }
    {
        match self.view.take() {
            Some(view) => Ok(view),
            None => Ok(AskedView::of(alloc, version.view(alloc, OPERATOR)?)),
        }
    }

    /// Keeps the view.
    pub(crate) fn keep_view(&mut self, view: AskedView)
        ensures { self.new ≡ record self.old { view = Some view } }
    {
        self.view = Some(view);
    }

    /// Forgets what the operator sees, before another version is pinned.
    pub(crate) fn forget_view(&mut self)
        ensures { self.new ≡ record self.old { view = None } }
    {
        self.view = None;
    }
}
