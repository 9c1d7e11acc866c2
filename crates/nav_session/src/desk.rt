ghost use Rattle.std.specs.Prelude.{◌≡◌, ◌≤◌, ◌*◌, [], None, Some, is_some, IfOk, IfSome, if◌then◌else◌};
ghost use Rattle.path_store.specs.Store.{swept};
ghost use Rattle.version_tree.specs.Contents.{granted_rows};
ghost use Rattle.nav_session.specs.{Desks.{is_accepted, max_cost, share, shared_cost}, Inside.{change_refusal}};

use nav_answers::{AskedView, EndIndex};
use nav_proto::{PlainError, Reply};
use path_store::PathStore;
use std::alloc::{AllocError, Global};
use std::marker::Model;
use std::mem;
use std::thread::Threads;
use version_tree::{UserText, Version};

/// The most that the documents may cost that a desk keeps which shares with none: the weights of their paths and their
/// bytes.
pub const MAX_COST: u64 = 48_000_000;

/// The most that those may cost which several desks keep together that share. It is less, since each of their sessions has
/// a thread of its own, whose freed memory the others don't use.
pub const SHARED_COST: u64 = 24_000_000;

/// A commit of so many edits lists paths by where they end, so that the first `callers` behind it needn't: that takes some
/// hundredth of such a commit, and a tenth of one of few edits.
const MANY_EDITS: usize = 64;

/// The user that may change a version.
const OPERATOR: &str = "operator";

/// What a session keeps between its lines: documents with their paths, which outlive it, its user, where one is named,
/// and what that one sees of the version that its board pins, once it was looked at, with what was found of its
/// references. The documents cost at most what the desk keeps once a commit was accepted; no call changes how much that
/// is. A contract sees the documents, the user, the view and what the desk keeps.
#[derive(Drop)]
pub struct Desk {
    pub(crate) store: PathStore,
    user: Option<UserText>,
    view: Option<AskedView>,
    keeps: u64,
    /// Paths by where they end, for the next view: what an earlier one kept of them, or a commit of many documents.
    ends: EndIndex,
}

impl Model for Desk {
    ghost use Rattle.index_gate.specs.Indexed.{AreIndexed};
    ghost use Rattle.nav_session.specs.Desks.{OnDesk};

    ghost Value = { OnDesk };

    ghost view = { λ d. record { store = d.store; user = d.user; view = d.view; keeps = d.keeps } };

    ghost invariant = { λ d. AreIndexed d.store };
}

impl Desk {
    /// A desk with no documents and nobody named, which shares with no other: it keeps documents up to `MAX_COST`. It takes
    /// no memory.
    pub fn new(alloc: Global) -> Desk
        ensures { result ≡ record { store = []; user = None; view = None; keeps = max_cost } }
    {
        Desk {
            store: PathStore::new(alloc),
            user: None,
            view: None,
            keeps: MAX_COST,
            ends: EndIndex::new(alloc),
        }
    }

    /// One of so many desks that share, at least 1, with no documents and nobody named: it keeps documents up to its part of
    /// `SHARED_COST`, rounded down, so that all together keep no more than that. It takes no memory.
    pub fn sharing(alloc: Global, desks: u64) -> Desk
        requires { 1 ≤ desks }
        ensures desk { result
            ≡ record { store = []; user = None; view = None; keeps = share desks } }
        ensures together { result.keeps * desks ≤ shared_cost }
    {
        Desk {
            store: PathStore::new(alloc),
            user: None,
            view: None,
            keeps: SHARED_COST / desks,
            ends: EndIndex::new(alloc),
        }
    }

    /// Names nobody any more, as at the beginning of a session; the documents stay. It takes no memory.
    pub fn clear(&mut self)
        ensures { self.new ≡ record self.old { user = None; view = None } }
    {
        self.user = None;
        self.forget_view();
    }

    /// Names the user, who has looked at nothing yet.
    pub(crate) fn name(&mut self, user: UserText)
        ensures { self.new ≡ record self.old { user = Some user; view = None } }
    {
        self.user = Some(user);
        self.forget_view();
    }

    /// Forgets what the user sees, before another version is pinned. Whoever moves a board's pin between two lines, or
    /// goes on at another board, calls it first. Paths by where they end stay for the next view. It takes no memory.
    pub fn forget_view(&mut self)
        ensures { self.new ≡ record self.old { view = None } }
    {
        if let Some(view) = self.view.take() {
            self.ends = view.into_ends();
        }
    }

    /// Whether a user is named.
    pub(crate) fn has_user(&self) -> bool
        ensures { result ≡ is_some self.now.user }
    {
        let _ = &self.store;
        self.user.is_some()
    }

    /// Why the user may change nothing; None where it may.
    pub(crate) fn change_refusal(&self) -> Option<PlainError>
        ensures { result ≡ change_refusal self.now.user }
    {
        let _ = &self.store;
        match &self.user {
            None => Some(PlainError::NoUser),
            Some(user) if user.as_str() == OPERATOR => None,
            Some(_) => Some(PlainError::Forbidden),
        }
    }

    /// What the user sees of the version: the view that is kept, which is taken out, or one that is made, of whose
    /// references nothing is kept. The one error is want of memory.
    pub(crate) fn take_view(
        &mut self,
        alloc: Global,
        version: &Version,
    ) -> Result<AskedView, AllocError>
        requires { IfSome self.old.view (λ rows. IfSome self.old.user
            (λ user. rows ≡ granted_rows user version.now.content)) }
        ensures view { IfOk result (λ view. IfSome self.old.user
            (λ user. view ≡ granted_rows user version.now.content)) }
        ensures rest { self.new ≡ record self.old { view = None } }
    {
        match self.view.take() {
            Some(view) => Ok(view),
            None => {
                let view = version.view(alloc, self.user_text())?;
                let ends = mem::replace(&mut self.ends, EndIndex::new(alloc));
                Ok(AskedView::after(view, ends))
            }
        }
    }

    /// Lists what the user sees of the version by where its paths end, for the next view, where a commit of many edits made
    /// it; nothing where memory is refused.
    pub(crate) fn list_ends<R: Threads + Sync>(
        &mut self,
        rt: &R,
        alloc: Global,
        version: &Version,
        edits: usize,
    )
        ensures { self.new ≡ self.old }
    {
        if edits < MANY_EDITS {
            return;
        }
        if let Ok(view) = version.view(alloc, self.user_text()) {
            let _listed = self.ends.fit(rt, alloc, &view);
        }
    }

    /// Keeps the view.
    pub(crate) fn keep_view(&mut self, view: AskedView)
        ensures { self.new ≡ record self.old { view = Some view } }
    {
        self.view = Some(view);
    }

    /// The user's text, or none.
    fn user_text(&self) -> &str
        ensures { IfSome self.now.user (λ user. result.now ≡ user) }
    {
        match &self.user {
            Some(user) => user.as_str(),
            None => "",
        }
    }

    /// Lets go of the documents that are kept, but for such as cost nothing. What the pinned version holds of them stays
    /// there, so a session that commits one text at a time keeps no more than its version. It takes no memory.
    pub fn let_documents_go(&mut self)
        ensures { self.new ≡ record self.old { store = swept 0 self.old.store } }
    {
        self.store.sweep(0);
    }

    /// Drops the oldest documents until all cost at most what the desk keeps, where the reply accepts a commit. It takes no
    /// memory.
    pub(crate) fn sweep_after(&mut self, reply: &Reply)
        ensures { self.new ≡ record self.old {
          store = if is_accepted reply.now then swept self.old.keeps self.old.store
              else self.old.store;
        } }
    {
        if let Reply::Version(_) = reply {
            self.store.sweep(self.keeps);
        }
    }
}
