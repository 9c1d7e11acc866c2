//! A log that contracts alone see.
ghost use Rattle.std.specs.{Prelude.{◌≡◌, List, [], ◌∷◌, ◌++◌}, Borrow.{ftrue}};
ghost use Rattle.version_tree.specs.declared.entry.Entry.{Entry};
ghost use Rattle.version_board.specs.Logs.{entry};

use std::marker::{Model, PhantomData};
use version_tree::Edit;

/// A log as contracts see it. It takes no memory, and its functions do nothing.
#[derive(Drop)]
pub struct History {
    of: PhantomData<()>,
    pub ghost entries: { List Entry },
}

impl Model for History {
    ghost also_owns = { λ _. ftrue };
}

// It owns nothing.
unsafe impl Send for History {}

unsafe impl Sync for History {}

impl History {
    /// The log without entries.
    pub fn new() -> History
        ensures { result.entries ≡ [] }
    {
        History { of: PhantomData }
    }

    /// The log with one entry more: of that seat, with that number, with these edits.
    pub fn and(&self, seat: u32, serial: u32, edits: &[Edit]) -> History
        ensures { result.entries ≡ self.now.entries ++ entry seat serial edits.now ∷ [] }
    {
        History { of: PhantomData }
    }
}
