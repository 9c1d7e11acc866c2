//! The board of one seat and one thread.
ghost use Rattle.std.specs.{Prelude.{◌≡◌, ◌+◌, ℕ, [], None, Err, IfOk, OnOk, OnErr, length}, Arc.{arc_value}};
ghost use Rattle.version_tree.specs.{declared.edit.EditFault.{EditFault as Faults}, Contents.{edited_all}};
ghost use Rattle.version_board.specs.{Logs.{version_of, own, refusal, FitsHead, IsExtended, IsStale, IsRefused}, Ranked.{index_of}};
ghost use Rattle.version_board.specs.declared.fault.CommitFault.TheVariants as why;

use crate::amending::{amended, fitting};
use crate::board::{Commits, Pinned, Pins};
use crate::fault::CommitFault;
use crate::history::History;
use root_index::{RootIndex, rows_have_one_index};
use std::alloc::{AllocError, Global};
use std::marker::Model;
use std::sync::Arc;
use version_tree::{Edit, Version};

/// The board of one seat, whose name is 0. It sees all of its log, and pins the newest version. A contract sees its log.
#[derive(Drop)]
pub struct PlainBoard {
    log: History,
    pinned: Pinned,
}

impl Model for PlainBoard {
    ghost use Rattle.std.specs.{Prelude.{◌≡◌, List}, Arc.{arc_value}};
    ghost use Rattle.version_tree.specs.declared.entry.Entry.{Entry};
    ghost use Rattle.version_board.specs.{Logs.{version_of, own}, Ranked.{index_of}};

    ghost Value = { List Entry };

    ghost view = { λ b. b.log.entries };

    ghost invariant = { λ b. (arc_value b.pinned.version ≡ version_of b.log.entries)
        × (arc_value b.pinned.index ≡ index_of (arc_value b.pinned.version).content.rows)
        × (own 0 b.log.entries ≡ b.log.entries) };
}

impl PlainBoard {
    /// A board without entries, with the empty version pinned. The one error is want of memory.
    pub fn new(alloc: Global) -> Result<PlainBoard, AllocError>
        ensures { IfOk result (λ b. b ≡ []) }
    {
        let version = Arc::new(alloc, Version::empty(alloc, 0))?;
        let index = Arc::new(alloc, RootIndex::empty(alloc))?;
        Ok(PlainBoard {
            log: History::new(),
            pinned: Pinned { version, index },
        })
    }

    /// How many entries its log has; all are of its seat.
    pub fn len(&self) -> u32
        ensures count { result ≡ length self.now }
        ensures all_own { own 0 self.now ≡ self.now }
    {
        self.pinned.version.number()
    }
}

impl PlainBoard {
    /// Makes what the commit pins. Want of memory is told only where the base fits, as it is looked at first.
    fn prepared(
        &self,
        alloc: Global,
        base: Option<u32>,
        edits: &[Edit],
    ) -> Result<Pinned, CommitFault>
        ensures base { IfOk result (λ _. FitsHead base (length self.now)) }
        ensures fit { IfOk result (λ _. refusal self.now edits.now ≡ None) }
        ensures version { IfOk result (λ made. arc_value made.version
            ≡ record {
              number = length self.now + 1;
              content = edited_all edits.now
                  (version_of self.now).content;
            }) }
        ensures index { IfOk result (λ made. arc_value made.index
            ≡ index_of (arc_value made.version).content.rows) }
        ensures stale { (n : ℕ) → result ≡ Err (why.Stale n) → IsStale base (length self.now) n }
        ensures refused { (e : Faults) → result ≡ Err (why.Edit e)
            → IsRefused base edits.now self.now e }
        ensures memory { result ≡ Err why.NoMemory → FitsHead base (length self.now) }
    {
        rows_have_one_index();
        fitting(base, self.pinned.version.number())?;
        let next = amended(alloc, &self.pinned.version, edits)?;
        let index = self.index_after(alloc, &next, edits)?;
        let version = Arc::new(alloc, next)?;
        let index = Arc::new(alloc, index)?;
        Ok(Pinned { version, index })
    }

    /// The index of the version that the edits make of the head.
    fn index_after(
        &self,
        alloc: Global,
        next: &Version,
        edits: &[Edit],
    ) -> Result<RootIndex, AllocError>
        requires { next.now.content ≡ edited_all edits.now (version_of self.now).content }
        ensures { IfOk result (λ index. index ≡ index_of next.now.content.rows) }
    {
        rows_have_one_index();
        next.row_count();
        self.pinned
            .index
            .amended(alloc, &self.pinned.version, next, edits)
    }
}

impl Pins for PlainBoard {
    ghost log = { λ b. b };

    ghost seat = { λ b. 0 };

    ghost pin_at = { λ b. length b };

    fn pin(&mut self) {}

    fn pinned(&self) -> &Pinned {
        &self.pinned
    }
}

impl<R> Commits<R> for PlainBoard {
    /// As any seat does. After a refusal the log is what it was, and want of memory is told only where the base fits.
    #[tactic(auto, using(crate::proofs::Replayed::version_push, crate::proofs::Replayed::own_push))]
    fn commit(
        &mut self,
        _rt: &R,
        alloc: Global,
        base: Option<u32>,
        edits: &[Edit],
    ) -> Result<(), CommitFault>
        ensures ok { OnOk result (IsExtended 0 base edits.now self.old self.new) }
        ensures stays { OnErr result (self.new ≡ self.old) }
        ensures stale { (n : ℕ) → result ≡ Err (why.Stale n) → IsStale base (length self.new) n }
        ensures refused { (e : Faults) → result ≡ Err (why.Edit e)
            → IsRefused base edits.now self.new e }
        ensures memory { result ≡ Err why.NoMemory → FitsHead base (length self.new) }
    {
        let made = self.prepared(alloc, base, edits)?;
        let serial = self.pinned.version.number();
        self.log = self.log.and(0, serial, edits);
        self.pinned = made;
        Ok(())
    }
}
