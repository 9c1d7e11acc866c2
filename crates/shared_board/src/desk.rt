//! What the seats of a board share: the book's word, and under a lock the newest head with the writer that shows it.
ghost use Rattle.std.specs.Prelude.{◌≡◌, ◌<◌, ◌≤◌, ◌+◌, ◌^◌, ℕ, true, [], ◌∷◌, ◌++◌, None, Some, Err, IfOk, OnOk, IfSome, OnErr, MatchOption, MatchResult, length};
ghost use Rattle.version_tree.specs.declared.edit.EditFault.{EditFault as Faults};
ghost use Rattle.version_board.specs.Logs.{own, entry, refusal, FitsHead, IsStale, IsRefused};
ghost use Rattle.version_board.specs.declared.fault.CommitFault.TheVariants as why;
ghost use Rattle.shared_board.specs.{Bodies.{IsBodyOf}, Commits.{Settles}};

use crate::body::Body;
use crate::book::{Book, Draft, Naming};
use crate::head::{Head, Slot};
use crate::showing::Shows;
use left_right::{ReadHandle, WriteHandle};
use std::alloc::{AllocError, Global};
use std::marker::Model;
use std::sync::{Arc, Mutex};
use version_board::CommitFault;
use version_tree::Edit;

/// What a seat reads the newest head by.
pub type HeadReader<J> = ReadHandle<Slot<J>>;

/// What shows the newest head to the seats' readers.
pub type HeadWriter<J, R> = WriteHandle<Slot<J>, Head<J>, R>;

/// What all seats of a board share, with what shows the newest head.
#[derive(Drop)]
pub struct SharedBy<J: Naming, W: Shows<Head<J>> + Drop> {
    pub(crate) book: Book<J>,
    pub(crate) desk: Mutex<Desk<J, W>>,
}

/// What all seats of a board share.
pub type Shared<J, R> = SharedBy<J, HeadWriter<J, R>>;

/// The newest head, which is what the seats' readers find, but where memory for that was refused: then they find all but
/// its last entry. Contracts see its log, and whether that is shown.
#[derive(Drop)]
pub struct Desk<J: Naming, W: Shows<Head<J>> + Drop> {
    writer: W,
    head: Head<J>,
    /// Whether the newest head is shown. Where memory for that was refused it may not be.
    shown: bool,
}

impl<J: Naming, W: Shows<Head<J>> + Drop> Model for Desk<J, W> {
    ghost use Rattle.std.specs.Prelude.{◌≡◌, true};
    ghost use Rattle.shared_board.specs.Desks.{Newest, IsNearlyShown};

    ghost Value = { Newest };

    ghost view = { λ d. record { log = d.head; shown = d.shown } };

    ghost invariant = { λ d. (d.shown ≡ true → W.shows d.writer d.head)
        × IsNearlyShown (W.shows d.writer) d.head };
}

impl<J: Naming, W: Shows<Head<J>> + Drop> Desk<J, W> {
    /// A desk whose newest head is this one, and is shown. The one error is want of memory.
    pub(crate) fn first(writer: W, head: Head<J>) -> Result<Desk<J, W>, AllocError>
        ensures { IfOk result (λ desk. desk ≡ record { log = head; shown = true }) }
    {
        let mut writer = writer;
        let shown = head.share()?;
        writer.show(shown)?;
        Ok(Desk {
            writer,
            head,
            shown: true,
        })
    }

    pub(crate) fn head(&self) -> &Head<J>
        ensures { result.now ≡ self.now.log }
    {
        &self.head
    }

    /// Shows the newest head where it isn't shown. The one error is want of memory.
    fn catch_up(&mut self) -> Result<(), AllocError>
        ensures log { self.new.log ≡ self.old.log }
        ensures shown { OnOk result (self.new.shown ≡ true) }
    {
        if !self.shown {
            let shown = self.head.share()?;
            self.writer.show(shown)?;
            self.shown = true;
        }
        Ok(())
    }

    /// Appends the seat's next entry, shows the head that ends with it, and gives that head; `None` where the log is
    /// longer than the head, which by the rule never comes. The newest head is shown before another entry is appended. A
    /// base that doesn't fit is told before want of memory.
    fn extended(
        &mut self,
        alloc: Global,
        book: &Book<J>,
        seat: u32,
        base: Option<u32>,
        edits: &[Edit],
    ) -> Result<Option<Head<J>>, CommitFault>
        requires { seat < J.board.seats }
        ensures ok { IfOk result (λ o. IfSome o (λ head. head
            ≡ self.old.log ++ entry seat (length (own seat self.old.log)) edits.now ∷ [])) }
        ensures desk { IfOk result (λ o. MatchOption o (self.new.log ≡ self.old.log)
            (λ head. self.new.log ≡ head)) }
        ensures base { IfOk result (λ o. IfSome o (λ _. FitsHead base (length self.old.log))) }
        ensures fit { IfOk result (λ o. IfSome o (λ _. refusal self.old.log edits.now ≡ None)) }
        ensures refused { OnErr result (self.new.log ≡ self.old.log) }
        ensures stale { (n : ℕ) → result ≡ Err (why.Stale n)
            → IsStale base (length self.old.log) n }
        ensures edit { (e : Faults) → result ≡ Err (why.Edit e)
            → IsRefused base edits.now self.old.log e }
        ensures memory { result ≡ Err why.NoMemory → FitsHead base (length self.old.log) }
    {
        let caught_up = self.catch_up();
        let body = self.head.next_body(alloc, seat, base, edits)?;
        caught_up?;
        Ok(self.appended(alloc, book, seat, edits, body)?)
    }

    /// Appends the seat's next entry, with which the log has that body, where the newest head is shown; then shows the
    /// head that ends with it. All that takes memory is made before the entry is appended, but for what shows it: where
    /// that is refused memory, the entry stands. The one error is want of memory.
    #[tactic(auto, using(crate::proofs::Nearly::shown_after))]
    fn appended(
        &mut self,
        alloc: Global,
        book: &Book<J>,
        seat: u32,
        edits: &[Edit],
        body: Body,
    ) -> Result<Option<Head<J>>, AllocError>
        requires seat { seat < J.board.seats }
        requires shown { self.old.shown ≡ true }
        requires body { IsBodyOf J.board.seats body
            (self.old.log ++ entry seat (length (own seat self.old.log)) edits.now ∷ []) }
        ensures head { IfOk result (λ o. IfSome o (λ head. head
            ≡ self.old.log ++ entry seat (length (own seat self.old.log)) edits.now ∷ [])) }
        ensures desk { IfOk result (λ o. MatchOption o (self.new.log ≡ self.old.log)
            (λ head. self.new.log ≡ head)) }
        ensures refused { OnErr result (self.new.log ≡ self.old.log) }
    {
        let body = Arc::new(alloc, body)?;
        let for_seat = Arc::try_clone(&body)?;
        let for_readers = Arc::try_clone(&body)?;
        let _number = self.head.pinned().version.number();
        let serial = self.head.count(seat);
        let mut front = self.head.front().again();
        let draft = Draft {
            seat,
            serial,
            edits,
        };
        if !front.append(book, &draft) {
            return Ok(None);
        }
        let mine = Head::of(for_seat, front.again());
        let shown = Head::of(for_readers, front.again());
        self.head = Head::of(body, front);
        self.shown = self.writer.show(shown).is_ok();
        Ok(Some(mine))
    }

    /// Commits for a seat that has seen `seen`: one entry is appended, or none. `None` where this head isn't seen to go on
    /// from it, or the log is longer; by the rule that never comes.
    #[tactic(auto, using(crate::proofs::Settled::extended_from))]
    pub(crate) fn commit(
        &mut self,
        alloc: Global,
        book: &Book<J>,
        seen: &Head<J>,
        seat: u32,
        base: Option<u32>,
        edits: &[Edit],
    ) -> Option<Result<Head<J>, (CommitFault, Option<Head<J>>)>>
        requires { seat < J.board.seats }
        ensures settled { IfSome result (λ r. Settles seat base edits.now seen.now r) }
        ensures desk { MatchOption result (self.new.log ≡ self.old.log)
            (λ r. MatchResult r (λ head. self.new.log ≡ head) (λ _. self.new.log ≡ self.old.log)) }
    {
        if !seen.leads_to(&self.head, seat) {
            return None;
        }
        match self.extended(alloc, book, seat, base, edits) {
            Ok(Some(next)) => Some(Ok(next)),
            Ok(None) => None,
            Err(fault) => Some(Err(told_at(fault, self.head.share()))),
        }
    }
}

/// The fault with the head at which it is told; where that can't be had, want of memory alone.
fn told_at<J: Naming>(
    fault: CommitFault,
    shared: Result<Head<J>, AllocError>,
) -> (CommitFault, Option<Head<J>>)
    ensures head { IfOk shared (λ head. result ≡ (fault, Some head)) }
    ensures none { OnErr shared (result ≡ (why.NoMemory, None)) }
{
    match shared {
        Ok(head) => (fault, Some(head)),
        Err(_) => (CommitFault::NoMemory, None),
    }
}
