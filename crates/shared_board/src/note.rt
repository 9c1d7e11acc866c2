//! What one seat tells another.
ghost use Rattle.std.specs.Prelude.{◌≡◌, IfOk, IsTrue};
ghost use Rattle.version_board.specs.Logs.{Begins, IsLater};
ghost use Rattle.shared_board.specs.Seats.{HasLearnt};

use crate::book::Naming;
use crate::desk::Shared;
use crate::head::Head;
use crate::seat::SeatOf;
use std::alloc::AllocError;
use std::marker::Model;
use std::sync::Wait;

/// A log that was published on the board that is named `J`, with its version. Contracts see it as the log.
#[derive(Drop)]
pub struct Note<J: Naming> {
    head: Head<J>,
}

impl<J: Naming> Model for Note<J> {
    ghost use Rattle.std.specs.Prelude.{List};
    ghost use Rattle.version_tree.specs.declared.entry.Entry.{Entry};

    ghost Value = { List Entry };

    ghost view = { λ n. n.head };
}

impl<J: Naming, R: Wait + Drop> SeatOf<J, Shared<J, R>> {
    /// A note of the log that is published so far, which begins with all that the seat has seen. It waits for the
    /// board's lock. The one error is that there are too many holders of a version.
    #[tactic(auto, using(crate::proofs::Fronts::begins_self))]
    pub fn tell(&self, rt: &R) -> Result<Note<J>, AllocError>
        ensures { IfOk result (λ note. Begins self.now.log note) }
    {
        let newest = self.shared.desk.lock(rt).head().share()?;
        if self.head.begins(&newest) {
            return Ok(Note { head: newest });
        }
        let head = self.head.share()?;
        Ok(Note { head })
    }
}

impl<J: Naming, S: Drop> SeatOf<J, S> {
    /// Takes in the note's log: what is seen afterwards begins with it, and with what was seen before. The pin stays.
    /// It takes no memory, and waits for nobody.
    #[tactic(auto, using(crate::proofs::Fronts::begins_self))]
    pub fn learn(&mut self, note: Note<J>)
        ensures seat { self.new.seat ≡ self.old.seat }
        ensures pin { self.new.pin ≡ self.old.pin }
        ensures mine { Begins self.old.log self.new.log }
        ensures theirs { Begins note self.new.log }
    {
        let Note { head } = note;
        if self.head.begins(&head) {
            self.advance(head);
        }
    }

    /// Takes in the note's log where that has no further entry of the seat, and says whether it did; by the rule it
    /// always does.
    #[tactic(auto, using(crate::proofs::Fronts::begins_self, crate::proofs::Fronts::later_self))]
    pub(crate) fn learnt(&mut self, note: Note<J>) -> bool
        ensures learnt { HasLearnt self.old self.new }
        ensures theirs { IsTrue result → Begins note self.new.log }
    {
        let Note { head } = note;
        if self.head.leads_to(&head, self.seat) {
            self.advance(head);
            return true;
        }
        head.begins(&self.head)
    }
}
