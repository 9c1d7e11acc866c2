//! What a session sees of a log of versions, and how it extends it.
ghost use Rattle.std.specs.{Prelude.{◌≡◌, ◌≤◌, ℕ, List, length, take, Err, OnOk, OnErr}, Arc.{arc_value}};
ghost use Rattle.version_tree.specs.{declared.edit.EditFault.{EditFault as Faults}, declared.entry.Entry.{Entry}};
ghost use Rattle.root_index.specs.Roots.{IsIndexOf};
ghost use Rattle.version_board.specs.Logs.{version_of, IsLater, IsExtended, IsStale, IsRefused};
ghost use Rattle.version_board.specs.declared.fault.CommitFault.TheVariants as why;

use crate::fault::CommitFault;
use root_index::RootIndex;
use std::alloc::Global;
use std::sync::Arc;
use version_tree::{Edit, Version};

/// A version, with the index of its paths from the root.
#[derive(Drop)]
pub struct Pinned {
    pub version: Arc<Version>,
    pub index: Arc<RootIndex>,
}

/// A seat at a board: what it has seen of the board's log, and which version of that it pins. It waits for nobody, and
/// takes no memory: neither a handle nor an allocator is given to it.
pub trait Pins {
    /// The log that the seat has seen.
    ghost log: { Self → List Entry };

    /// The seat's name.
    ghost seat: { Self → ℕ };

    /// How many of the first entries make the pinned version.
    ghost pin_at: { Self → ℕ };

    /// Sees what was committed by now, as far as it is told, and pins the newest version of it.
    fn pin(&mut self)
        ensures seat { seat self.new ≡ seat self.old }
        ensures later { IsLater (seat self.old) (log self.old) (log self.new) }
        ensures pin { pin_at self.new ≡ length (log self.new) };

    /// The pinned version, lent.
    fn pinned(&self) -> &Pinned
        ensures seen { pin_at self.now ≤ length (log self.now) }
        ensures version { arc_value result.now.version
            ≡ version_of (take (pin_at self.now) (log self.now)) }
        ensures index { IsIndexOf (arc_value result.now.version).content.rows
            (arc_value result.now.index) };
}

/// A seat that extends the log, with the handle `R`, by which it may wait for others.
pub trait Commits<R>: Pins {
    /// Appends an entry with these edits, and pins the version that it makes. It is refused as `Stale` where a base is
    /// given that isn't the head, then by the first fault of the edits on the head, or for want of memory; then
    /// nothing is appended, and the pin stays.
    fn commit(
        &mut self,
        rt: &R,
        alloc: Global,
        base: Option<u32>,
        edits: &[Edit],
    ) -> Result<(), CommitFault>
        ensures seat { Self.seat self.new ≡ Self.seat self.old }
        ensures ok { OnOk result (IsExtended (Self.seat self.old) base edits.now
            (Self.log self.old) (Self.log self.new)) }
        ensures pin { OnOk result (Self.pin_at self.new ≡ length (Self.log self.new)) }
        ensures later { OnErr result (IsLater (Self.seat self.old) (Self.log self.old)
            (Self.log self.new)) }
        ensures pin_stays { OnErr result (Self.pin_at self.new ≡ Self.pin_at self.old) }
        ensures stale { (n : ℕ) → result ≡ Err (why.Stale n)
            → IsStale base (length (Self.log self.new)) n }
        ensures refused { (fault : Faults) → result ≡ Err (why.Edit fault)
            → IsRefused base edits.now (Self.log self.new) fault };
}
