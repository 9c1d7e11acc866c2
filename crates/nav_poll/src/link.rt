//! What bytes are pulled from and pushed to without waiting.
ghost use Rattle.std.specs.Prelude.{◌≡◌};
ghost use Rattle.nav_io.specs.Faults.{counted};

/// What came of a call of a link that wasn't refused.
#[derive(Clone, Copy, Debug, PartialEq, Eq)]
pub enum Moved {
    /// So many bytes moved.
    Bytes(usize),
    /// None can move before the outside does something; the wait is counted.
    NotYet,
}

/// Why a link moved nothing.
#[derive(Clone, Copy, Debug, PartialEq, Eq)]
pub enum LinkFault {
    /// The outside refused the call; the fault is counted.
    Failed,
    /// Memory was wanting.
    NoMemory,
}

/// How many faults and waits a link has had, of pulls and of pushes. Each count stands still at 2^64 - 1.
#[derive(Clone, Copy, Debug, PartialEq, Eq)]
pub struct Counts {
    pub read_faults: u64,
    pub write_faults: u64,
    pub read_waits: u64,
    pub write_waits: u64,
}

impl Counts {
    /// Those of a link at its beginning.
    pub fn none() -> Counts
        ensures { result
            ≡ record { read_faults = 0; write_faults = 0; read_waits = 0; write_waits = 0 } }
    {
        Counts {
            read_faults: 0,
            write_faults: 0,
            read_waits: 0,
            write_waits: 0,
        }
    }

    /// Counts a pull that failed.
    pub fn read_fault(&mut self)
        ensures { self.new ≡ record self.old { read_faults = counted self.old.read_faults } }
    {
        self.read_faults = self.read_faults.saturating_add(1);
    }

    /// Counts a push that failed.
    pub fn write_fault(&mut self)
        ensures { self.new ≡ record self.old { write_faults = counted self.old.write_faults } }
    {
        self.write_faults = self.write_faults.saturating_add(1);
    }

    /// Counts a pull that has to wait.
    pub fn read_wait(&mut self)
        ensures { self.new ≡ record self.old { read_waits = counted self.old.read_waits } }
    {
        self.read_waits = self.read_waits.saturating_add(1);
    }

    /// Counts a push that has to wait.
    pub fn write_wait(&mut self)
        ensures { self.new ≡ record self.old { write_waits = counted self.old.write_waits } }
    {
        self.write_waits = self.write_waits.saturating_add(1);
    }
}

/// What bytes are pulled from and pushed to, as a connection or lists in memory. No call of it waits.
pub trait Link {
    ghost use Rattle.std.specs.{Prelude.{◌≡◌, ◌<◌, ◌≤◌, ℕ, List, Option, Ok, Err, length, take}, Io.KnownBytes.{prepend_known, append_known, IsAtEnd}};
    ghost use Rattle.nav_io.specs.Faults.{HasRisen};
    ghost use Rattle.nav_poll.specs.{declared.link.Counts.{Counts}, Links.{moved, NoneFell}};

    /// The bytes still to come, where it tells them.
    ghost left: { Self → Option (List ℕ) };

    /// The bytes that it holds, where it tells them.
    ghost held: { Self → Option (List ℕ) };

    /// How many faults and waits it has had. No count falls.
    ghost counts: { Self → Counts };

    /// Moves the first bytes that are still to come into the front of `buf`. `Bytes(0)` for a nonempty `buf` is the end
    /// of them.
    ///
    /// `NotYet` comes only where the count of read waits rose in this call, and `Failed` only where that of read faults
    /// did. With either, and with `NoMemory`, no byte moved.
    fn pull(&mut self, buf: &mut [u8]) -> Result<Moved, LinkFault>
        ensures bound { moved result ≤ length buf.new }
        ensures bytes { left self.old
            ≡ prepend_known (take (moved result) buf.new) (left self.new) }
        ensures end { result ≡ Ok (Moved.Bytes 0) → 0 < length buf.old → IsAtEnd (left self.new) }
        ensures held { held self.new ≡ held self.old }

        ensures counts { NoneFell (counts self.old) (counts self.new) }
        ensures waits { result ≡ Ok Moved.NotYet
            → HasRisen (counts self.old).read_waits (counts self.new).read_waits }
        ensures cause { result ≡ Err LinkFault.Failed
            → HasRisen (counts self.old).read_faults (counts self.new).read_faults };

    /// Takes the first of `bytes`: at least one, where there are any and some move.
    ///
    /// `NotYet` comes only where the count of write waits rose in this call, and `Failed` only where that of write faults
    /// did, as where none of some bytes is taken. With either, and with `NoMemory`, no byte moved.
    fn push(&mut self, bytes: &[u8]) -> Result<Moved, LinkFault>
        ensures bound { moved result ≤ length bytes.now }
        ensures bytes { held self.new
            ≡ append_known (held self.old) (take (moved result) bytes.now) }
        ensures some { result ≡ Ok (Moved.Bytes 0) → length bytes.now ≡ 0 }
        ensures left { left self.new ≡ left self.old }

        ensures counts { NoneFell (counts self.old) (counts self.new) }
        ensures waits { result ≡ Ok Moved.NotYet
            → HasRisen (counts self.old).write_waits (counts self.new).write_waits }
        ensures cause { result ≡ Err LinkFault.Failed
            → HasRisen (counts self.old).write_faults (counts self.new).write_faults };
}
