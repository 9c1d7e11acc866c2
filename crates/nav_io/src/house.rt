//! Where connections come from: a house has doors, and a door gives out pairs of a source and a sink.
ghost use Rattle.std.specs.Prelude.{◌≡◌, ◌≤◌, ℕ, List, [], ◌∷◌, Option, IfOk, OnOk, OnErr, vec_len};
ghost use Rattle.nav_io.specs.{Faults.{HasRisen}, Told.{append_told, HasOut}};

use crate::{Failed, Sink, Source};
use std::alloc::Global;
use std::fmt;

/// Gives out pairs of a source and a sink, one for each connection, and takes them back.
pub trait Door {
    type S: Source;

    type K: Sink;

    /// The pairs that it gave out, in their order, where it tells them.
    ghost gave: { Self → Option (List (Self.S × Self.K)) };

    /// The pairs that it got back, in the order in which they came back, where it tells them.
    ghost got_back: { Self → Option (List (Self.S × Self.K)) };

    /// How many faults it has had. The count stands still at 2^64 - 1.
    ghost faults: { Self → ℕ };

    /// Gives out the pair of the next connection. It may wait for one.
    ///
    /// `Failed` comes only where the count of faults rose in this call.
    fn accept(&mut self) -> Result<(Self::S, Self::K), Failed>
        ensures ok { IfOk result (λ pair. gave self.new ≡ append_told (gave self.old) (pair ∷ [])) }
        ensures out { OnOk result (HasOut (gave self.new) (got_back self.new) 1) }
        ensures err { OnErr result (gave self.new ≡ gave self.old) }
        ensures back { got_back self.new ≡ got_back self.old }
        ensures no_more_back { HasOut (gave self.new) (got_back self.new) 0 }

        ensures count { faults self.old ≤ faults self.new }
        ensures cause { OnErr result (HasRisen (faults self.old) (faults self.new)) };

    /// Takes a pair back, whose connection has ended.
    fn done(&mut self, source: Self::S, sink: Self::K)
        requires { HasOut (gave self.old) (got_back self.old) 1 }
        ensures back { got_back self.new ≡ append_told (got_back self.old) ((source, sink) ∷ []) }
        ensures given { gave self.new ≡ gave self.old }
        ensures no_more_back { HasOut (gave self.new) (got_back self.new) 0 }
        ensures count { faults self.old ≤ faults self.new };
}

/// Why a house gave out no doors.
#[derive(Clone, Copy, Debug, PartialEq, Eq)]
pub enum HouseFault {
    /// The outside refused the call; the fault is counted.
    Failed,
    /// Memory was wanting.
    NoMemory,
}

impl fmt::Display for HouseFault {
    fn fmt<W: fmt::Write>(&self, f: &mut fmt::Formatter<W>) -> fmt::Result {
        f.write_str(match self {
            HouseFault::Failed => "the outside refused the call",
            HouseFault::NoMemory => "memory was refused",
        })
    }
}

/// Gives out doors and takes them back.
pub trait House {
    type D: Door;

    /// The doors that it gave out, in their order, where it tells them.
    ghost gave: { Self → Option (List Self.D) };

    /// The doors that it got back, in the order in which they came back, where it tells them.
    ghost got_back: { Self → Option (List Self.D) };

    /// How many faults it has had. The count stands still at 2^64 - 1.
    ghost faults: { Self → ℕ };

    /// Gives out `count` doors that lead to this port.
    ///
    /// `Failed` comes only where the count of faults rose in this call.
    fn doors(&mut self, alloc: Global, port: u16, count: u32) -> Result<Vec<Self::D>, HouseFault>
        ensures ok { IfOk result
            (λ doors. gave self.new ≡ append_told (gave self.old) doors.items) }
        ensures all { IfOk result (λ doors. vec_len doors ≡ count) }
        ensures out { OnOk result (HasOut (gave self.new) (got_back self.new) count) }
        ensures err { OnErr result (gave self.new ≡ gave self.old) }
        ensures back { got_back self.new ≡ got_back self.old }
        ensures no_more_back { HasOut (gave self.new) (got_back self.new) 0 }

        ensures count { faults self.old ≤ faults self.new }
        ensures cause { result ≡ Err HouseFault.Failed
            → HasRisen (faults self.old) (faults self.new) };

    /// Takes doors back, which will be used no more.
    fn close(&mut self, doors: Vec<Self::D>)
        requires { HasOut (gave self.old) (got_back self.old) (vec_len doors) }
        ensures back { got_back self.new ≡ append_told (got_back self.old) doors.items }
        ensures given { gave self.new ≡ gave self.old }
        ensures no_more_back { HasOut (gave self.new) (got_back self.new) 0 }
        ensures count { faults self.old ≤ faults self.new };
}
