//! What bytes are read from.
ghost use Rattle.std.specs.{Prelude.{◌≡◌, ◌<◌, ◌≤◌, ℕ, List, Option, length, take, IfOk, OnErr}, Io.KnownBytes.{prepend_known, IsAtEnd}};
ghost use Rattle.nav_io.specs.Faults.{HasRisen};

use std::fmt;

/// The outside refused a call; the fault is counted where it occurred.
#[derive(Clone, Copy, Debug, PartialEq, Eq)]
pub struct Failed;

impl fmt::Display for Failed {
    fn fmt<W: fmt::Write>(&self, f: &mut fmt::Formatter<W>) -> fmt::Result {
        f.write_str("the outside refused the call")
    }
}

/// What bytes are read from, as a file, a peer or a list in memory.
pub trait Source {
    /// The bytes that it still has, where it tells them.
    ghost left: { Self → Option (List ℕ) };

    /// How many faults it has had. The count stands still at 2^64 - 1.
    ghost faults: { Self → ℕ };

    /// Takes bytes into the front of `buf` and answers how many. 0 for a nonempty `buf` is the end of input.
    ///
    /// `Failed` comes only where the count of faults rose in this call; the source then still has what it had.
    fn read(&mut self, buf: &mut [u8]) -> Result<usize, Failed>
        ensures bound { IfOk result (λ n. n ≤ length buf.new) }
        ensures bytes { IfOk result (λ n.
            left self.old ≡ prepend_known (take n buf.new) (left self.new)) }
        ensures end { IfOk result (λ n. n ≡ 0 → 0 < length buf.old → IsAtEnd (left self.new)) }
        ensures kept { OnErr result (left self.new ≡ left self.old) }

        ensures count { faults self.old ≤ faults self.new }
        ensures cause { OnErr result (HasRisen (faults self.old) (faults self.new)) };
}
