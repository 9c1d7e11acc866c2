//! What bytes are written to.
ghost use Rattle.std.specs.{Prelude.{◌≡◌, ◌<◌, ◌≤◌, ℕ, List, Option, length, take, IfOk, OnErr}, Io.KnownBytes.{append_known}};
ghost use Rattle.nav_io.specs.Faults.{HasRisen};

/// Why a sink took nothing.
#[derive(Clone, Copy, Debug, PartialEq, Eq)]
pub enum SinkError {
    /// The outside refused the call; the fault is counted.
    Failed,
    /// Memory was wanting.
    NoMemory,
}

/// What bytes are written to, as a file, a peer or a list in memory.
pub trait Sink {
    /// The bytes that it holds, where it tells them.
    ghost held: { Self → Option (List ℕ) };

    /// How many faults it has had. The count stands still at 2^64 - 1.
    ghost faults: { Self → ℕ };

    /// Takes bytes from the front of `bytes` and answers how many: at least one, where there are any.
    ///
    /// `Failed` comes only where the count of faults rose in this call, as it does where no byte is taken.
    /// After an error the sink holds what it held.
    fn write(&mut self, bytes: &[u8]) -> Result<usize, SinkError>
        ensures bound { IfOk result (λ n. n ≤ length bytes.now) }
        ensures bytes { IfOk result (λ n.
            held self.new ≡ append_known (held self.old) (take n bytes.now)) }
        ensures some { IfOk result (λ n. 0 < length bytes.now → 0 < n) }
        ensures kept { OnErr result (held self.new ≡ held self.old) }

        ensures count { faults self.old ≤ faults self.new }
        ensures cause { result ≡ Err SinkError.Failed
            → HasRisen (faults self.old) (faults self.new) };
}
