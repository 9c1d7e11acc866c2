//! Writing a whole text to a sink.
ghost use Rattle.std.specs.{Prelude.{◌≡◌, ◌≤◌, ℕ, List, ◌++◌, OnOk, OnErr}, Io.KnownBytes.{append_known}};
ghost use Rattle.nav_io.specs.{declared.write.WriteError.TheVariants.{WriteFault, NoMemory}, Faults.{HasRisen}, Write.{write_error_of, HoldsPrefix}};

use crate::{Sink, SinkError};

/// Why not all bytes were written.
#[derive(Clone, Copy, Debug, PartialEq, Eq)]
pub enum WriteError {
    /// The sink failed; its count of faults rose.
    WriteFault,
    /// The sink answered that memory was wanting.
    NoMemory,
}

impl From<SinkError> for WriteError {
    ghost from_gives = { λ s e. e ≡ write_error_of s };

    fn from(error: SinkError) -> Self {
        match error {
            SinkError::Failed => WriteError::WriteFault,
            SinkError::NoMemory => WriteError::NoMemory,
        }
    }
}

/// Writes all of `bytes`, offering the sink at each write all that is left of them.
///
/// After an error the sink holds what it held and then a prefix of `bytes`.
pub fn write_all<K: Sink>(sink: &mut K, bytes: &[u8]) -> Result<(), WriteError>
    ensures ok { OnOk result (K.held sink.new ≡ append_known (K.held sink.old) bytes.now) }
    ensures err { OnErr result (HoldsPrefix (K.held sink.old) bytes.now (K.held sink.new)) }

    ensures count { K.faults sink.old ≤ K.faults sink.new }
    ensures cause { result ≡ Err WriteError.WriteFault
        → HasRisen (K.faults sink.old) (K.faults sink.new) }
{
    let mut rest = bytes;
    while !rest.is_empty() {
        let taken = sink.write(rest)?;
        rest = &rest[taken..];
    }
    Ok(())
}
