//! Sources and sinks over std's readers and writers. They count faults, pass bytes on as they are, and tell
//! nothing of them as a source or a sink, since a reader needn't tell either.
ghost use Rattle.std.specs.{Prelude.{◌≡◌, ◌<◌, ◌≤◌, None, length, take, IfOk, OnOk, OnErr, is_err}, Io.KnownBytes.{ReadConsumes, Appends}};
ghost use Rattle.nav_io.specs.{Faults.{HasRisen, counted}, Over.{Over}};

use crate::{Failed, Sink, SinkError, Source};
use std::io::{Read, Write};
use std::marker::Model;

/// A reader or a writer, and how many of its calls failed.
#[derive(Drop)]
pub struct Std<T> {
    inner: T,
    faults: u64,
}

/// A source over a reader.
pub type StdSource<R> = Std<R>;

/// A sink over a writer.
pub type StdSink<W> = Std<W>;

impl<T> Model for Std<T> {
    ghost Value = { Over T };

    ghost view = { λ std. record { inner = std.inner; faults = std.faults } };
}

impl<T> Std<T> {
    /// A source or a sink with no fault yet.
    pub fn new(inner: T) -> Std<T>
        ensures { result ≡ record { inner = inner; faults = 0 } }
    {
        Std { inner, faults: 0 }
    }

    /// The reader or writer that it stands over.
    pub fn inner(&self) -> &T
        ensures { result.now ≡ self.now.inner }
    {
        &self.inner
    }
}

impl<R: Read> Source for Std<R> {
    ghost left = { λ _. None };

    ghost faults = { λ source. source.faults };

    fn read(&mut self, buf: &mut [u8]) -> Result<usize, Failed>
        ensures bound { IfOk result (λ n. n ≤ length buf.new) }
        ensures count { self.old.faults ≤ self.new.faults }
        ensures cause { OnErr result (HasRisen self.old.faults self.new.faults) }

        // The trait's clauses on bytes say nothing here, so these do: what the reader gave is what is answered, and each of
        // its errors is a fault.
        ensures passed { ReadConsumes
            (R.remaining self.old.inner) (R.remaining self.new.inner) result buf.new }
        ensures ok { OnOk result (self.new.faults ≡ self.old.faults) }
        ensures err { OnErr result (self.new.faults ≡ counted self.old.faults) }
    {
        match self.inner.read(buf) {
            Ok(n) => Ok(n),
            Err(_) => {
                self.faults = self.faults.saturating_add(1);
                Err(Failed)
            }
        }
    }
}

impl<W: Write> Sink for Std<W> {
    ghost held = { λ _. None };

    ghost faults = { λ sink. sink.faults };

    fn write(&mut self, bytes: &[u8]) -> Result<usize, SinkError>
        ensures bound { IfOk result (λ n. n ≤ length bytes.now) }
        ensures some { IfOk result (λ n. 0 < length bytes.now → 0 < n) }
        ensures count { self.old.faults ≤ self.new.faults }
        ensures cause { result ≡ Err SinkError.Failed → HasRisen self.old.faults self.new.faults }

        // The trait's clauses on bytes say nothing here, so these do: what the writer took is what is answered; each of its
        // errors, and a write that takes no byte of some, is a fault.
        ensures passed { IfOk result (λ n.
            Appends (W.contents self.old.inner) (W.contents self.new.inner) (take n bytes.now)) }
        ensures ok { OnOk result (self.new.faults ≡ self.old.faults) }
        ensures err { OnErr result (self.new.faults ≡ counted self.old.faults) }
    {
        match self.inner.write(bytes) {
            // A writer that takes nothing would be asked for ever.
            Ok(n) if n > 0 || bytes.is_empty() => Ok(n),
            _ => {
                self.faults = self.faults.saturating_add(1);
                Err(SinkError::Failed)
            }
        }
    }
}
