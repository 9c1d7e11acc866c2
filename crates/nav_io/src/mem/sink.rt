//! A sink in memory.
ghost use Rattle.std.specs.{Prelude.{◌≡◌, ◌+◌, ◌-◌, ◌^◌, ◌<◌, ◌≤◌, ◌↔◌, [], ◌++◌, Some, min, length, take, IsTrue, IfOk, OnErr}, Io.KnownBytes.{append_known}};
ghost use Rattle.nav_io.specs.{Faults.{HasRisen, counted}, Mem.{Store, fails_now}};

use super::is_failing;
use crate::{Sink, SinkError};
use std::alloc::Global;
use std::marker::Model;

/// A list of bytes that is written piece by piece, and fails the calls that it is told to.
#[derive(Drop)]
pub struct MemSink {
    bytes: Vec<u8>,
    piece: u32,
    failing: Vec<u32>,
    calls: u64,
    faults: u64,
}

impl Model for MemSink {
    ghost Value = { Store };

    ghost view = { λ sink. record {
      held = sink.bytes.items;
      piece = sink.piece;
      failing = sink.failing.items;
      calls = sink.calls;
      faults = sink.faults;
    } };

    ghost invariant = { λ sink. 0 < sink.piece };
}

impl MemSink {
    /// An empty sink, which takes at most `piece` bytes at a write, and fails the calls whose numbers,
    /// from 0, stand in `failing`.
    pub fn new(alloc: Global, piece: u32, failing: Vec<u32>) -> MemSink
        requires { 1 ≤ piece }
        ensures { result
            ≡ record { held = []; piece = piece; failing = failing.items; calls = 0; faults = 0 } }
    {
        MemSink {
            bytes: Vec::new(alloc),
            piece,
            failing,
            calls: 0,
            faults: 0,
        }
    }

    /// The bytes that it took.
    pub fn held(&self) -> &[u8]
        ensures { result.now ≡ self.now.held }
    {
        &self.bytes
    }
}

impl Sink for MemSink {
    ghost held = { λ sink. Some sink.held };

    ghost faults = { λ sink. sink.faults };

    fn write(&mut self, bytes: &[u8]) -> Result<usize, SinkError>
        ensures bound { IfOk result (λ n. n ≤ length bytes.now) }
        ensures bytes { IfOk result (λ n.
            Some self.new.held ≡ append_known (Some self.old.held) (take n bytes.now)) }
        ensures some { IfOk result (λ n. 0 < length bytes.now → 0 < n) }
        ensures kept { OnErr result (Some self.new.held ≡ Some self.old.held) }
        ensures count { self.old.faults ≤ self.new.faults }
        ensures cause { result ≡ Err SinkError.Failed → HasRisen self.old.faults self.new.faults }

        // Beside the trait's, for tests: it fails as it was told to, and takes as much as it may.
        ensures failing { (result ≡ Err SinkError.Failed)
            ↔ IsTrue (fails_now self.old.failing self.old.calls) }
        ensures size { IfOk result (λ n. n ≡ min self.old.piece (length bytes.now)) }
        ensures after { IfOk result (λ n. self.new ≡ record self.old {
          held = self.old.held ++ take n bytes.now;
          calls = counted self.old.calls;
        }) }
        ensures failed { result ≡ Err SinkError.Failed → self.new ≡ record self.old {
          calls = counted self.old.calls;
          faults = counted self.old.faults;
        } }
        ensures memory { result ≡ Err SinkError.NoMemory
            → self.new ≡ record self.old { calls = counted self.old.calls } }
    {
        // A call that fails counts too, or it would fail for ever.
        let fails = is_failing(&self.failing, self.calls);
        self.calls = self.calls.saturating_add(1);
        if fails {
            self.faults = self.faults.saturating_add(1);
            return Err(SinkError::Failed);
        }
        let n = bytes.len().min(self.piece as usize);
        match self.bytes.extend_from_slice(&bytes[..n]) {
            Ok(()) => Ok(n),
            Err(_) => Err(SinkError::NoMemory),
        }
    }
}
