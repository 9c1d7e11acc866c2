//! A source in memory.
ghost use Rattle.std.specs.{Prelude.{◌≡◌, ◌+◌, ◌-◌, ◌^◌, ◌<◌, ◌≤◌, Some, min, length, vec_len, take, drop, is_err, IfOk, OnErr}, Io.KnownBytes.{prepend_known, IsAtEnd}, List.{list_any}};
ghost use Rattle.nav_io.specs.{Faults.{HasRisen, counted}, Mem.{Supply, fails_now}};

use super::is_failing;
use crate::{Failed, Source};
use std::marker::Model;

/// A list of bytes that is read piece by piece, and fails the calls that it is told to.
#[derive(Drop)]
pub struct MemSource {
    bytes: Vec<u8>,
    /// The bytes before it were given.
    start: usize,
    piece: u32,
    failing: Vec<u32>,
    calls: u64,
    faults: u64,
}

impl Model for MemSource {
    ghost Value = { Supply };

    ghost view = { λ source. record {
      left = drop source.start source.bytes.items;
      piece = source.piece;
      failing = source.failing.items;
      calls = source.calls;
      faults = source.faults;
    } };

    ghost invariant = { λ source. (source.start ≤ vec_len source.bytes) × (0 < source.piece) };
}

impl MemSource {
    /// A source of these bytes, which gives at most `piece` of them at a read, and fails the calls whose
    /// numbers, from 0, stand in `failing`.
    pub fn new(bytes: Vec<u8>, piece: u32, failing: Vec<u32>) -> MemSource
        requires { 1 ≤ piece }
        ensures { result ≡ record {
          left = bytes.items;
          piece = piece;
          failing = failing.items;
          calls = 0;
          faults = 0;
        } }
    {
        MemSource {
            bytes,
            start: 0,
            piece,
            failing,
            calls: 0,
            faults: 0,
        }
    }
}

/// Copies at most `piece` bytes from `start` on to the front of `buf`, and moves `start` past them, so that no byte that is
/// left has to be moved.
fn give(bytes: &[u8], start: &mut usize, piece: usize, buf: &mut [u8]) -> usize
    requires { start.old ≤ length bytes.now }
    ensures within { start.new ≤ length bytes.now }
    ensures size { result ≡ min (min piece (length buf.old)) (length (drop start.old bytes.now)) }
    ensures rest { drop start.new bytes.now ≡ drop result (drop start.old bytes.now) }
    ensures given { take result buf.new ≡ take result (drop start.old bytes.now) }
    ensures len { length buf.new ≡ length buf.old }
{
    let left = &bytes[*start..];
    let n = piece.min(buf.len()).min(left.len());
    buf[..n].copy_from_slice(&left[..n]);
    *start += n;
    n
}

impl Source for MemSource {
    ghost left = { λ source. Some source.left };

    ghost faults = { λ source. source.faults };

    fn read(&mut self, buf: &mut [u8]) -> Result<usize, Failed>
        ensures bound { IfOk result (λ n. n ≤ length buf.new) }
        ensures bytes { IfOk result (λ n.
            Some self.old.left ≡ prepend_known (take n buf.new) (Some self.new.left)) }
        ensures end { IfOk result (λ n. n ≡ 0 → 0 < length buf.old → IsAtEnd (Some self.new.left)) }
        ensures kept { OnErr result (Some self.new.left ≡ Some self.old.left) }
        ensures count { self.old.faults ≤ self.new.faults }
        ensures cause { OnErr result (HasRisen self.old.faults self.new.faults) }

        // Beside the trait's, for tests: it fails as it was told to, and gives as much as it may.
        ensures failing { is_err result ≡ fails_now self.old.failing self.old.calls }
        ensures size { IfOk result
            (λ n. n ≡ min (min self.old.piece (length buf.old)) (length self.old.left)) }
        ensures after { IfOk result (λ n. self.new ≡ record self.old {
          left = drop n self.old.left;
          calls = counted self.old.calls;
        }) }
        ensures failed { OnErr result (self.new ≡ record self.old {
          calls = counted self.old.calls;
          faults = counted self.old.faults;
        }) }
    {
        // A call that fails counts too, or it would fail for ever.
        let fails = is_failing(&self.failing, self.calls);
        self.calls = self.calls.saturating_add(1);
        if fails {
            self.faults = self.faults.saturating_add(1);
            return Err(Failed);
        }
        Ok(give(&self.bytes, &mut self.start, self.piece as usize, buf))
    }
}
