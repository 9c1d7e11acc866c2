//! A link in memory.
ghost use Rattle.std.specs.{Prelude.{◌≡◌, ◌≢◌, ◌<◌, ◌≤◌, ◌↔◌, ℕ, [], Some, Ok, Err, min, length, take, IsTrue}, Io.KnownBytes.{prepend_known, append_known, IsAtEnd}, List.{list_any}};
ghost use Rattle.nav_io.specs.{Faults.{HasRisen, counted}, Mem.{fails_now}};
ghost use Rattle.nav_poll.specs.{Links.{moved, NoneFell}, MemLinks.{fails_next, waits_next, after_pull, after_push}};

use crate::link::{Counts, Link, LinkFault, Moved};
use nav_io::{MemSink, MemSource, Sink, SinkError, Source};
use std::alloc::Global;
use std::marker::Model;

// The calls of one direction: which of them wait and which fail, by their numbers from 0, and how many there were.
#[derive(Drop)]
struct Calls {
    not_yet: Vec<u32>,
    failing: Vec<u32>,
    made: u64,
}

impl Model for Calls {
    ghost use Rattle.nav_poll.specs.MemLinks.{Calling};

    ghost Value = { Calling };

    ghost view = { λ calls. record {
      not_yet = calls.not_yet.items;
      failing = calls.failing.items;
      made = calls.made;
    } };
}

/// Whether the call with this number is one of these, as those of a link in memory that are to wait, or to fail.
pub fn is_listed(numbers: &[u32], call: u64) -> bool
    ensures { result ≡ fails_now numbers.now call }
{
    numbers.iter().any(|number| u64::from(*number) == call)
}

impl Calls {
    // Whether the next call is to fail.
    fn fails(&self) -> bool
        ensures { result ≡ fails_next self.now }
    {
        is_listed(&self.failing, self.made)
    }

    // Whether the next call is to wait, where it isn't to fail.
    fn is_not_yet(&self) -> bool
        ensures { result ≡ fails_now self.now.not_yet self.now.made }
    {
        is_listed(&self.not_yet, self.made)
    }

    // Counts a call.
    fn count(&mut self)
        ensures { self.new ≡ record self.old { made = counted self.old.made } }
    {
        self.made = self.made.saturating_add(1);
    }
}

/// Bytes that are pulled, and bytes that were pushed, piece by piece. Calls wait and fail as they are told to.
#[derive(Drop)]
pub struct MemLink {
    // Neither of the two fails by itself.
    source: MemSource,
    sink: MemSink,
    pulls: Calls,
    pushes: Calls,
    counts: Counts,
}

impl Model for MemLink {
    ghost use Rattle.std.specs.Prelude.{◌≡◌, ◌<◌, []};
    ghost use Rattle.nav_poll.specs.MemLinks.{Wire};

    ghost Value = { Wire };

    ghost view = { λ link. record {
      left = link.source.left;
      held = link.sink.held;
      piece = link.source.piece;
      pulls = link.pulls;
      pushes = link.pushes;
      counts = link.counts;
    } };

    ghost invariant = { λ link. (link.source.failing ≡ []) × (link.sink.failing ≡ [])
        × (link.sink.piece ≡ link.source.piece) × (0 < link.source.piece) };
}

impl MemLink {
    /// A link from which `bytes` are pulled, and which holds nothing yet. A call moves at most `piece` bytes. The pulls and
    /// pushes whose numbers, from 0, stand in these lists wait and fail; one that stands in both of its lists fails.
    pub fn new(
        alloc: Global,
        bytes: Vec<u8>,
        piece: u32,
        pulls_not_yet: Vec<u32>,
        pushes_not_yet: Vec<u32>,
        pulls_failing: Vec<u32>,
        pushes_failing: Vec<u32>,
    ) -> MemLink
        requires { 1 ≤ piece }
        ensures { result ≡ record {
          left = bytes.items;
          held = [];
          piece = piece;
          pulls = record {
            not_yet = pulls_not_yet.items;
            failing = pulls_failing.items;
            made = 0;
          };
          pushes = record {
            not_yet = pushes_not_yet.items;
            failing = pushes_failing.items;
            made = 0;
          };
          counts = record { read_faults = 0; write_faults = 0; read_waits = 0; write_waits = 0 };
        } }
    {
        MemLink {
            source: MemSource::new(bytes, piece, Vec::new(alloc)),
            sink: MemSink::new(alloc, piece, Vec::new(alloc)),
            pulls: Calls {
                not_yet: pulls_not_yet,
                failing: pulls_failing,
                made: 0,
            },
            pushes: Calls {
                not_yet: pushes_not_yet,
                failing: pushes_failing,
                made: 0,
            },
            counts: Counts::none(),
        }
    }

    /// The bytes that it took, lent.
    pub fn held(&self) -> &[u8]
        ensures { result.now ≡ self.now.held }
    {
        self.sink.held()
    }
}

impl Link for MemLink {
    ghost left = { λ link. Some link.left };

    ghost held = { λ link. Some link.held };

    ghost counts = { λ link. link.counts };

    fn pull(&mut self, buf: &mut [u8]) -> Result<Moved, LinkFault>
        ensures bound { moved result ≤ length buf.new }
        ensures bytes { Some self.old.left
            ≡ prepend_known (take (moved result) buf.new) (Some self.new.left) }
        ensures end { result ≡ Ok (Moved.Bytes 0) → 0 < length buf.old
            → IsAtEnd (Some self.new.left) }
        ensures held { Some self.new.held ≡ Some self.old.held }
        ensures counts { NoneFell self.old.counts self.new.counts }
        ensures waits { result ≡ Ok Moved.NotYet
            → HasRisen self.old.counts.read_waits self.new.counts.read_waits }
        ensures cause { result ≡ Err LinkFault.Failed
            → HasRisen self.old.counts.read_faults self.new.counts.read_faults }

        // It fails and waits as it was told to, gives as much as it may, and takes no memory.
        ensures failing { (result ≡ Err LinkFault.Failed) ↔ IsTrue (fails_next self.old.pulls) }
        ensures waiting { (result ≡ Ok Moved.NotYet) ↔ IsTrue (waits_next self.old.pulls) }
        ensures size { (n : ℕ) → result ≡ Ok (Moved.Bytes n)
            → n ≡ min (min self.old.piece (length buf.old)) (length self.old.left) }
        ensures memory { result ≢ Err LinkFault.NoMemory }
        ensures after { self.new ≡ after_pull result self.old }
    {
        let fails = self.pulls.fails();
        let waits = self.pulls.is_not_yet();
        self.pulls.count();
        if fails {
            self.counts.read_fault();
            return Err(LinkFault::Failed);
        }
        if waits {
            self.counts.read_wait();
            return Ok(Moved::NotYet);
        }
        match self.source.read(buf) {
            Ok(n) => Ok(Moved::Bytes(n)),
            Err(_) => Err(LinkFault::Failed),
        }
    }

    fn push(&mut self, bytes: &[u8]) -> Result<Moved, LinkFault>
        ensures bound { moved result ≤ length bytes.now }
        ensures bytes { Some self.new.held
            ≡ append_known (Some self.old.held) (take (moved result) bytes.now) }
        ensures some { result ≡ Ok (Moved.Bytes 0) → length bytes.now ≡ 0 }
        ensures left { Some self.new.left ≡ Some self.old.left }
        ensures counts { NoneFell self.old.counts self.new.counts }
        ensures waits { result ≡ Ok Moved.NotYet
            → HasRisen self.old.counts.write_waits self.new.counts.write_waits }
        ensures cause { result ≡ Err LinkFault.Failed
            → HasRisen self.old.counts.write_faults self.new.counts.write_faults }

        // It fails and waits as it was told to, and takes as much as it may.
        ensures failing { (result ≡ Err LinkFault.Failed) ↔ IsTrue (fails_next self.old.pushes) }
        ensures waiting { (result ≡ Ok Moved.NotYet) ↔ IsTrue (waits_next self.old.pushes) }
        ensures size { (n : ℕ) → result ≡ Ok (Moved.Bytes n)
            → n ≡ min self.old.piece (length bytes.now) }
        ensures after { self.new ≡ after_push bytes.now result self.old }
    {
        let fails = self.pushes.fails();
        let waits = self.pushes.is_not_yet();
        self.pushes.count();
        if fails {
            self.counts.write_fault();
            return Err(LinkFault::Failed);
        }
        if waits {
            self.counts.write_wait();
            return Ok(Moved::NotYet);
        }
        match self.sink.write(bytes) {
            Ok(n) => Ok(Moved::Bytes(n)),
            Err(SinkError::Failed) => Err(LinkFault::Failed),
            Err(SinkError::NoMemory) => Err(LinkFault::NoMemory),
        }
    }
}
