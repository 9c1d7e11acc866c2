use crate::buckets::Buckets;
use crate::digested::Digested;
use crate::document::Document;
use crate::held::Held;
use partial_path::SharedPaths;
use std::alloc::{AllocError, Global};
use std::collections::VecDeque;
use std::marker::Model;

/// Documents with their paths, the oldest first, no document twice. A contract sees a list of pairs.
///
/// The pairs are numbered in the order in which they came. Each pair's number stands in the bucket of
/// its document's digest and in no other.
#[derive(Drop)]
pub struct PathStore {
    kept: VecDeque<Held>,
    /// The number of the oldest pair.
    first: u64,
    /// The number of the pair that comes next.
    next: u64,
    /// What all pairs cost.
    total: u64,
    buckets: Buckets,
}

impl Model for PathStore {
    ghost use Rattle.std.specs.Prelude.{List};
    ghost use Rattle.path_store.specs.{Store.{Kept}, Inside.{IsStore}};

    ghost Value = { List Kept };

    ghost view = { λ s. s.kept.items };

    ghost invariant = { λ s. IsStore s.kept.items s.first s.next s.total s.buckets };
}

impl PathStore {
    ghost use Rattle.std.specs.{Prelude.{◌≡◌, [], ◌∷◌, ◌++◌, None, drop, length, nat_lt, OnOk, OnErr}, List.{slice_get}, Option.{option_copied}};
    ghost use Rattle.path_store.specs.Store.{AreDistinct, find_doc, with_doc, with_docs, HasSomeOf, cost_of, swept};

    /// No documents. It takes no memory.
    pub fn new(alloc: Global) -> PathStore
        ensures { result ≡ [] }
    {
        PathStore {
            kept: VecDeque::new(alloc),
            first: 0,
            next: 0,
            total: 0,
            buckets: Buckets::new(alloc),
        }
    }

    /// How many documents are kept.
    pub fn len(&self) -> usize
        ensures { result ≡ length self.now }
    {
        self.kept.len()
    }

    /// The paths kept for this document; `None` exactly where none is kept with its path and its bytes.
    /// It takes no memory, and looks at the documents of its digest alone.
    #[tactic(auto, using(crate::proofs::Filed::found_in_bucket))]
    pub fn find<'a>(&'a self, doc: &Digested) -> Option<&'a SharedPaths>
        ensures value { option_copied result ≡ find_doc doc.now self.now }
        ensures distinct { AreDistinct self.now }
    {
        find_among(
            &self.kept,
            self.first,
            self.buckets.numbers(doc.digest()),
            doc.doc(),
        )
    }

    /// Keeps the document, which is shared, with its paths, as the newest; one that is held stays as it is. The
    /// one error is want of memory or of numbers to count with, and then nothing has changed.
    pub fn keep(
        &mut self,
        alloc: Global,
        doc: &Digested,
        paths: SharedPaths,
    ) -> Result<(), AllocError>
        ensures ok { OnOk result (self.new ≡ with_doc doc.now paths self.old) }
        ensures err { OnErr result (self.new ≡ self.old) }
    {
        self.keep_pair(alloc, Held::of(doc, paths)?)
    }

    #[tactic(auto, using(crate::proofs::Appended::moved_none, crate::proofs::Appended::moved_more, crate::proofs::Appended::moved_all, crate::proofs::Appended::moved_some, crate::proofs::Appended::moved_shorter))]
    /// Keeps all that the other store keeps, the oldest first, as by `keep`. The one error is want of
    /// memory or of numbers to count with, and then as many of the other's oldest pairs are kept as
    /// there was memory for. It takes time for the other's pairs alone, and copies no document.
    pub fn append(&mut self, alloc: Global, newer: PathStore) -> Result<(), AllocError>
        ensures ok { OnOk result (self.new ≡ with_docs newer self.old) }
        ensures err { OnErr result (HasSomeOf newer self.old self.new) }
    {
        let mut newer = newer;
        while let Some(held) = newer.pop_oldest() {
            self.keep_pair(alloc, held)?;
        }
        Ok(())
    }

    /// Drops the oldest pairs while the weights of all paths and the bytes of all documents together
    /// are more than the cost. It takes no memory, and time for the pairs that it drops alone.
    #[tactic(auto, using(crate::proofs::Sweeps::swept_step, crate::proofs::Sweeps::swept_done, crate::proofs::Sweeps::swept_shorter))]
    pub fn sweep(&mut self, cost: u64)
        ensures { self.new ≡ swept cost self.old }
    {
        while self.costs_more(cost) {
            self.pop_oldest();
        }
    }

    // Keeps the pair, as the newest; where its document is held, nothing changes. The one error is want
    // of memory or numbers, and then nothing has changed.
    fn keep_pair(&mut self, alloc: Global, held: Held) -> Result<(), AllocError>
        ensures ok { OnOk result (self.new ≡ with_doc held.doc held.paths self.old) }
        ensures err { OnErr result (self.new ≡ self.old) }
    {
        if self.find(&held.digested()).is_some() {
            return Ok(());
        }
        self.push(alloc, held)
    }

    // Puts the pair last. The one error is want of memory or numbers, and then nothing has changed.
    fn push(&mut self, alloc: Global, held: Held) -> Result<(), AllocError>
        requires { find_doc held.doc self.now ≡ None }
        ensures ok { OnOk result (self.new ≡ self.old ++ held ∷ []) }
        ensures err { OnErr result (self.new ≡ self.old) }
    {
        let next = self.next.checked_add(1).ok_or(AllocError)?;
        let total = self.total.checked_add(held.cost()).ok_or(AllocError)?;
        self.kept.reserve(1)?;
        self.buckets.add(alloc, held.digest(), self.next)?;
        self.kept.push_back(held).unwrap();
        self.next = next;
        self.total = total;
        Ok(())
    }

    // Whether all pairs together cost more than that.
    fn costs_more(&self, cost: u64) -> bool
        ensures { result ≡ nat_lt cost (cost_of self.now) }
    {
        cost < self.total
    }

    // Takes the oldest pair out, where there is one.
    fn pop_oldest(&mut self) -> Option<Held>
        ensures pair { result ≡ slice_get self.old 0 }
        ensures rest { self.new ≡ drop 1 self.old }
    {
        let held = self.kept.pop_front()?;
        self.buckets.drop_first(held.digest());
        self.first += 1;
        self.total -= held.cost();
        Some(held)
    }
}

ghost use Rattle.std.specs.{Prelude.{◌≡◌}, List.{slice_get}, Option.{option_copied}};
ghost use Rattle.path_store.specs.Inside.{paths_for, found_at};

// The paths of the pair of these numbers that is kept for the document. The first pair of all has the
// first number.
#[tactic(auto, using(crate::proofs::Found::found_step, crate::proofs::Found::found_none))]
fn find_among<'a>(
    kept: &'a VecDeque<Held>,
    first: u64,
    numbers: &[u64],
    doc: &Document,
) -> Option<&'a SharedPaths>
    ensures { option_copied result ≡ found_at doc.now first kept.now.items numbers.now }
{
    for number in numbers {
        let found = paths_at(kept, number.saturating_sub(first) as usize, doc);
        if found.is_some() {
            return found;
        }
    }
    None
}

// The paths of the pair at that place, where it is kept for the document.
fn paths_at<'a>(kept: &'a VecDeque<Held>, place: usize, doc: &Document) -> Option<&'a SharedPaths>
    ensures { option_copied result ≡ paths_for doc.now (slice_get kept.now.items place) }
{
    match kept.get(place) {
        Some(held) if held.is_of(doc) => Some(held.paths()),
        _ => None,
    }
}
