//! Things that are given out in order and come back.
ghost use Rattle.std.specs.Prelude.{◌≡◌, ◌+◌, ◌-◌, ◌<◌, ◌≤◌, [], ◌++◌, length, vec_len, vec_capacity, take, drop, None, IfSome, OnSome, ◌∷◌, IfOk, OnOk, OnErr};
ghost use Rattle.nav_io.specs.Lending.{Lending, IsLending, lend};

use std::alloc::{AllocError, Global};
use std::marker::Model;
use std::snapshot::Snapshot;

/// A list of things that are given out in their order and taken back, as the stand-ins in memory give out pairs, doors and
/// links. Contracts see those that wait, those that were given out and those that came back. It needs no memory to take
/// one back, since all stand in their old vector.
#[derive(Drop)]
pub struct Lent<T> {
    /// Those to be given out, and behind them those that came back.
    kept: Vec<T>,
    /// How many are to be given out.
    waiting: usize,
    /// What it was made with: a list of the proofs alone, of which nothing is kept when the program runs.
    all: Snapshot<Vec<T>>,
}

impl<T> Model for Lent<T> {
    ghost Value = { Lending T };

    ghost view = { λ lent. record {
      waiting = take lent.waiting lent.kept.items;
      gave = take (length lent.all.value.items - lent.waiting) lent.all.value.items;
      back = drop lent.waiting lent.kept.items;
    } };

    ghost invariant = { λ lent. IsLending lent.all.value.items lent.kept.items lent.waiting
        (vec_capacity lent.kept) };
}

impl<T> Lent<T> {
    /// A list of these, none of which was given out yet.
    pub fn new(things: Vec<T>) -> Lent<T>
        ensures { result ≡ record { waiting = things.items; gave = []; back = [] } }
    {
        Lent {
            waiting: things.len(),
            all: Snapshot::of(&things),
            kept: things,
        }
    }

    /// How many are to be given out.
    pub(super) fn waiting(&self) -> usize
        ensures count { result ≡ length self.now.waiting }
        ensures no_more { length self.now.back ≤ length self.now.gave }
    {
        self.waiting
    }

    /// Gives out the next one, or `None` exactly where none waits. The others move up, so it takes time that follows their
    /// number.
    pub fn next(&mut self) -> Option<T>
        ensures none { result ≡ None → (self.old.waiting ≡ []) × (self.new ≡ self.old) }
        ensures waits { IfSome result (λ thing. self.old.waiting ≡ thing ∷ self.new.waiting) }
        ensures given { IfSome result (λ thing. self.new.gave ≡ self.old.gave ++ thing ∷ []) }
        ensures back { self.new.back ≡ self.old.back }
        ensures after { OnSome result (self.new ≡ lend 1 self.old) }
        ensures out { OnSome result (length self.new.back < length self.new.gave) }
        ensures no_more { length self.new.back ≤ length self.new.gave }
    {
        if self.waiting == 0 {
            return None;
        }
        self.waiting -= 1;
        Some(self.kept.remove(0))
    }

    /// Gives out the next n. The one error is want of memory, and comes before the first is given.
    pub(super) fn next_ones(&mut self, alloc: Global, n: usize) -> Result<Vec<T>, AllocError>
        requires wait { n ≤ length self.old.waiting }
        requires no_more { length self.old.back ≤ length self.old.gave }
        ensures waits { IfOk result
            (λ things. self.old.waiting ≡ things.items ++ self.new.waiting) }
        ensures given { IfOk result (λ things. self.new.gave ≡ self.old.gave ++ things.items) }
        ensures all { IfOk result (λ things. vec_len things ≡ n) }
        ensures first { IfOk result (λ things. things.items ≡ take n self.old.waiting) }
        ensures after { OnOk result (self.new ≡ lend n self.old) }
        ensures back { self.new.back ≡ self.old.back }
        ensures out { OnOk result (length self.new.back + n ≤ length self.new.gave) }
        ensures err { OnErr result (self.new ≡ self.old) }
        ensures no_more { length self.new.back ≤ length self.new.gave }
    {
        // All the room first: a thing that was given out couldn't go back to its place.
        let mut things = Vec::with_capacity(alloc, n)?;
        while things.len() < n {
            things.push(self.next().unwrap()).unwrap();
        }
        Ok(things)
    }

    /// Takes one back, behind those that came back before.
    pub fn put_back(&mut self, thing: T)
        requires { length self.old.back < length self.old.gave }
        ensures back { self.new ≡ record self.old { back = self.old.back ++ thing ∷ [] } }
    {
        self.kept.push(thing).unwrap();
    }

    /// Takes these back, the first first.
    pub(super) fn put_all_back(&mut self, things: Vec<T>)
    where
        T: Drop,
        requires { length self.old.back + vec_len things ≤ length self.old.gave }
        ensures back { self.new ≡ record self.old { back = self.old.back ++ things.items } }
    {
        for thing in things {
            self.put_back(thing);
        }
    }

    /// The things that came back, the first first. Those that were never given out are let go.
    pub fn into_back(self) -> Vec<T>
    where
        T: Drop,
        ensures { result.items ≡ self.back }
    {
        let Lent {
            mut kept,
            waiting,
            all,
        } = self;
        drop(all);
        kept.drain(..waiting);
        kept
    }
}
