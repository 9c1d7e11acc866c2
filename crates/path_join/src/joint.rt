ghost use Rattle.std.specs.Prelude.{◌≡◌};
ghost use Rattle.path_join.specs.Joining.{rest_past, grown_scopes, no_scopes};

use crate::known::{Known, rest};
use partial_path::PartialPath;
use stacks_vars::{NodeAt, ScopeOut, SymOut, SymPat, Tail};
use std::marker::Model;

/// Scopes in two parts, the front first, and a variable behind them. A contract sees an output of one part.
#[derive(Debug, Drop)]
pub(crate) struct Stretch<'a> {
    pub(crate) first: &'a [NodeAt],
    pub(crate) then: &'a [NodeAt],
    pub(crate) tail: Tail,
}

impl<'a> Model for Stretch<'a> {
    ghost use Rattle.std.specs.Prelude.{◌++◌};
    ghost use Rattle.stacks_vars.specs.declared.patterns.ScopeOut.{ScopeOut};

    ghost Value = { ScopeOut };

    ghost view = { λ s. record { scopes = s.first.now ++ s.then.now; tail = s.tail } };
}

/// No scopes at all.
fn nothing<'a>() -> Stretch<'a>
    ensures { result ≡ no_scopes }
{
    Stretch {
        first: &[],
        then: &[],
        tail: Tail::Nil,
    }
}

/// What the output, with what is known of its variable, still has past so many scopes.
#[tactic(auto, using(crate::proofs::CodeBound::rests))]
fn rest_past<'a>(count: usize, out: &'a ScopeOut, known: &'a Known) -> Stretch<'a>
    ensures { result ≡ rest_past count (grown_scopes known.now out.now) }
{
    let fixed = out.scopes.items();
    Stretch {
        first: rest(fixed, count),
        then: rest(known.of_tail(out.tail), count.saturating_sub(fixed.len())),
        tail: out.tail,
    }
}

/// Two paths that meet: the scopes that the second asks for where the first ends, and what is known.
#[derive(Debug, Drop)]
pub(crate) struct Joint<'a> {
    pub(crate) first: &'a PartialPath,
    pub(crate) second: &'a PartialPath,
    pub(crate) asked: &'a [NodeAt],
    pub(crate) known: &'a Known,
}

impl<'a> Model for Joint<'a> {
    ghost use Rattle.std.specs.Prelude.{◌<◌, ◌^◌, length};
    ghost use Rattle.path_join.specs.{Joining.{wide_pre}, Tables.{Meeting, meeting_of}};

    ghost Value = { Meeting };

    ghost view = { λ j. meeting_of j.first.now j.second.now j.asked.now j.known.now };

    ghost invariant = { λ j. length (wide_pre j.first.now j.second.now) < 2 ^ 32 };
}

impl<'a> Joint<'a> {
    ghost use Rattle.std.specs.Prelude.{◌≡◌, ◌<◌, ◌≤◌, length, slice_get, option_copied};
    ghost use Rattle.path_join.specs.{Joining.{bound_tail}, Tables.{bound_of, handed_rest, handed_place}};

    /// What a variable of the second path stands for, in those of the first. It takes constant time.
    pub(crate) fn of_tail(&self, tail: Tail) -> Stretch<'a>
        ensures { result ≡ bound_tail (bound_of self.now) tail }
    {
        match tail {
            Tail::Nil => nothing(),
            Tail::Front => rest_past(self.asked.len(), &self.first.post().scopes, self.known),
            Tail::Item(place) => self.of_item(place),
        }
    }

    /// What the variable of one symbol of the second path stands for.
    #[tactic(auto, using(crate::proofs::CodeBound::bounds))]
    fn of_item(&self, place: u32) -> Stretch<'a>
        ensures { result ≡ bound_tail (bound_of self.now) (Tail.Item place) }
    {
        let Some(pat) = self.pat_at(place) else {
            return nothing();
        };
        let Some(pat) = &pat.scopes else {
            return nothing();
        };
        let Some(out) = self.out_at(place) else {
            return self.handed(place);
        };
        match &out.scopes {
            Some(out) => rest_past(pat.get().fixed.len(), out.get(), self.known),
            None => nothing(),
        }
    }

    /// The symbol that the second path asks for at the place.
    fn pat_at(&self, place: u32) -> Option<&'a SymPat>
        ensures { option_copied result ≡ slice_get self.now.second.pre.symbols place }
    {
        self.second.pre().symbols.items().get(place as usize)
    }

    /// The symbol that the first path makes at the place.
    fn out_at(&self, place: u32) -> Option<&'a SymOut>
        ensures { option_copied result ≡ slice_get self.now.first.post.symbols place }
    {
        self.first.post().symbols.items().get(place as usize)
    }

    /// What the variable of a symbol stands for that the first path hands on.
    fn handed(&self, place: u32) -> Stretch<'a>
        requires within { place < length self.now.second.pre.symbols }
        requires handed { length self.now.first.post.symbols ≤ place }
        ensures { result ≡ handed_rest self.now (handed_place self.now place) }
    {
        let asked = self.first.pre().symbols.len();
        let made = self.first.post().symbols.len();
        let tail = Tail::Item((asked + (place as usize - made)) as u32);
        Stretch {
            first: &[],
            then: self.known.of_tail(tail),
            tail,
        }
    }
}
