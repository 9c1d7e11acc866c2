ghost use Rattle.std.specs.{Prelude.{◌≡◌, ◌++◌, drop, IfOk, OnOk, MatchOption}, List.{list_all, zip}};
ghost use Rattle.path_join.specs.{Joining.{past}, Tables.{kept_if, agrees}};

use stacks_vars::{Held, Listed, NodeAt, ScopeOut, ScopePat, SymOut, SymPat, Tail};
use std::alloc::{AllocError, Global};
use std::marker::Model;

/// With which scopes the variables of the first path begin, so far as the second path asks for them: the
/// variable of the scope stack, and one for each symbol of the joined precondition.
#[derive(Debug, Drop)]
pub(crate) struct Known {
    front: Listed<NodeAt>,
    items: Vec<Listed<NodeAt>>,
}

impl Model for Known {
    ghost use Rattle.partial_path.specs.Apply.{Rests, rests_of};

    ghost Value = { Rests };

    ghost view = { λ k. rests_of k.front k.items.items };
}

impl Known {
    ghost use Rattle.std.specs.Prelude.{◌≡◌, ◌++◌, IfOk, OnOk, slice_get, Some};
    ghost use Rattle.partial_path.specs.Apply.{tail_scopes};
    ghost use Rattle.path_join.specs.{Joining.{nothing_known, grow, meet_scopes, meet_attached, meet_symbol}, Tables.{kept_if}};

    /// Nothing is known of the variables of so many symbols.
    pub(crate) fn nothing(alloc: Global, count: usize) -> Result<Known, AllocError>
        ensures { IfOk result (λ known. known ≡ nothing_known count) }
    {
        let mut items = Vec::with_capacity(alloc, count)?;
        for _ in 0..count {
            items.push(Listed::new(alloc))?;
        }
        Ok(Known {
            front: Listed::new(alloc),
            items,
        })
    }

    /// With which scopes the variable begins.
    pub(crate) fn of_tail(&self, tail: Tail) -> &[NodeAt]
        ensures { result.now ≡ tail_scopes self.now tail }
    {
        match tail {
            Tail::Nil => &[],
            Tail::Front => self.front.items(),
            Tail::Item(place) => match self.items.get(place as usize) {
                Some(item) => item.items(),
                None => &[],
            },
        }
    }

    /// With which scopes the variables of the joined precondition's symbols begin, in their order.
    pub(crate) fn items(&self) -> &[Listed<NodeAt>]
        ensures { result.now ≡ self.now.items }
    {
        self.items.as_slice()
    }

    /// With which scopes the variable of the scope stack begins.
    pub(crate) fn front(&self) -> &[NodeAt]
        ensures { result.now ≡ self.now.front }
    {
        self.front.items()
    }

    /// The variable begins with these scopes too; false where there is no variable.
    #[tactic(auto, using(crate::proofs::CodeTables::grown_items))]
    fn grow(&mut self, tail: Tail, more: &[NodeAt]) -> Result<bool, AllocError>
        ensures { IfOk result (λ grown. grow tail more.now self.old ≡ kept_if grown self.new) }
    {
        match tail {
            Tail::Nil => Ok(more.is_empty()),
            Tail::Front => {
                add(&mut self.front, more)?;
                Ok(true)
            }
            Tail::Item(place) if (place as usize) < self.items.len() => {
                add(&mut self.items[place as usize], more)?;
                Ok(true)
            }
            Tail::Item(_) => Ok(true),
        }
    }

    /// The scopes asked for are met by those that the output makes; false where they differ.
    #[tactic(auto, using(crate::proofs::CodeTables::met_scopes))]
    pub(crate) fn meet_scopes(
        &mut self,
        fixed: &[NodeAt],
        out: &ScopeOut,
    ) -> Result<bool, AllocError>
        ensures { IfOk result (λ met. meet_scopes self.old fixed.now out.now
            ≡ kept_if met self.new) }
    {
        let Some(beyond) = past(fixed, out.scopes.items()) else {
            return Ok(false);
        };
        let Some(more) = past(beyond, self.of_tail(out.tail)) else {
            return Ok(false);
        };
        self.grow(out.tail, more)
    }

    /// A plain symbol meets a plain one, attached scopes meet attached ones.
    fn meet_attached(
        &mut self,
        pat: &Option<Held<ScopePat>>,
        out: &Option<Held<ScopeOut>>,
    ) -> Result<bool, AllocError>
        ensures { IfOk result (λ met. meet_attached self.old pat.now out.now
            ≡ kept_if met self.new) }
    {
        match (pat, out) {
            (None, None) => Ok(true),
            (Some(pat), Some(out)) => self.meet_scopes(pat.get().fixed.items(), out.get()),
            _ => Ok(false),
        }
    }

    /// The symbol asked for is met by the one that the output makes; false where they differ.
    pub(crate) fn meet_symbol(&mut self, pat: &SymPat, out: &SymOut) -> Result<bool, AllocError>
        ensures { IfOk result (λ met. meet_symbol self.old pat.now out.now ≡ kept_if met self.new) }
    {
        if !pat.symbol.same(&out.symbol) {
            return Ok(false);
        }
        self.meet_attached(&pat.scopes, &out.scopes)
    }
}

/// Puts the scopes behind those of the list; the one error is want of memory.
pub(crate) fn add(list: &mut Listed<NodeAt>, more: &[NodeAt]) -> Result<(), AllocError>
    ensures { OnOk result (list.new ≡ list.old ++ more.now) }
{
    for scope in more {
        list.push(*scope)?;
    }
    Ok(())
}

/// What is asked for past the scopes that are there; None where these differ from it.
pub(crate) fn past<'a>(fixed: &'a [NodeAt], there: &[NodeAt]) -> Option<&'a [NodeAt]>
    ensures { MatchOption result (past fixed.now there.now ≡ None)
        (λ more. past fixed.now there.now ≡ Some more.now) }
{
    if !agree(fixed, there) {
        return None;
    }
    Some(rest(fixed, there.len()))
}

/// The items without the first so many.
pub(crate) fn rest<T>(items: &[T], count: usize) -> &[T]
    ensures { result.now ≡ drop count items.now }
{
    let both = count.min(items.len());
    &items[both..]
}

/// Whether the two agree as far as both go.
fn agree(left: &[NodeAt], right: &[NodeAt]) -> bool
    ensures { result ≡ list_all agrees (zip left.now right.now) }
{
    left.iter().zip(right).all(|(left, right)| left == right)
}
