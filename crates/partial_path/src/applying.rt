ghost use Rattle.std.specs.{Prelude.{◌≡◌, ◌&&◌, IfOk, IsTrue}, Option.{is_some}};
ghost use Rattle.partial_path.specs.{Same.{spot_eq}, Rules.{start_spot}, Apply.{match_stacks, apply}, Moved.{moved, moved_start, moved_pre, Fits}};

use crate::config::Spot;
use crate::filling::Met;
use crate::lent_config::LentConfig;
use crate::matching::{is_moved, meets_items, meets_scopes};
use crate::rule::Start;
use crate::stored::StoredPath;
use std::alloc::{AllocError, Global};

impl<'a> StoredPath<'a> {
    /// The path with `base` added to each file number, applied to the configuration; None where the
    /// configuration isn't at its start, doesn't meet its precondition, or has no scope by which the path
    /// could end. The one error is want of memory. What isn't met is refused at the cost of the pattern.
    pub fn apply(
        &self,
        alloc: Global,
        base: u32,
        at: &LentConfig<'a>,
    ) -> Result<Option<LentConfig<'a>>, AllocError>
        requires { Fits base self.now }
        ensures { IfOk result (λ next. next ≡ apply (moved base self.now) at.now) }
    {
        if !self.meets(base, at) {
            return Ok(None);
        }
        self.apply_met(alloc, LentConfig::new(alloc, at.spot())?, base, at)
    }

    /// As `apply`, to a configuration that is met, which isn't looked at again: None only where it has no scope
    /// by which the path ends. It costs what the postcondition and copies of what is left cost: of the symbols
    /// behind those that are asked for, and of those scopes alone that are used. What is made stands in the room of
    /// a spare configuration, which goes, and memory is taken for the symbols where it has less.
    pub fn apply_met(
        &self,
        alloc: Global,
        spare: LentConfig<'a>,
        base: u32,
        at: &LentConfig<'a>,
    ) -> Result<Option<LentConfig<'a>>, AllocError>
        requires fits { Fits base self.now }
        requires met { IsTrue (spot_eq (start_spot
            (moved_start base self.now.start)) at.now.spot && is_some
            (match_stacks (moved_pre base self.now.pre) at.now.stacks)) }
        ensures { IfOk result (λ next. next ≡ apply (moved base self.now) at.now) }
    {
        let met = Met {
            asked: self.asked(),
            fixed: self.fixed(),
            at,
        };
        let mut next = spare;
        next.fill(alloc, base, &met, self.made(), self.scopes(), self.tail())?;
        Ok(next.ended(base, self.end()))
    }

    /// Whether the configuration is at the path's start, moved by `base`, and meets its precondition. It
    /// takes no memory, and time that follows the precondition.
    pub fn meets(&self, base: u32, at: &LentConfig<'_>) -> bool
        ensures { result
            ≡ (spot_eq (start_spot (moved_start base self.now.start)) at.now.spot && is_some
            (match_stacks (moved_pre base self.now.pre) at.now.stacks)) }
    {
        begins_at(base, self.start(), at.spot())
            && meets_scopes(base, self.fixed(), at.scopes())
            && meets_items(base, self.asked(), at.symbols())
    }
}

/// Whether the start, moved by `base`, is at the spot.
fn begins_at(base: u32, start: Start, at: Spot) -> bool
    ensures { result ≡ spot_eq (start_spot (moved_start base start)) at }
{
    match (start, at) {
        (Start::Before(node), Spot::At(there)) => is_moved(base, node, there),
        (Start::After(Spot::At(node)), Spot::At(there)) => is_moved(base, node, there),
        (Start::After(Spot::Root), Spot::Root) => true,
        _ => false,
    }
}
