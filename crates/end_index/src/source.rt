ghost use Rattle.std.specs.Prelude.{◌≡◌, ◌≤◌, [], ◌∷◌, length, take, All, MatchOption};
ghost use Rattle.partial_path.specs.{Keys.{asked_texts, key_size}, Sources.{IsSourceFile}};
ghost use Rattle.partial_path.specs.declared.config.Spot.TheVariants as spots;
ghost use Rattle.root_index.specs.Offers.{files_of};
ghost use Rattle.back_stitch.specs.Sources.{AreEnds};
ghost use Rattle.end_index.specs.{Ends.{AreListed, IsEndIndexOf}, Looks.{ends_left}};

use crate::index::EndIndex;
use crate::inside::next_inside;
use crate::listing::path_to;
use crate::nodes::is_exported;
use crate::outside::next_outside;
use crate::runs::{EndRuns, before_runs, behind_runs, first_symbols};
use back_stitch::BackSource;
use partial_path::{Spot, StoredPath};
use stacks_vars::{NodeAt, SymPat};
use std::marker::Model;
use version_tree::View;

/// Where a look-up of paths by their end stands.
#[derive(Clone, Copy, Debug)]
pub enum EndLook {
    /// Among the paths of a node's file that end at the node, with the place of the one that is looked at next; then
    /// come those that end by the stack.
    Inside(NodeAt, usize, EndRuns),
    /// Among the paths that end at the root.
    Root(EndRuns),
    /// Among the paths that end by the stack and make no scope.
    Stack(EndRuns),
}

/// The stored paths of the files that a user sees, found by where they end: those that end at a node whatever the stack
/// by going over its file, those that end at the root or by the stack in the index.
#[derive(Drop)]
pub struct EndSource<'a> {
    view: &'a View,
    ends: &'a EndIndex,
}

impl<'a> Model for EndSource<'a> {
    ghost use Rattle.end_index.specs.{Ends.{IsEndIndexOf}, Looks.{Seen, seen_of}};

    ghost Value = { Seen };

    ghost view = { λ s. seen_of s.view.now s.ends.now };

    ghost invariant = { λ s. IsEndIndexOf s.view.now s.ends.now };
}

impl<'a> EndSource<'a> {
    ghost use Rattle.std.specs.Prelude.{◌≡◌};
    ghost use Rattle.end_index.specs.{Ends.{IsEndIndexOf}, Looks.{seen_of}};

    /// What is seen, with its index.
    pub fn of(view: &'a View, ends: &'a EndIndex) -> EndSource<'a>
        requires { IsEndIndexOf view.now ends.now }
        ensures { result ≡ seen_of view.now ends.now }
    {
        EndSource { view, ends }
    }
}

impl<'a> BackSource for EndSource<'a> {
    ghost use Rattle.std.specs.Prelude.{take};
    ghost use Rattle.partial_path.specs.Keys.{asked_texts, key_size};
    ghost use Rattle.root_index.specs.Offers.{files_of};
    ghost use Rattle.back_stitch.specs.Sources.{rules_to};
    ghost use Rattle.end_index.specs.Looks.{ends_left};

    ghost files = { λ s. files_of s.rows };

    ghost listed = { λ s at. rules_to (files_of s.rows) at };

    fn path_to(&self, spot: &Spot, k: usize) -> Option<(u32, StoredPath<'_>)> {
        are_sources(self.view);
        path_to(self.view, *spot, k)
    }

    type Ends = EndLook;

    ghost given = { λ s symbols at.
        ends_left (files_of s.rows) (asked_texts (take key_size symbols)) s.ends at };

    fn ends(&self, spot: &Spot, symbols: &[SymPat]) -> EndLook {
        are_sources(self.view);
        ends_of(self.view, self.ends, *spot, symbols)
    }

    fn next_end(&self, symbols: &[SymPat], at: EndLook) -> Option<(u32, StoredPath<'_>, EndLook)> {
        next_end(self.view, self.ends, first_symbols(symbols), at)
    }

    fn is_exported(&self, at: &NodeAt) -> bool {
        is_exported(self.view, *at)
    }
}

/// Tells that each file that is seen is a checked graph with its path set, which the view says.
fn are_sources(view: &View)
    ensures { All IsSourceFile (files_of view.now) }
{
    view.row_count();
}

/// Tells that the index has all paths that its marks tell, each once and in order, which its two lists say.
fn are_listed(ends: &EndIndex)
    ensures root { AreListed ends.now.root.marks ends.now.root.shares }
    ensures stack { AreListed ends.now.stack.marks ends.now.stack.shares }
{
    ends.root();
    ends.stack();
}

/// Before the first path that may end at the spot and make these symbols.
fn ends_of(view: &View, ends: &EndIndex, spot: Spot, _symbols: &[SymPat]) -> EndLook
    requires { IsEndIndexOf view.now ends.now }
    ensures { AreEnds (files_of view.now) spot _symbols.now
        (ends_left (files_of view.now) (asked_texts (take key_size _symbols.now)) ends.now result) }
{
    are_sources(view);
    are_listed(ends);
    match spot {
        Spot::Root => EndLook::Root(before_runs(0)),
        Spot::At(node) => {
            if is_exported(view, node) {
                EndLook::Inside(node, 0, before_runs(0))
            } else {
                EndLook::Inside(node, 0, behind_runs(ends.stack()))
            }
        }
    }
}

/// The path that comes next in the look-up, with its file's number, and where the look-up stands after it. The symbols are
/// the first ones that are asked for.
fn next_end<'a>(
    view: &'a View,
    ends: &EndIndex,
    symbols: &[SymPat],
    at: EndLook,
) -> Option<(u32, StoredPath<'a>, EndLook)>
    requires index { IsEndIndexOf view.now ends.now }
    requires few { length symbols.now ≤ key_size }
    ensures { MatchOption result
        (ends_left (files_of view.now) (asked_texts symbols.now) ends.now at ≡ [])
        (λ found. ends_left (files_of view.now) (asked_texts symbols.now) ends.now at
        ≡ (found.0, found.1)
        ∷ ends_left (files_of view.now) (asked_texts symbols.now) ends.now found.2) }
{
    match at {
        EndLook::Inside(node, place, stack) => match next_inside(view, node, place) {
            Some((file, path, behind)) => Some((file, path, EndLook::Inside(node, behind, stack))),
            None => next_by_stack(view, ends, symbols, stack),
        },
        EndLook::Root(at) => {
            let (file, path, after) = next_outside(view, ends.root(), symbols, at)?;
            Some((file, path, EndLook::Root(after)))
        }
        EndLook::Stack(at) => next_by_stack(view, ends, symbols, at),
    }
}

ghost use Rattle.end_index.specs.Looks.{outside_left};

/// The same among the paths that end by the stack and make no scope alone.
fn next_by_stack<'a>(
    view: &'a View,
    ends: &EndIndex,
    symbols: &[SymPat],
    at: EndRuns,
) -> Option<(u32, StoredPath<'a>, EndLook)>
    requires index { IsEndIndexOf view.now ends.now }
    requires few { length symbols.now ≤ key_size }
    ensures { MatchOption result
        (outside_left (files_of view.now) (asked_texts symbols.now) ends.now.stack.shares at ≡ [])
        (λ found. outside_left (files_of view.now) (asked_texts symbols.now) ends.now.stack.shares at
        ≡ (found.0, found.1)
        ∷ ends_left (files_of view.now) (asked_texts symbols.now) ends.now found.2) }
{
    let (file, path, after) = next_outside(view, ends.stack(), symbols, at)?;
    Some((file, path, EndLook::Stack(after)))
}
