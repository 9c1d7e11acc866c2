//! Where a search takes its partial paths from.
ghost use Rattle.std.specs.Prelude.{◌≡◌, [], ◌∷◌, ℕ, List, Option, MatchOption, All, IsSome, IsPermutation, option_copied, slice_get};
ghost use Rattle.graph_nodes.specs.{declared.node.Place.TheVariants.{At}, Whole.{node_of, is_cut_of, is_definition_of, is_reference_of}};
ghost use Rattle.stacks_vars.specs.declared.items.SymbolItem.{SymbolItem};
ghost use Rattle.partial_path.specs.{declared.rule.Start.{Start}, Rules.{Rule}, PathSets.{FileRules}, Sources.{IsSourceFile, graphs_of, rules_from, rules_offered}};

use crate::rule::Start;
use crate::stored::StoredPath;
use stacks_vars::{LentStack, NodeAt, Symbol};

/// The path sets of a list of files. A path, a start and a node are told with the number of their file, its
/// place in that list.
pub trait PathSource {
    /// The path set of each file, by the file's number.
    ghost files: { Self → List FileRules };

    /// The rules that begin there and can be met with that symbol in front of the stack, each with its
    /// file's number, in the order in which they are given.
    ghost listed: { Self → Start → Option (List ℕ) → List (ℕ × Rule) };

    /// The path at place `k`, from 0, of those that begin at the start and whose precondition asks for no
    /// symbol or for `first` first, with its file's number; None past their end. The path's own start has
    /// file number 0. It takes no memory.
    fn path_from(
        &self,
        start: &Start,
        first: Option<&Symbol>,
        k: usize,
    ) -> Option<(u32, StoredPath<'_>)>
        ensures value { result
            ≡ slice_get (listed self.now start.now (option_copied first.entry)) k }
        ensures exact { IsPermutation (rules_from (files self.now) start.now
            (option_copied first.entry)) (listed self.now start.now (option_copied first.entry)) }
        ensures sets { All IsSourceFile (files self.now) };

    /// Where a look-up stands: a value that costs nothing to copy.
    type Offers: Copy;

    /// The rules that a look-up which stands there still offers to these symbols, each with its file's
    /// number, in the order in which they are given.
    ghost offered: { Self → List SymbolItem → Self.Offers → List (ℕ × Rule) };

    /// A look-up of the paths that can be met from the start with this symbol stack, as far as the texts of
    /// the first six symbols tell: before its first path.
    fn offers(&self, start: &Start, symbols: &LentStack<'_>) -> Self::Offers
        ensures exact { IsPermutation (rules_offered (files self.now) start.now symbols.now)
            (offered self.now symbols.now result) }
        ensures sets { All IsSourceFile (files self.now) };

    /// The path that comes next in the look-up, with its file's number, and where the look-up stands after
    /// it; None where no more is offered. The symbols are those that the look-up began with. The path's own
    /// start has file number 0. It takes no memory, and constant time within paths that ask for the same
    /// symbols.
    fn next_offer(
        &self,
        symbols: &LentStack<'_>,
        at: Self::Offers,
    ) -> Option<(u32, StoredPath<'_>, Self::Offers)>
        ensures { MatchOption result (offered self.now symbols.now at ≡ [])
            (λ found. offered self.now symbols.now at
            ≡ (found.0, found.1) ∷ offered self.now symbols.now found.2) };

    /// Whether the node is a reference of its file; false where there is no such file or node.
    fn is_reference(&self, at: &NodeAt) -> bool
        ensures { result ≡ is_reference_of (graphs_of (files self.now)) at.now.file at.now.node };

    /// Whether the node is a cut node of its file.
    fn is_cut(&self, at: &NodeAt) -> bool
        requires { IsSome (node_of (graphs_of (files self.now)) at.now.file at.now.node) }
        ensures { result ≡ is_cut_of (graphs_of (files self.now)) at.now.file (At at.now.node) };

    /// Whether the node is a definition of its file.
    fn is_definition(&self, at: &NodeAt) -> bool
        requires { IsSome (node_of (graphs_of (files self.now)) at.now.file at.now.node) }
        ensures { result ≡ is_definition_of (graphs_of (files self.now)) at.now.file at.now.node };
}
