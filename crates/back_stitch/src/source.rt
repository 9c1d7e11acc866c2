//! Where a backward search takes its partial paths from.
ghost use Rattle.std.specs.Prelude.{◌≡◌, [], ◌∷◌, ℕ, List, MatchOption, All, IsPermutation, slice_get};
ghost use Rattle.stacks_vars.specs.declared.patterns.SymPat.{SymPat};
ghost use Rattle.partial_path.specs.{declared.config.Spot.{Spot}, Rules.{Rule}, PathSets.{FileRules}, Sources.{IsSourceFile, graphs_of}};
ghost use Rattle.back_stitch.specs.{Cuts.{is_exported_of}, Sources.{AreEnds, rules_to}};

use partial_path::{Spot, StoredPath};
use stacks_vars::{NodeAt, SymPat};

/// The path sets of a list of files, asked for paths by where they end. A spot and a node are told with the number of
/// their file, its place in that list.
pub trait BackSource {
    /// The path set of each file, by the file's number.
    ghost files: { Self → List FileRules };

    /// The rules that may end at a spot, each with its file's number, in the order in which they are given.
    ghost listed: { Self → Spot → List (ℕ × Rule) };

    /// The path at place `k`, from 0, of those that may end at the spot, with its file's number; None past their end.
    /// A path that ends by the stack may end at the first scope that it makes, and where it makes none at every
    /// exported scope. The path's own end has file number 0. It takes no memory.
    fn path_to(&self, spot: &Spot, k: usize) -> Option<(u32, StoredPath<'_>)>
        ensures value { result ≡ slice_get (listed self.now spot.now) k }
        ensures exact { IsPermutation (rules_to (files self.now) spot.now)
            (listed self.now spot.now) }
        ensures sets { All IsSourceFile (files self.now) };

    /// Where a look-up stands: a value that costs nothing to copy.
    type Ends: Copy;

    /// The rules that a look-up of what makes these symbols still gives where it stands there, each with its file's
    /// number, in the order in which they are given.
    ghost given: { Self → List SymPat → Self.Ends → List (ℕ × Rule) };

    /// A look-up of the paths that may end at the spot behind which a path applies that asks for these symbols, as far
    /// as their texts tell: before its first path. It may give more of those that end there. It takes no memory.
    fn ends(&self, spot: &Spot, symbols: &[SymPat]) -> Self::Ends
        ensures exact { AreEnds (files self.now) spot.now symbols.now
            (given self.now symbols.now result) }
        ensures sets { All IsSourceFile (files self.now) };

    /// The path that comes next in the look-up, with its file's number, and where the look-up stands after it; None
    /// where no more is given. The symbols are those that the look-up began with. The path's own end has file number 0.
    /// It takes no memory.
    fn next_end(
        &self,
        symbols: &[SymPat],
        at: Self::Ends,
    ) -> Option<(u32, StoredPath<'_>, Self::Ends)>
        ensures { MatchOption result (given self.now symbols.now at ≡ [])
            (λ found. given self.now symbols.now at
            ≡ (found.0, found.1) ∷ given self.now symbols.now found.2) };

    /// Whether the node is an exported scope of its file; false where there is no such file or node.
    fn is_exported(&self, at: &NodeAt) -> bool
        ensures { result ≡ is_exported_of (graphs_of (files self.now)) at.now.file at.now.node };
}
