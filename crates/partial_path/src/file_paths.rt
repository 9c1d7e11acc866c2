use crate::end_table::{EndMark, EndTable};
use crate::offers::{FileOffers, next_offer};
use crate::path::PartialPath;
use crate::rule::Start;
use crate::slots::run_asking;
use crate::sorting::sort_paths;
use crate::start_table::{StartTable, halved_run};
use crate::stored::StoredPath;
use crate::stored_paths::{KeptPaths, StoredPaths};
use graph_nodes::{EdgeIter, FileGraph, NodeKind, NodeSpan, Place, Span};
use stacks_vars::LentStack;
use std::alloc::AllocError;
use std::marker::Model;

/// The partial paths of one file, one for each landing walk of its graph, with the graph and its weight:
/// how many edges all its walks have together. What stands here searches by these paths alone; where an
/// edge leads is told to see which references begin alike.
#[derive(Debug, Drop)]
pub struct FilePaths {
    graph: FileGraph,
    /// In the order of their starts, those of one start in the order of their keys.
    paths: KeptPaths,
    weight: u32,
    /// Where the paths of each start and first symbol stand.
    starts: StartTable,
    /// Which of them end outside the file.
    ends: EndTable,
}

impl Model for FilePaths {
    ghost use Rattle.partial_path.specs.{PathSets.{FileRules, file_rules}, Ends.{AreEndMarks}, Inside.{IsStored}};

    ghost Value = { FileRules };

    ghost view = { λ f. file_rules f.graph f.paths f.weight };

    ghost invariant = { λ f. IsStored (file_rules f.graph f.paths f.weight) f.starts.heads.items
        f.starts.before.items f.starts.nodes
        × AreEndMarks f.paths f.ends.root.items f.ends.stack.items };
}

impl FilePaths {
    ghost use Rattle.std.specs.{Prelude.{◌≡◌, ◌≤◌, ◌<◌, [], ◌∷◌, length, take, slice_get, option_map, Some, IfOk, IfSome, MatchOption, IsPermutation}, Option.{option_and_then}};
    ghost use Rattle.graph_nodes.specs.{declared.node.Node.{Node}, Graph.{is_definition, is_exported, is_reference}, Spans.{spans_from}, Checked.{IsChecked}, Cut.{is_cut}, Out.{edges_from}};
    ghost use Rattle.partial_path.specs.{PathSets.{AreFileRules, IsPathSet}, Walks.{IsWeight}, Starts.{IsByStart, rules_at}, Keys.{IsByKey, key_size, rules_asking, texts}, Offers.{offers_left}, Ends.{end_marks, ends_at_root, ends_by_stack}};

    /// The paths of this file, sorted by their starts, and those of one start by their keys, with their parts
    /// put together in pools. The one error is want of memory for these, or of numbers for so many parts.
    /// Where memory is refused for the sort by starts, which moves each path once, or for a table of two
    /// numbers a node and one a path that tells where the paths of a start and a first symbol stand, it does
    /// without.
    pub fn new(
        graph: FileGraph,
        mut paths: Vec<PartialPath>,
        weight: u32,
    ) -> Result<FilePaths, AllocError>
        requires paths { IsPathSet graph paths.items }
        requires weight { IsWeight graph weight }
        ensures graph { IfOk result (λ file. file.graph ≡ graph) }
        ensures weight { IfOk result (λ file. file.weight ≡ weight) }
        ensures paths { IfOk result (λ file. IsPermutation paths.items file.rules) }
        ensures order { IfOk result (λ file. IsByStart file.rules) }
        ensures keys { IfOk result (λ file. IsByKey file.rules) }
    {
        let alloc = *paths.allocator();
        sort_paths(&mut paths);
        let paths = KeptPaths::of(alloc, paths)?;
        let starts = StartTable::of(alloc, &paths.lent(), graph.node_count());
        let ends = EndTable::of(alloc, &paths.lent())?;
        Ok(FilePaths {
            graph,
            paths,
            weight,
            starts,
            ends,
        })
    }

    /// All paths of the file, in the order of their starts, those of one start in the order of their keys.
    pub fn paths(&self) -> StoredPaths<'_>
        ensures value { result ≡ self.now.rules }
        ensures order { IsByStart self.now.rules }
        ensures keys { IsByKey self.now.rules }
        ensures sets { AreFileRules self.now }
    {
        self.paths.lent()
    }

    /// The paths that begin there. It takes constant time where there was memory for the table of starts, and
    /// else halves over all paths.
    pub fn paths_from(&self, start: Start) -> StoredPaths<'_>
        ensures value { result ≡ rules_at start self.now.rules }
        ensures sets { AreFileRules self.now }
    {
        let paths = self.paths.lent();
        match self.starts.told(&paths, start) {
            Some((low, high)) => paths.between(low, high),
            None => {
                let (low, high) = halved_run(&paths, &start);
                paths.between(low, high)
            }
        }
    }

    /// The paths that begin there and whose key is made of the texts of the stack's first symbols, so many
    /// of them, found by halving.
    pub fn paths_asking<'a>(
        &'a self,
        start: Start,
        symbols: &LentStack<'_>,
        count: usize,
    ) -> StoredPaths<'a>
        requires { count ≤ key_size }
        ensures value { result
            ≡ rules_asking start (take count (texts symbols.now)) self.now.rules }
        ensures sets { AreFileRules self.now }
    {
        let paths = self.paths.lent();
        let (place, end) = run_asking(&paths, start, symbols, count);
        paths.between(place, end)
    }

    /// The path that comes next in a look-up that stands there, and where the look-up stands after it; None
    /// where no more is offered. It looks at the heads of the paths that begin there, by halving, at up to eight
    /// paths whose first symbol has the head of the stack's first one, and at more of these by halving.
    pub fn next_offer<'a>(
        &'a self,
        symbols: &LentStack<'_>,
        at: FileOffers,
    ) -> Option<(StoredPath<'a>, FileOffers)>
        ensures next { MatchOption result (offers_left at symbols.now self.now.rules ≡ [])
            (λ found. offers_left at symbols.now self.now.rules
            ≡ found.0 ∷ offers_left found.1 symbols.now self.now.rules) }
        ensures start { IfSome result (λ found. found.1.start ≡ at.start) }
        ensures sets { AreFileRules self.now }
    {
        next_offer(&self.paths.lent(), &self.starts, symbols, at)
    }

    /// The paths that end at the root, in their order.
    pub fn root_ends(&self) -> &[EndMark]
        ensures { result.now ≡ end_marks ends_at_root 0 self.now.rules }
    {
        self.ends.root.as_slice()
    }

    /// The paths that end by the stack and make no scope, in their order.
    pub fn stack_ends(&self) -> &[EndMark]
        ensures { result.now ≡ end_marks ends_by_stack 0 self.now.rules }
    {
        self.ends.stack.as_slice()
    }

    /// How many edges all walks of the file have together.
    pub fn weight(&self) -> u32
        ensures value { result ≡ self.now.weight }
        ensures sets { AreFileRules self.now }
    {
        self.weight
    }

    /// How many nodes the file has.
    pub fn node_count(&self) -> u32
        ensures value { result ≡ length self.now.graph.nodes }
        ensures checked { IsChecked self.now.graph }
        ensures sets { AreFileRules self.now }
    {
        self.graph.node_count()
    }

    /// The kind of the node at the position.
    pub fn kind(&self, n: u32) -> &NodeKind
        requires { n < length self.now.graph.nodes }
        ensures { option_map (λ (node : Node). node.kind) (slice_get self.now.graph.nodes n)
            ≡ Some result.now }
    {
        self.graph.kind(n)
    }

    /// The part of the file that the node at the position stands for; None where it has none, and past the last
    /// node. It takes time that follows the logarithm of the number of spans.
    pub fn span(&self, n: u32) -> Option<Span>
        ensures { result ≡ option_and_then (λ (node : Node). node.span)
            (slice_get self.now.graph.nodes n) }
    {
        self.graph.span(n)
    }

    /// The nodes that stand for a part of the file, each with it, in their order.
    pub fn spans(&self) -> &[NodeSpan]
        ensures { result.now ≡ spans_from 0 self.now.graph.nodes }
    {
        self.graph.spans()
    }

    /// Whether the node at the position is a cut node: an exported scope or a turning node. It takes
    /// constant time.
    pub fn is_cut(&self, n: u32) -> bool
        requires { n < length self.now.graph.nodes }
        ensures { result ≡ is_cut self.now.graph (Place.At n) }
    {
        self.graph.is_cut(Place::At(n))
    }

    /// Whether there is an exported scope at the position; false past the last node. It takes constant time.
    pub fn is_exported(&self, n: u32) -> bool
        ensures { result ≡ is_exported self.now.graph.nodes n }
    {
        self.graph.is_exported(n)
    }

    /// Whether there is a reference at the position; false past the last node. It takes constant time.
    pub fn is_reference(&self, n: u32) -> bool
        ensures { result ≡ is_reference self.now.graph.nodes n }
    {
        self.graph.is_reference(n)
    }

    /// Whether there is a definition at the position; false past the last node. It takes constant time.
    pub fn is_definition(&self, n: u32) -> bool
        ensures { result ≡ is_definition self.now.graph.nodes n }
    {
        self.graph.is_definition(n)
    }

    /// The positions of the edges that leave the node, rising. The first ones take constant time, and all of them time
    /// that follows their number.
    pub fn edges_from(&self, n: u32) -> EdgeIter<'_>
        requires { n < length self.now.graph.nodes }
        ensures { result ≡ edges_from self.now.graph (Place.At n) }
    {
        self.graph.edges_from(Place::At(n))
    }

    /// Where the edge at the position leads. It takes constant time.
    pub fn sink(&self, e: u32) -> Place
        requires { e < length self.now.graph.edges }
        ensures { option_map (λ edge. edge.sink) (slice_get self.now.graph.edges e)
            ≡ Some result }
    {
        self.graph.edge(e).sink
    }

    /// The precedence of the edge at the position. It takes constant time.
    pub fn precedence(&self, e: u32) -> u16
        requires { e < length self.now.graph.edges }
        ensures { option_map (λ edge. edge.precedence) (slice_get self.now.graph.edges e)
            ≡ Some result }
    {
        self.graph.edge(e).precedence
    }
}
