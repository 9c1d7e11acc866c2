ghost use Rattle.std.specs.{Prelude.{◌≡◌, ◌≤◌, ◌<◌, ◌+◌, ◌||◌, [], ◌∷◌, length, ◌++◌, IfOk, IfErr, IfSome, OnOk, IsTrue, ℕ}, List.{AllByRecursion}};
ghost use Rattle.graph_nodes.specs.{Graph.{has_place}, Cut.{is_cut}, Out.{edges_from}};
ghost use Rattle.partial_path.specs.{Walks.{alone, is_definition_place, ends_landing, IsWalk, IsWeight, IsHeavier}, PathSets.{IsRuleOf, IsPathSet, AreFileRules, walk_of_rule}};
ghost use Rattle.file_paths.specs.{declared.fault.TheConstants.{MAX_WEIGHT}, Finding.{IsShort, AddsLonger, EndsWith, LeadsTo, IsFinding}, Finds.{max_weight, AddsWalks, HasCause}};

use crate::fault::{MAX_WEIGHT, PathsFault};
use crate::growing::{begin_longer, grow, put};
use crate::starting::first_paths;
use graph_nodes::{FileGraph, Place, Steps};
use partial_path::{EdgeAt, FilePaths, PartialPath};
use path_join::{extend_in_place, whole};
use std::alloc::{AllocError, Global};
use std::sync::ledger::Ledger;

/// The paths of a file: one for each landing walk of its graph, with the file's weight. One step is
/// counted for each walk made. It is `Heavy` exactly where the weight exceeds `MAX_WEIGHT`, with
/// `MAX_WEIGHT + 1`, and else `NoMemory` where memory is refused. Walks and paths are told in
/// `specs/Walks.antt` and `specs/PathSets.antt` of `partial_path`. It takes time that follows the weight
/// and the sizes of the paths, and memory that follows the paths kept and those begun.
pub fn enumerate<L: Ledger>(
    alloc: Global,
    graph: FileGraph,
    steps: &mut Steps<L>,
) -> Result<FilePaths, PathsFault>
    ensures graph { IfOk result (λ file. file.graph ≡ graph) }
    ensures file { IfOk result AreFileRules }
    ensures steps { OnOk result (AddsWalks graph steps.old steps.new) }
    ensures light { OnOk result (¬ IsHeavier max_weight graph) }
    ensures fault { IfErr result (HasCause graph) }

    // Whatever is answered, the steps are few.
    ensures few { steps.new ≤ steps.old + (max_weight + 1) }
    ensures fewer { (weight : ℕ) → IsWeight graph weight → steps.new ≤ steps.old + weight }
{
    let mut walks = 0;
    let found = find_paths(alloc, graph, &mut walks);
    steps.add(walks);
    found
}

/// As `enumerate`, for a worker that has no counter at hand: the walks made are counted in a number, which
/// is 0 before.
pub fn find_paths(alloc: Global, graph: FileGraph, walks: &mut u64) -> Result<FilePaths, PathsFault>
    requires { walks.old ≡ 0 }
    ensures graph { IfOk result (λ file. file.graph ≡ graph) }
    ensures file { IfOk result AreFileRules }
    ensures walks { OnOk result (AddsWalks graph walks.old walks.new) }
    ensures light { OnOk result (¬ IsHeavier max_weight graph) }
    ensures fault { IfErr result (HasCause graph) }

    // Whatever is answered, the walks are few.
    ensures few { walks.new ≤ max_weight + 1 }
    ensures fewer { (weight : ℕ) → IsWeight graph weight → walks.new ≤ weight }
{
    let Found { paths, weight, .. } = find(alloc, &graph, walks)?;
    let file = FilePaths::new(graph, paths, weight)?;
    // Tells that what is stored is the path set.
    file.weight();
    Ok(file)
}

/// What is found of a file on the way: the paths that are begun and not yet looked at, those that are kept, and
/// how many edges the walks looked at have together.
#[derive(Debug, Drop)]
struct Found {
    begun: Vec<PartialPath>,
    paths: Vec<PartialPath>,
    weight: u32,
}

/// The paths of the graph and its weight. The paths that are begun and not yet looked at are kept in a
/// list, so that no depth of a graph takes more of the call stack.
fn find(alloc: Global, graph: &FileGraph, steps: &mut u64) -> Result<Found, PathsFault>
    requires { steps.old ≡ 0 }
    ensures paths { IfOk result (λ found. IsPathSet graph.now found.paths.items) }
    ensures weight { IfOk result (λ found. IsWeight graph.now found.weight) }
    ensures light { IfOk result (λ found. found.weight ≤ MAX_WEIGHT) }
    ensures steps { OnOk result (AddsWalks graph.now steps.old steps.new) }
    ensures fault { IfErr result (HasCause graph.now) }
    ensures few { steps.new ≤ steps.old + (MAX_WEIGHT + 1) }
    ensures fewer { (weight : ℕ) → IsWeight graph.now weight → steps.new ≤ steps.old + weight }
{
    // Tells that the graph is checked.
    graph.node_count();
    let begun = first_paths(alloc, graph)?;
    // Most paths come of one begun first, and some more of those that go on past a definition.
    let room = begun.len() + begun.len() / 8;
    let paths = Vec::with_capacity(alloc, room)?;
    let mut found = Found {
        begun,
        paths,
        weight: 0,
    };
    while let Some(path) = found.begun.pop() {
        follow(alloc, graph, path, &mut found, steps)?;
    }
    Ok(found)
}

/// Counts the path, the last of those begun, and keeps it where it lands; its longer ones are begun beside it then.
/// Else, where one edge alone leads on, the path is made longer where it lies and the same is done again; where
/// several do, those of one edge more are begun. The error is `Heavy` where the weight comes to exceed
/// `MAX_WEIGHT`, and else want of memory. An edge that alone leads on costs what `extend_in_place` costs: the path
/// isn't put back among those begun.
fn follow(
    alloc: Global,
    graph: &FileGraph,
    path: PartialPath,
    found: &mut Found,
    steps: &mut u64,
) -> Result<(), PathsFault>
    requires finding { IsFinding graph.now found.old.paths.items (found.old.begun.items
        ++ path ∷ []) found.old.weight steps.old }
    requires short { IsShort (MAX_WEIGHT + 1) path }
    requires begun { AllByRecursion (IsShort (MAX_WEIGHT + 1)) found.old.begun.items }
    requires light { found.old.weight ≤ MAX_WEIGHT }
    ensures finding { OnOk result
        (IsFinding graph.now found.new.paths.items found.new.begun.items
        found.new.weight steps.new) }
    ensures begun { OnOk result (AllByRecursion (IsShort (MAX_WEIGHT + 1)) found.new.begun.items) }
    ensures light { OnOk result (found.new.weight ≤ MAX_WEIGHT) }
    ensures heavier { OnOk result (found.old.weight < found.new.weight) }
    ensures fault { IfErr result (HasCause graph.now) }
    ensures few { steps.new ≤ MAX_WEIGHT + 1 }
    ensures fewer { (weight : ℕ) → IsWeight graph.now weight → steps.new ≤ weight }
{
    let mut parts = path.into_parts();
    loop {
        *steps += 1;
        let edges = parts.edges.as_slice();
        found.weight += edges.len() as u32;
        if found.weight > MAX_WEIGHT {
            return Err(PathsFault::Heavy(MAX_WEIGHT + 1));
        }
        let sink = last_sink(graph, edges);
        if lands(graph, sink) {
            let path = whole(parts);
            onward(alloc, graph, &path, sink, &mut found.begun)?;
            put(path, &mut found.paths)?;
            return Ok(());
        }
        let Some(edge) = only_edge(graph, sink) else {
            grow(alloc, graph, whole(parts), sink, &mut found.begun)?;
            return Ok(());
        };
        if !extend_in_place(alloc, graph, &mut parts, edge)? {
            return Ok(());
        }
    }
}

/// The edge that leaves the place, where there is one alone.
fn only_edge(graph: &FileGraph, from: Place) -> Option<u32>
    requires { IsTrue (has_place (length graph.now.nodes) from) }
    ensures { IfSome result (λ edge. edges_from graph.now from ≡ edge ∷ []) }
{
    let mut left = graph.edges_from(from);
    let edge = left.next()?;
    match left.next() {
        Some(_) => None,
        None => Some(edge),
    }
}

/// The place to which the last of these edges leads.
fn last_sink(graph: &FileGraph, edges: &[EdgeAt]) -> Place
    requires { EndsWith graph.now edges.now }
    ensures leads { LeadsTo graph.now edges.now result }
    ensures place { IsTrue (has_place (length graph.now.nodes) result) }
{
    // Tells that the graph is checked.
    graph.edge_count();
    graph.edge(edges[edges.len() - 1].edge).sink
}

/// Begins the paths of one edge more than this one, whose last edge leads to the sink: none behind a cut edge.
fn onward(
    alloc: Global,
    graph: &FileGraph,
    path: &PartialPath,
    sink: Place,
    begun: &mut Vec<PartialPath>,
) -> Result<(), AllocError>
    requires walk { IsWalk graph.now path.now.start path.now.edges }
    requires exact { IsRuleOf graph.now path.now }
    requires short { IsShort MAX_WEIGHT path.now }
    requires leads { LeadsTo graph.now path.now.edges sink }
    requires place { IsTrue (has_place (length graph.now.nodes) sink) }
    requires begun { AllByRecursion (IsShort (MAX_WEIGHT + 1)) begun.old.items }
    ensures longer { OnOk result (AddsLonger graph.now
        (walk_of_rule path.now) begun.old.items begun.new.items) }
    ensures begun { OnOk result (AllByRecursion (IsShort (MAX_WEIGHT + 1)) begun.new.items) }
{
    if graph.is_cut(sink) {
        return Ok(());
    }
    begin_longer(alloc, graph, path, sink, begun)
}

/// Whether a path whose last edge leads to the place may land there: at a cut, or at a definition.
fn lands(graph: &FileGraph, sink: Place) -> bool
    requires { IsTrue (has_place (length graph.now.nodes) sink) }
    ensures { result ≡ (is_cut graph.now sink || is_definition_place (alone graph.now) 0 sink) }
{
    graph.is_cut(sink) || is_definition(graph, sink)
}

/// Whether the place is a definition.
fn is_definition(graph: &FileGraph, place: Place) -> bool
    requires { IsTrue (has_place (length graph.now.nodes) place) }
    ensures { result ≡ is_definition_place (alone graph.now) 0 place }
{
    match place {
        Place::Root | Place::Jump => false,
        Place::At(node) => graph.is_definition(node),
    }
}
