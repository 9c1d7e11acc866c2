ghost use Rattle.std.specs.{Prelude.{◌≡◌, ◌<◌, ◌+◌, [], ◌∷◌, ◌++◌, length, OnOk, IsTrue}, List.{AllByRecursion}};
ghost use Rattle.graph_nodes.specs.Graph.{has_place};
ghost use Rattle.partial_path.specs.PathSets.{walk_of_rule};
ghost use Rattle.file_paths.specs.{declared.fault.TheConstants.{MAX_WEIGHT}, Finding.{IsShort, MayGoOn, GoesOnFrom, AddsFound, AddsLonger}};

use graph_nodes::{FileGraph, Place};
use partial_path::PartialPath;
use path_join::{extend, extended};
use std::alloc::{AllocError, Global};

/// Begins the paths of one edge more than this one, by the edges that leave the place. The path is taken:
/// by the last of these edges it is made longer itself, and copied for each edge before. The one error is
/// want of memory.
pub fn grow(
    alloc: Global,
    graph: &FileGraph,
    path: PartialPath,
    from: Place,
    begun: &mut Vec<PartialPath>,
) -> Result<(), AllocError>
    requires place { IsTrue (has_place (length graph.now.nodes) from) }
    requires may { MayGoOn graph.now path }
    requires onward { GoesOnFrom graph.now (walk_of_rule path) from }
    requires short { IsShort MAX_WEIGHT path }
    requires begun { AllByRecursion (IsShort (MAX_WEIGHT + 1)) begun.old.items }
    ensures longer { OnOk result (AddsLonger graph.now
        (walk_of_rule path) begun.old.items begun.new.items) }
    ensures begun { OnOk result (AllByRecursion (IsShort (MAX_WEIGHT + 1)) begun.new.items) }
{
    let mut left = graph.edges_from(from);
    let Some(mut last) = left.next() else {
        return Ok(());
    };
    for next in left {
        begin_copy(alloc, graph, &path, last, begun)?;
        last = next;
    }
    begin_itself(alloc, graph, path, last, begun)
}

/// As `grow`, from a path that is kept.
pub fn begin_longer(
    alloc: Global,
    graph: &FileGraph,
    path: &PartialPath,
    from: Place,
    begun: &mut Vec<PartialPath>,
) -> Result<(), AllocError>
    requires place { IsTrue (has_place (length graph.now.nodes) from) }
    requires may { MayGoOn graph.now path.now }
    requires onward { GoesOnFrom graph.now (walk_of_rule path.now) from }
    requires short { IsShort MAX_WEIGHT path.now }
    requires begun { AllByRecursion (IsShort (MAX_WEIGHT + 1)) begun.old.items }
    ensures longer { OnOk result (AddsLonger graph.now
        (walk_of_rule path.now) begun.old.items begun.new.items) }
    ensures begun { OnOk result (AllByRecursion (IsShort (MAX_WEIGHT + 1)) begun.new.items) }
{
    for edge in graph.edges_from(from) {
        begin_copy(alloc, graph, path, edge, begun)?;
    }
    Ok(())
}

/// Begins a new path with this edge more, where a walk has it.
fn begin_copy(
    alloc: Global,
    graph: &FileGraph,
    path: &PartialPath,
    edge: u32,
    begun: &mut Vec<PartialPath>,
) -> Result<(), AllocError>
    requires edge { edge < length graph.now.edges }
    requires may { MayGoOn graph.now path.now }
    requires short { IsShort MAX_WEIGHT path.now }
    requires begun { AllByRecursion (IsShort (MAX_WEIGHT + 1)) begun.old.items }
    ensures found { OnOk result (AddsFound graph.now
        (walk_of_rule path.now) edge begun.old.items begun.new.items) }
    ensures begun { OnOk result (AllByRecursion (IsShort (MAX_WEIGHT + 1)) begun.new.items) }
{
    // The start tells that the path is a rule.
    let _ = path.start();
    let Some(longer) = extended(alloc, graph, path, edge)? else {
        return Ok(());
    };
    put(longer, begun)
}

/// As `begin_copy`, of a path that isn't kept: it is made longer itself.
fn begin_itself(
    alloc: Global,
    graph: &FileGraph,
    path: PartialPath,
    edge: u32,
    begun: &mut Vec<PartialPath>,
) -> Result<(), AllocError>
    requires edge { edge < length graph.now.edges }
    requires may { MayGoOn graph.now path }
    requires short { IsShort MAX_WEIGHT path }
    requires begun { AllByRecursion (IsShort (MAX_WEIGHT + 1)) begun.old.items }
    ensures found { OnOk result (AddsFound graph.now
        (walk_of_rule path) edge begun.old.items begun.new.items) }
    ensures begun { OnOk result (AllByRecursion (IsShort (MAX_WEIGHT + 1)) begun.new.items) }
{
    // The start tells that the path is a rule.
    let _ = path.start();
    let Some(longer) = extend(alloc, graph, path, edge)? else {
        return Ok(());
    };
    put(longer, begun)
}

/// Puts the path behind the others. Room is made first, so that the path is moved once and never given back.
pub fn put(path: PartialPath, paths: &mut Vec<PartialPath>) -> Result<(), AllocError>
    ensures { OnOk result (paths.new.items ≡ paths.old.items ++ path ∷ []) }
{
    paths.reserve(1)?;
    paths.push_reserved(path);
    Ok(())
}
