ghost use Rattle.std.specs.{Prelude.{◌≡◌, ◌<◌, ◌+◌, [], length, IfOk, IfSome, OnOk, IsTrue, true, false}, List.{AllByRecursion}};
ghost use Rattle.graph_nodes.specs.{Graph.{has_place, is_reference}, Checked.{is_jump}, Cut.{is_cut}};
ghost use Rattle.graph_nodes.specs.declared.node.Place.TheVariants as place;
ghost use Rattle.partial_path.specs.declared.rule.Start.TheVariants.{After};
ghost use Rattle.path_join.specs.Units.{place_spot};
ghost use Rattle.file_paths.specs.{declared.fault.TheConstants.{MAX_WEIGHT}, Walking.{no_edges}, Finding.{IsShort, AddsLonger, AddsFirst, AreFirstRules, before_node, after_node, starts_after, starts_rooted, all_starts}};

use crate::growing::{grow, put};
use graph_nodes::{FileGraph, Place};
use partial_path::PartialPath;
use path_join::{opening, unit};
use std::alloc::{AllocError, Global};

/// For how many paths room is made at first; for one a node, where the file has fewer nodes.
const FIRST_ROOM: usize = 1_024;

/// The paths of one edge, from each start of the file's walks: after each cut node, after the root and before
/// each reference. They stand in the order of their starts, the greatest first. The one error is want of memory.
pub fn first_paths(alloc: Global, graph: &FileGraph) -> Result<Vec<PartialPath>, AllocError>
    ensures first { IfOk result
        (λ first. AreFirstRules graph.now (all_starts graph.now) first.items) }
    ensures short { IfOk result (λ first. AllByRecursion (IsShort (MAX_WEIGHT + 1)) first.items) }
{
    let room = FIRST_ROOM.min(graph.node_count() as usize);
    let mut first = Vec::with_capacity(alloc, room)?;
    push_afters(alloc, graph, &mut first)?;
    push_units(alloc, graph, Place::Root, &mut first)?;
    push_befores(alloc, graph, &mut first)?;
    Ok(first)
}

/// Adds the paths of one edge from after each cut node, the last node first.
fn push_afters(
    alloc: Global,
    graph: &FileGraph,
    first: &mut Vec<PartialPath>,
) -> Result<(), AllocError>
    requires first { AreFirstRules graph.now [] first.old.items }
    requires short { AllByRecursion (IsShort (MAX_WEIGHT + 1)) first.old.items }
    ensures first { OnOk result (AreFirstRules graph.now
        (starts_after graph.now (length graph.now.nodes)) first.new.items) }
    ensures short { OnOk result (AllByRecursion (IsShort (MAX_WEIGHT + 1)) first.new.items) }
{
    for node in (0..graph.node_count()).rev() {
        push_after(alloc, graph, node, first)?;
    }
    Ok(())
}

/// Adds those from before each reference, the last node first.
fn push_befores(
    alloc: Global,
    graph: &FileGraph,
    first: &mut Vec<PartialPath>,
) -> Result<(), AllocError>
    requires first { AreFirstRules graph.now (starts_rooted graph.now) first.old.items }
    requires short { AllByRecursion (IsShort (MAX_WEIGHT + 1)) first.old.items }
    ensures first { OnOk result (AreFirstRules graph.now (all_starts graph.now) first.new.items) }
    ensures short { OnOk result (AllByRecursion (IsShort (MAX_WEIGHT + 1)) first.new.items) }
{
    for node in (0..graph.node_count()).rev() {
        push_before(alloc, graph, node, first)?;
    }
    Ok(())
}

/// Adds the paths of one edge from before the node, where it is a reference.
fn push_before(
    alloc: Global,
    graph: &FileGraph,
    node: u32,
    first: &mut Vec<PartialPath>,
) -> Result<(), AllocError>
    requires node { node < length graph.now.nodes }
    requires short { AllByRecursion (IsShort (MAX_WEIGHT + 1)) first.old.items }
    ensures first { OnOk result (AddsFirst graph.now (is_reference graph.now.nodes node)
        (before_node node) first.old.items first.new.items) }
    ensures short { OnOk result (AllByRecursion (IsShort (MAX_WEIGHT + 1)) first.new.items) }
{
    if !graph.is_reference(node) {
        return Ok(());
    }
    let opened = opening(alloc, graph, node)?;
    grow(alloc, graph, opened, Place::At(node), first)
}

/// Adds the paths of one edge from after the node, where it is a cut node.
fn push_after(
    alloc: Global,
    graph: &FileGraph,
    node: u32,
    first: &mut Vec<PartialPath>,
) -> Result<(), AllocError>
    requires node { node < length graph.now.nodes }
    requires short { AllByRecursion (IsShort (MAX_WEIGHT + 1)) first.old.items }
    ensures first { OnOk result (AddsFirst graph.now (is_cut graph.now (place.At node))
        (after_node node) first.old.items first.new.items) }
    ensures short { OnOk result (AllByRecursion (IsShort (MAX_WEIGHT + 1)) first.new.items) }
{
    if !graph.is_cut(Place::At(node)) {
        return Ok(());
    }
    push_units(alloc, graph, Place::At(node), first)
}

/// Adds the paths of one edge from after the cut place, by the edges that leave it.
fn push_units(
    alloc: Global,
    graph: &FileGraph,
    from: Place,
    first: &mut Vec<PartialPath>,
) -> Result<(), AllocError>
    requires place { IsTrue (has_place (length graph.now.nodes) from) }
    requires cut { is_cut graph.now from ≡ true }
    requires jump { is_jump from ≡ false }
    requires short { AllByRecursion (IsShort (MAX_WEIGHT + 1)) first.old.items }
    ensures longer { OnOk result (IfSome (place_spot from)
        (λ spot. AddsLonger graph.now (no_edges (After spot)) first.old.items first.new.items)) }
    ensures short { OnOk result (AllByRecursion (IsShort (MAX_WEIGHT + 1)) first.new.items) }
{
    // Tells that the graph is checked.
    graph.node_count();
    for edge in graph.edges_from(from) {
        put(unit(alloc, graph, edge)?, first)?;
    }
    Ok(())
}
