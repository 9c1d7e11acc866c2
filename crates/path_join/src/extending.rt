//! Paths made longer by an edge, in place where they end at its source.

ghost use Rattle.std.specs.Prelude.{◌≡◌, ◌<◌, ◌+◌, ◌^◌, length, IfOk, IsTrue, true};
ghost use Rattle.graph_nodes.specs.Graph.{has_place};
ghost use Rattle.partial_path.specs.Rules.{IsRule};
ghost use Rattle.path_join.specs.{Units.{edge_alone, place_end, place_action}, Extended.{IsExtended, rule_apart, rule_if}, Extending.{longer_peak, extended_by}};

use crate::copying::copied;
use crate::entering::passing;
use crate::joining::{can_end, join};
use crate::sides::place_entered;
use crate::units::{edge_of, spot_of, unit};
use graph_nodes::{FileGraph, Place};
use partial_path::{EdgeAt, End, PartialPath, PathParts, Spot, Start};
use stacks_vars::{NodeAt, Post, Pre};
use std::alloc::{AllocError, Global};
use std::mem;

/// The path with an edge of its file more: the join of the path with the edge's unit, or `None` where no
/// configuration passes both. The one error is want of memory, and the path is gone with it. Where the path
/// ends at the edge's source it is made longer in place: its own vectors may grow, and nothing is copied but
/// a scope stack that is attached to a pushed symbol. Else it costs what a join costs.
pub fn extend(
    alloc: Global,
    graph: &FileGraph,
    path: PartialPath,
    edge: u32,
) -> Result<Option<PartialPath>, AllocError>
    requires edge { edge < length graph.now.edges }
    requires edges { length path.edges + 1 < 2 ^ 32 }
    requires peak { path.peak + 1 < 2 ^ 32 }
    ensures { IfOk result (IsExtended graph.now path edge) }
{
    let mut parts = path.into_parts();
    if !extend_in_place(alloc, graph, &mut parts, edge)? {
        return Ok(None);
    }
    Ok(Some(whole(parts)))
}

/// As `extend`, of a path that is kept: a new path, which shares its symbols. Where the path ends at the edge's
/// source it costs the size of the path, which is copied and then made longer; else it costs a join besides.
pub fn extended(
    alloc: Global,
    graph: &FileGraph,
    path: &PartialPath,
    edge: u32,
) -> Result<Option<PartialPath>, AllocError>
    requires edge { edge < length graph.now.edges }
    requires edges { length path.now.edges + 1 < 2 ^ 32 }
    requires peak { path.now.peak + 1 < 2 ^ 32 }
    ensures { IfOk result (IsExtended graph.now path.now edge) }
{
    let mut parts = copied(alloc, path)?;
    if !extend_in_place(alloc, graph, &mut parts, edge)? {
        return Ok(None);
    }
    Ok(Some(whole(parts)))
}

/// As `extend`, of a path that is taken apart, which is made longer where it lies; false where no
/// configuration passes both. Nothing is said of its parts then, nor where memory is refused.
pub fn extend_in_place(
    alloc: Global,
    graph: &FileGraph,
    parts: &mut PathParts,
    edge: u32,
) -> Result<bool, AllocError>
    requires edge { edge < length graph.now.edges }
    requires rule { IsRule (rule_apart parts.old) }
    requires edges { length parts.old.edges.items + 1 < 2 ^ 32 }
    requires peak { parts.old.peak + 1 < 2 ^ 32 }
    ensures rule { IfOk result (λ longer. longer ≡ true → IsRule (rule_apart parts.new)) }
    ensures extended { IfOk result
        (λ longer. IsExtended graph.now (rule_apart parts.old) edge (rule_if longer parts.new)) }
{
    let found = edge_of(graph, edge);
    let source = spot_of(found.source);
    match parts.end {
        End::At(spot) if spot.same(source) => enter(alloc, graph, parts, found.sink, edge),
        End::At(_) | End::ByStack => extend_anew(alloc, graph, parts, edge),
    }
}

/// The path of these parts. It takes no memory and constant time.
pub fn whole(parts: PathParts) -> PartialPath
    requires { IsRule (rule_apart parts) }
    ensures { result ≡ rule_apart parts }
{
    let PathParts {
        start,
        end,
        pre,
        post,
        peak,
        edges,
    } = parts;
    PartialPath::of(start, end, pre, post, peak, edges)
}

/// As `extend_in_place`, wherever the path ends: the parts become those of the join with the edge's unit.
fn extend_anew(
    alloc: Global,
    graph: &FileGraph,
    parts: &mut PathParts,
    edge: u32,
) -> Result<bool, AllocError>
    requires edge { edge < length graph.now.edges }
    requires rule { IsRule (rule_apart parts.old) }
    requires edges { length parts.old.edges.items + 1 < 2 ^ 32 }
    requires peak { parts.old.peak + 1 < 2 ^ 32 }
    ensures rule { IfOk result (λ longer. longer ≡ true → IsRule (rule_apart parts.new)) }
    ensures extended { IfOk result
        (λ longer. IsExtended graph.now (rule_apart parts.old) edge (rule_if longer parts.new)) }
{
    let none = passing(
        alloc,
        Start::After(Spot::Root),
        End::At(Spot::Root),
        Vec::new(alloc),
    );
    let path = whole(mem::replace(parts, none.into_parts()));
    let step = unit(alloc, graph, edge)?;
    // Each start tells that its path is a rule.
    let _ = (path.start(), step.start());
    let Some(longer) = join(alloc, &path, &step)? else {
        return Ok(false);
    };
    *parts = longer.into_parts();
    Ok(true)
}

/// The path goes on from its end by the edge to this sink; false where entry is refused, or it can't end so.
fn enter(
    alloc: Global,
    graph: &FileGraph,
    parts: &mut PathParts,
    sink: Place,
    edge: u32,
) -> Result<bool, AllocError>
    requires there { IsTrue (has_place (length graph.now.nodes) sink) }
    requires rule { IsRule (rule_apart parts.old) }
    requires peak { parts.old.peak + 1 < 2 ^ 32 }
    ensures { IfOk result (λ longer. rule_if longer parts.new
        ≡ extended_by (rule_apart parts.old) (place_action graph.now sink) (place_end sink)
        (edge_alone edge)) }
{
    let asked = parts.pre.symbols.len();
    if !place_entered(alloc, graph, sink, &mut parts.pre, &mut parts.post)? {
        return Ok(false);
    }
    let end = end_of(sink);
    if !can_end(end, &parts.post.scopes) {
        return Ok(false);
    }
    parts.end = end;
    parts.peak = longer_peak(parts.peak, asked, &parts.pre, &parts.post);
    parts.edges.push(EdgeAt { file: 0, edge })?;
    Ok(true)
}

/// Where a path ends that enters the place of a file that stands alone.
fn end_of(place: Place) -> End
    ensures { result ≡ place_end place }
{
    match place {
        Place::Root => End::At(Spot::Root),
        Place::Jump => End::ByStack,
        Place::At(node) => End::At(Spot::At(NodeAt { file: 0, node })),
    }
}

/// The peak of a path that then asks for and makes these, where it asked for so many symbols.
fn longer_peak(peak: u32, asked: usize, pre: &Pre, post: &Post) -> u32
    requires { longer_peak peak asked pre.now post.now < 2 ^ 32 }
    ensures { result ≡ longer_peak peak asked pre.now post.now }
{
    let more = pre.symbols.len().saturating_sub(asked);
    (peak as usize + more).max(post.symbols.len()) as u32
}
