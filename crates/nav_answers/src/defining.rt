ghost use Rattle.std.specs.{Prelude.{◌≡◌, ◌≢◌, ◌↔◌, [], map, Ok, Err, IfOk, OnOk, IsTrue, IsSomeAnd, slice_get}, Option.{option_and_then, option_map_or}};
ghost use Rattle.graph_nodes.specs.Whole.{is_reference_of, node_of};
ghost use Rattle.partial_path.specs.{Step.{start}, Counted.{IsCrowded, HasLimit}};
ghost use Rattle.version_tree.specs.Graphs.{GraphRow, graph_rows};
ghost use Rattle.root_index.specs.Roots.{IsIndexOfView};
ghost use Rattle.whole_search.specs.Answers.{AreDefinitions};
ghost use Rattle.nav_answers.specs.{Replies.{IsDefineReply, IsDefinitionReply, row_of}, Sources.{graphs_seen}};

use crate::found::{AskFault, At, ask_fault};
use crate::meaning::{Asked, meant};
use crate::rows::rows_of;
use crate::source::ViewSource;
use end_index::file_in;
use graph_nodes::Span;
use partial_path::Bounds;
use root_index::RootIndex;
use stacks_vars::NodeAt;
use std::alloc::{AllocError, Global};
use stitcher::{Room, StitchFault, stitch};
use version_tree::{Answer, PathText, Row, Rows, View};
use whole_search::{Found, Hit, Hits};

/// Where the reference that is meant in the file with the path is defined: a row for each definition, in file order,
/// and whether a run was left out for its length or depth. The reference is the one at the position, or the first
/// whose span has the point. It is `NoFile` where the user sees no file with the path, else `NoReference` where there
/// is no such reference, else `Crowded` where the reference has too many runs, and `NoMemory` where memory is
/// refused. Only the files that are seen, the path, the place and the bounds decide the answer.
///
/// The file is found by halving, and a point is looked for among all nodes of the file. Then the time follows the
/// stored paths that are offered where runs of the reference go, and not the number of files.
pub fn define(
    alloc: Global,
    view: &View,
    index: &RootIndex,
    path: &str,
    at: At,
    bounds: Bounds,
) -> Result<Answer, AskFault>
    requires { IsIndexOfView index.now view.now }
    ensures { result ≢ Err AskFault.NoMemory
        → IsDefineReply bounds (graph_rows view.now) path.now at result }
{
    match meant(view, Asked::Reference, path, at) {
        Ok(node) => define_node(alloc, view, index, node, bounds),
        Err(fault) => Err(fault),
    }
}

/// The same of the reference at a node.
fn define_node(
    alloc: Global,
    view: &View,
    index: &RootIndex,
    node: NodeAt,
    bounds: Bounds,
) -> Result<Answer, AskFault>
    requires index { IsIndexOfView index.now view.now }
    requires reference { IsTrue (is_reference_of (graphs_seen view.now) node.file node.node) }
    ensures { result ≢ Err AskFault.NoMemory
        → IsDefinitionReply bounds (graph_rows view.now) node result }
{
    match definitions_of(alloc, view, index, node, bounds) {
        Ok(found) => Ok(answer_of(alloc, view, &found)?),
        Err(fault) => Err(ask_fault(fault)),
    }
}

/// The definitions of a reference of the files that are seen.
pub fn definitions_of<'x>(
    alloc: Global,
    view: &'x View,
    index: &'x RootIndex,
    node: NodeAt,
    bounds: Bounds,
) -> Result<Found, StitchFault>
    requires index { IsIndexOfView index.now view.now }
    requires reference { IsTrue (is_reference_of (graphs_seen view.now) node.file node.node) }
    ensures rows { IfOk result (λ found. IsSomeAnd (start (graphs_seen view.now) node)
        (λ c. AreDefinitions bounds (graphs_seen view.now) c found.rows)) }
    ensures limit { IfOk result (λ found. IsSomeAnd (start (graphs_seen view.now) node)
        (λ c. IsTrue found.limit ↔ HasLimit bounds (graphs_seen view.now) c)) }
    ensures crowded { result ≡ Err StitchFault.Crowded
        → IsSomeAnd (start (graphs_seen view.now) node) (IsCrowded bounds (graphs_seen view.now)) }
    ensures not_crowded { OnOk result (IsSomeAnd (start (graphs_seen view.now) node)
        (λ c. ¬ IsCrowded bounds (graphs_seen view.now) c)) }
{
    let source = ViewSource::of(view, index);
    let mut room = Room::new(alloc);
    definitions_by(&mut room, &source, node, bounds)
}

/// The same by a source that serves many references, in room that serves them all.
pub fn definitions_by<'a>(
    room: &mut Room<'a>,
    source: &'a ViewSource<'_>,
    node: NodeAt,
    bounds: Bounds,
) -> Result<Found, StitchFault>
    requires reference { IsTrue
        (is_reference_of (graphs_seen source.now.rows) node.file node.node) }
    ensures rows { IfOk result (λ found. IsSomeAnd (start (graphs_seen source.now.rows) node)
        (λ c. AreDefinitions bounds (graphs_seen source.now.rows) c found.rows)) }
    ensures limit { IfOk result (λ found. IsSomeAnd (start (graphs_seen source.now.rows) node)
        (λ c. IsTrue found.limit ↔ HasLimit bounds (graphs_seen source.now.rows) c)) }
    ensures crowded { result ≡ Err StitchFault.Crowded
        → IsSomeAnd (start (graphs_seen source.now.rows) node)
        (IsCrowded bounds (graphs_seen source.now.rows)) }
    ensures not_crowded { OnOk result (IsSomeAnd (start (graphs_seen source.now.rows) node)
        (λ c. ¬ IsCrowded bounds (graphs_seen source.now.rows) c)) }
{
    let found = stitch(room, source, node.file, node.node, bounds)?;
    let rows = rows_of(room.alloc(), source.view(), &found.complete)?;
    room.give_back(found.complete);
    Ok(Found {
        rows: Hits::of(rows),
        limit: found.limit,
    })
}

/// The answer that tells of these nodes; the one error is want of memory.
pub fn answer_of(alloc: Global, view: &View, found: &Found) -> Result<Answer, AllocError>
    ensures rows { IfOk result (λ answer. answer.rows
        ≡ map (row_of (graph_rows view.now)) found.now.rows) }
    ensures limit { IfOk result (λ answer. answer.limit ≡ found.now.limit) }
{
    Ok(Answer {
        limit: found.limit,
        rows: rows_told(alloc, view, found.rows.items())?,
    })
}

/// The rows that tell of these nodes; the one error is want of memory.
pub fn rows_told(alloc: Global, view: &View, hits: &[Hit]) -> Result<Rows, AllocError>
    ensures { IfOk result (λ rows. rows ≡ map (row_of (graph_rows view.now)) hits.now) }
{
    let mut rows = Vec::with_capacity(alloc, hits.len())?;
    for hit in hits {
        rows.push(row_of(alloc, view, *hit)?)?;
    }
    Ok(Rows::of(rows))
}

/// The row that tells of the node.
fn row_of(alloc: Global, view: &View, hit: Hit) -> Result<Row, AllocError>
    ensures { IfOk result (λ row. row ≡ row_of (graph_rows view.now) hit) }
{
    Ok(Row {
        path: PathText::of(alloc, path_of(view, hit.file))?,
        node: hit.node,
        span: span_of(view, hit),
    })
}

/// The path of the file with that number; empty where there is none.
fn path_of(view: &View, file: u32) -> &str
    ensures { result.now ≡ option_map_or
        (λ (row : GraphRow). row.path) (slice_get (graph_rows view.now) file) [] }
{
    if file < view.row_count() {
        view.path(file)
    } else {
        ""
    }
}

/// The span of the node; None where there is none.
fn span_of(view: &View, hit: Hit) -> Option<Span>
    ensures { result ≡ option_and_then
        (λ node. node.span) (node_of (graphs_seen view.now) hit.file hit.node) }
{
    let file = file_in(view, hit.file as usize)?;
    file.span(hit.node)
}
