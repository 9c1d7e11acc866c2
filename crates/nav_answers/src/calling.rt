ghost use Rattle.std.specs.Prelude.{◌≡◌, ◌≢◌, ◌∷◌, [], Err, IfOk, IfSome, IsTrue};
ghost use Rattle.graph_nodes.specs.Whole.{is_definition_of};
ghost use Rattle.version_tree.specs.Graphs.{graph_rows};
ghost use Rattle.root_index.specs.Roots.{IsIndexOfView};
ghost use Rattle.whole_search.specs.Answers.{AreReferences, IsAnyCrowded};
ghost use Rattle.back_stitch.specs.Lists.{usual, AreThoseThatReach};
ghost use Rattle.nav_answers.specs.{Asking.{AreLinksOf}, Callers.{IsCallerReply, IsCallersReply, LeadsCrowded, TellsUnless}, Replies.{graphs_in, hit_of}, Sources.{IsForMany, graphs_seen}};

use crate::asked_view::AskedView;
use crate::asking::Query;
use crate::defining::rows_told;
use crate::found::{AskFault, At, ask_fault};
use crate::meaning::{Asked, meant};
use crate::over::Over;
use crate::parts::Parts;
use crate::referring::{MOST_LINKS, references_to};
use crate::rows::hit_of;
use crate::sharing::ask_all;
use crate::source::{ForMany, ViewSource};
use back_stitch::BackFault;
use nav_io::Gate;
use partial_path::Bounds;
use root_index::RootIndex;
use stacks_vars::NodeAt;
use std::alloc::{AllocError, Global};
use std::thread::Threads;
use version_tree::{Rows, View};
use whole_search::{Hit, in_order};

/// How many references for each file pay for tables of the files. Counted in instructions, the table of numbers takes for
/// a file what it saves for four to seven references.
const MANY_A_FILE: usize = 8;

/// Who refers to the definition that is meant in the file with the path, within the bounds of a query that states none:
/// a row for each reference of the files that are seen that has it among its definitions, in file order. It is `NoFile`
/// where the user sees no file with the path, else `NoDefinition` where there is no such definition, else `Crowded` where
/// too much leads to it, and `NoMemory` where memory is refused. Too much leads to a definition where a reference is
/// crowded from which a bounded complete run leads to it; where more than 8,192 back lists lead to it, where any
/// reference of the files that are seen is crowded.
///
/// So a crowded reference elsewhere refuses nothing, and the time follows what leads to the definition: back lists are
/// joined from the definition on, and each reference that begins one is asked for its definitions, as a job between
/// `enter` and `leave` of the gate, on several threads, as by `references`. What `references` found is taken where it is
/// kept. The first time on a view its paths by where they end are listed on several threads and kept, which follows the
/// files.
pub fn callers<R: Threads + Sync, G: Gate + Sync>(
    over: &Over<'_, R, G>,
    seen: &mut AskedView,
    path: &str,
    at: At,
) -> Result<Rows, AskFault>
    requires { IsIndexOfView over.now.index.now seen.old }
    ensures reply { result ≢ Err AskFault.NoMemory
        → IsCallersReply (graph_rows seen.old) path.now at result }
    ensures same { seen.new ≡ seen.old }
{
    match meant(seen.view(), Asked::Definition, path, at) {
        Ok(node) => callers_of(over, seen, node),
        Err(fault) => Err(fault),
    }
}

/// The same of the definition at a node.
fn callers_of<R: Threads + Sync, G: Gate + Sync>(
    over: &Over<'_, R, G>,
    seen: &mut AskedView,
    node: NodeAt,
) -> Result<Rows, AskFault>
    requires index { IsIndexOfView over.now.index.now seen.old }
    requires definition { IsTrue (is_definition_of (graphs_seen seen.old) node.file node.node) }
    ensures reply { result ≢ Err AskFault.NoMemory
        → IsCallerReply (graph_rows seen.old) node result }
    ensures same { seen.new ≡ seen.old }
{
    if seen.has_each(Bounds::usual()) {
        return rows_of_references(over, seen, node);
    }
    match seen.leading(over.rt, over.alloc, node) {
        Ok(leading) => callers_among(over, seen.view(), node, &leading),
        Err(BackFault::Many) => rows_of_references(over, seen, node),
        Err(BackFault::NoMemory) => Err(AskFault::NoMemory),
    }
}

/// What `references` tells of the definition, without its flag.
fn rows_of_references<R: Threads + Sync, G: Gate + Sync>(
    over: &Over<'_, R, G>,
    seen: &mut AskedView,
    node: NodeAt,
) -> Result<Rows, AskFault>
    requires { IsIndexOfView over.now.index.now seen.old }
    ensures reply { result ≢ Err AskFault.NoMemory
        → TellsUnless (IsAnyCrowded usual (graphs_in (graph_rows seen.old)))
        (graph_rows seen.old) node result }
    ensures same { seen.new ≡ seen.old }
{
    match references_to(over, seen, node, Bounds::usual()) {
        Ok(answer) => Ok(answer.rows),
        Err(fault) => Err(fault),
    }
}

/// Those of the references that lead to the definition which have it among their own, where none of them is crowded.
fn callers_among<R: Threads + Sync, G: Gate + Sync>(
    over: &Over<'_, R, G>,
    view: &View,
    node: NodeAt,
    leading: &[NodeAt],
) -> Result<Rows, AskFault>
    requires index { IsIndexOfView over.now.index.now view.now }
    requires leading { AreThoseThatReach (graphs_seen view.now) node leading.now }
    ensures { result ≢ Err AskFault.NoMemory
        → TellsUnless (LeadsCrowded (graphs_in (graph_rows view.now)) node)
        (graph_rows view.now) node result }
{
    let many = for_so_many(over.alloc, view, over.index, leading.len())?;
    let source = ViewSource::with(view, over.index, many.as_ref());
    let query = Query {
        view,
        source: &source,
        definitions: &[hit_of(node)],
        bounds: Bounds::usual(),
        most: MOST_LINKS,
    };
    match ask_all(over, &query, leading) {
        Ok(parts) => {
            let hits = callers_by(over.alloc, view, node, leading, &parts)?;
            Ok(rows_told(over.alloc, view, &hits)?)
        }
        Err(fault) => Err(ask_fault(fault)),
    }
}

/// What serves look-ups in the view, where so many references are asked that to make it once takes less than to find the
/// number of each path's file as it is met; the one error is want of memory.
fn for_so_many(
    alloc: Global,
    view: &View,
    index: &RootIndex,
    references: usize,
) -> Result<Option<ForMany>, AllocError>
    ensures { IfOk result (λ many. IfSome many (IsForMany view.now index.now)) }
{
    if references / MANY_A_FILE < view.row_count() as usize {
        return Ok(None);
    }
    let many = ForMany::of(alloc, view, index)?;
    Ok(Some(many))
}

/// The references of the definition, in file order, from what was found of those that lead to it; the one error is want
/// of memory.
fn callers_by(
    alloc: Global,
    _view: &View,
    node: NodeAt,
    _leading: &[NodeAt],
    parts: &Parts,
) -> Result<Vec<Hit>, AllocError>
    requires leading { AreThoseThatReach (graphs_seen _view.now) node _leading.now }
    requires parts { AreLinksOf usual (graphs_seen _view.now)
        (hit_of node ∷ []) _leading.now parts.now }
    ensures { IfOk result
        (λ hits. AreReferences usual (graphs_seen _view.now) (hit_of node) hits.items) }
{
    let rows = parts.rows_of_any(alloc, &[hit_of(node)])?;
    Ok(in_order(rows))
}
