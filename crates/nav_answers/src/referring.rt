ghost use Rattle.std.specs.Prelude.{◌≡◌, ◌≢◌, Contains, Err, IfOk, OnErr};
ghost use Rattle.version_tree.specs.Graphs.{graph_rows};
ghost use Rattle.root_index.specs.Roots.{IsIndexOfView};
ghost use Rattle.whole_search.specs.{declared.found.Hit.{Hit}, Answers.{AreRows, IsAnyCrowded}};
ghost use Rattle.nav_answers.specs.{Asking.{AreLinksOf, HasReferences, IsHeld, IsKnownOf, IsReferenceOfAny, IsReplyToAny, IsTable, references_from}, Replies.{graphs_in, IsReferenceReply, IsReferencesReply}, Sources.{graphs_seen}};

use crate::asked_view::{AskedView, Known, Told};
use crate::asking::Query;
use crate::defining::answer_of;
use crate::found::{AskFault, At};
use crate::listing::all_references;
use crate::meaning::{Asked, meant};
use crate::over::Over;
use crate::parts::Parts;
use crate::rows::hit_of;
use crate::sharing::ask_all;
use crate::source::{ForMany, ViewSource};
use nav_io::Gate;
use partial_path::Bounds;
use stacks_vars::NodeAt;
use std::alloc::{AllocError, Global};
use std::thread::Threads;
use stitcher::StitchFault;
use version_tree::{Answer, View};
use whole_search::{Found, Hit, Hits, in_order};

/// How many links there may be to definitions that aren't meant. A link has 16 bytes, so these have 32 MB.
pub const MOST_LINKS: usize = 2_097_152;

/// Who refers to the definition that is meant in the file with the path: a row for each reference of the files that
/// are seen that has it among its definitions, in file order, and whether a run of any reference of the files was
/// left out for its length or depth. The definition is the one at the position, or the first whose span has the
/// point. It is `NoFile` where the user sees no file with the path, else `NoDefinition` where there is no such
/// definition, else `Crowded` where some reference of the files that are seen has too many runs, whatever it leads
/// to, and `NoMemory` where memory is refused. Only the files that are seen, the path, the place and the bounds
/// decide the answer.
///
/// The first time each reference of the files is asked once, as a job between `enter` and `leave` of the gate, with its
/// place among them as its number. They are asked on twice as many threads as the machine has processors, on one where
/// that has one, at most eight and no more than there are references; where a thread can't be made, the caller does its
/// work. Which thread is the first to end decides nothing. Before, a handle of each file is taken, and the number of its
/// file in the view is found for each path from the root, and where each key's paths begin is noted, which takes eight
/// bytes a file and some fifty a path until all are asked. What was found is kept beside the view. The next time, of whatever definition, nothing is asked where the bounds
/// are the same ones: the definition's references are found by halving, and the time follows their number. Where the
/// bounds are others, all are asked again, and only the last is kept. Where memory is refused while they are asked,
/// nothing is kept. Where the references have more than some 2,097,152 definitions in all, those that aren't meant are let
/// go meanwhile, and nothing is kept either.
pub fn references<R: Threads + Sync, G: Gate + Sync>(
    over: &Over<'_, R, G>,
    seen: &mut AskedView,
    path: &str,
    at: At,
    bounds: Bounds,
) -> Result<Answer, AskFault>
    requires { IsIndexOfView over.now.index.now seen.old }
    ensures reply { result ≢ Err AskFault.NoMemory
        → IsReferencesReply bounds (graph_rows seen.old) path.now at result }
    ensures same { seen.new ≡ seen.old }
{
    match meant(seen.view(), Asked::Definition, path, at) {
        Ok(node) => references_to(over, seen, node, bounds),
        Err(fault) => Err(fault),
    }
}

/// The same of the definition at a node.
pub fn references_to<R: Threads + Sync, G: Gate + Sync>(
    over: &Over<'_, R, G>,
    seen: &mut AskedView,
    node: NodeAt,
    bounds: Bounds,
) -> Result<Answer, AskFault>
    requires { IsIndexOfView over.now.index.now seen.old }
    ensures reply { result ≢ Err AskFault.NoMemory
        → IsReferenceReply bounds (graph_rows seen.old) node result }
    ensures same { seen.new ≡ seen.old }
{
    references_to_any(over, seen, &[hit_of(node)], bounds)
}

/// The answer that tells of the references of these definitions, from what is kept of all references, or else from what
/// is found of them, which is then kept.
pub fn references_to_any<R: Threads + Sync, G: Gate + Sync>(
    over: &Over<'_, R, G>,
    seen: &mut AskedView,
    definitions: &[Hit],
    bounds: Bounds,
) -> Result<Answer, AskFault>
    requires { IsIndexOfView over.now.index.now seen.old }
    ensures reply { result ≢ Err AskFault.NoMemory
        → IsReplyToAny bounds (graph_rows seen.old) definitions.now result }
    ensures each { IfOk result (λ _. (definition : Hit) → Contains definitions.now definition
        → HasReferences bounds (graphs_in (graph_rows seen.old)) definition) }
    ensures same { seen.new ≡ seen.old }
{
    let known = known_of(over, seen, definitions, bounds)?;
    let found = answer_from(over.alloc, seen.view(), &known, definitions);
    seen.keep_known(known, definitions);
    found
}

/// What is kept of the references, or else what is found of them for these definitions; the one error is want of memory.
fn known_of<R: Threads + Sync, G: Gate + Sync>(
    over: &Over<'_, R, G>,
    seen: &mut AskedView,
    definitions: &[Hit],
    bounds: Bounds,
) -> Result<Known, AllocError>
    requires { IsIndexOfView over.now.index.now seen.old }
    ensures known { IfOk result (IsKnownOf (graphs_seen seen.old) definitions.now) }
    ensures bounds { IfOk result (λ known. known.bounds ≡ bounds) }
    ensures same { seen.new ≡ seen.old }
{
    match seen.take_known(bounds) {
        Some(known) => Ok(known),
        None => {
            let many = ForMany::of(over.alloc, seen.view(), over.index)?;
            let source = ViewSource::with(seen.view(), over.index, Some(&many));
            let query = Query {
                view: seen.view(),
                source: &source,
                definitions,
                bounds,
                most: MOST_LINKS,
            };
            find_all(over, &query)
        }
    }
}

/// What is found of all references of the files that are seen; the one error is want of memory.
fn find_all<R: Threads + Sync, G: Gate + Sync>(
    over: &Over<'_, R, G>,
    query: &Query,
) -> Result<Known, AllocError>
    requires { query.now.source.now.rows ≡ query.now.view.now }
    ensures known { IfOk result
        (IsKnownOf (graphs_seen query.now.view.now) query.now.definitions.now) }
    ensures bounds { IfOk result (λ known. known.bounds ≡ query.now.bounds) }
{
    let bounds = query.bounds;
    match links_of_all(over, query) {
        Ok(parts) => Ok(Known {
            bounds,
            told: Told::Each(parts),
        }),
        Err(fault) => Ok(Known {
            bounds,
            told: told_of(fault)?,
        }),
    }
}

/// What is known of references that aren't told, for this fault; the one error is want of memory.
fn told_of(fault: StitchFault) -> Result<Told, AllocError>
    ensures told { IfOk result (λ told. told ≡ Told.Crowded) }
    ensures definite { IfOk result (λ _. fault ≡ StitchFault.Crowded) }
    ensures memory { OnErr result (fault ≡ StitchFault.NoMemory) }
{
    match fault {
        StitchFault::Crowded => Ok(Told::Crowded),
        StitchFault::NoMemory => Err(AllocError),
    }
}

/// All references of the files that are seen, each with each of its definitions.
fn links_of_all<R: Threads + Sync, G: Gate + Sync>(
    over: &Over<'_, R, G>,
    query: &Query,
) -> Result<Parts, StitchFault>
    requires { query.now.source.now.rows ≡ query.now.view.now }
    ensures found { IfOk result
        (λ parts. AreLinksOf query.now.bounds
        (graphs_seen query.now.view.now) query.now.definitions.now
        (references_from 0 (graphs_seen query.now.view.now)) parts) }
    ensures crowded { result ≡ Err StitchFault.Crowded
        → IsAnyCrowded query.now.bounds (graphs_seen query.now.view.now) }
{
    let all = all_references(over.alloc, query.view)?;
    ask_all(over, query, &all)
}

/// The answer that tells of the references of the definitions, from what was found of all references.
fn answer_from(
    alloc: Global,
    view: &View,
    known: &Known,
    definitions: &[Hit],
) -> Result<Answer, AskFault>
    requires { IsKnownOf (graphs_seen view.now) definitions.now known.now }
    ensures reply { result ≢ Err AskFault.NoMemory
        → IsReplyToAny known.now.bounds (graph_rows view.now) definitions.now result }
    ensures each { IfOk result (λ _. (definition : Hit) → Contains definitions.now definition
        → HasReferences known.now.bounds (graphs_in (graph_rows view.now)) definition) }
{
    match &known.told {
        Told::Each(parts) => answer_by(alloc, view, known.bounds, parts, definitions),
        Told::Crowded => Err(AskFault::Crowded),
    }
}

/// The same from the links of all references.
fn answer_by(
    alloc: Global,
    view: &View,
    bounds: Bounds,
    parts: &Parts,
    definitions: &[Hit],
) -> Result<Answer, AskFault>
    requires { IsTable bounds (graphs_seen view.now)
        (IsHeld parts.now.whole definitions.now) parts.now.list parts.now.limit }
    ensures reply { result ≢ Err AskFault.NoMemory
        → IsReplyToAny bounds (graph_rows view.now) definitions.now result }
    ensures each { IfOk result (λ _. (definition : Hit) → Contains definitions.now definition
        → HasReferences bounds (graphs_in (graph_rows view.now)) definition) }
{
    let rows = rows_from(alloc, view, bounds, parts, definitions)?;
    let found = Found {
        rows,
        limit: parts.limit(),
    };
    let answer = answer_of(alloc, view, &found)?;
    Ok(answer)
}

/// The references of the definitions, in file order; the one error is want of memory.
fn rows_from(
    alloc: Global,
    _view: &View,
    _bounds: Bounds,
    parts: &Parts,
    definitions: &[Hit],
) -> Result<Hits, AllocError>
    requires { IsTable _bounds (graphs_seen _view.now)
        (IsHeld parts.now.whole definitions.now) parts.now.list parts.now.limit }
    ensures { IfOk result
        (λ rows. AreRows (IsReferenceOfAny _bounds (graphs_seen _view.now) definitions.now) rows) }
{
    let rows = parts.rows_of_any(alloc, definitions)?;
    Ok(Hits::of(in_order(rows)))
}
