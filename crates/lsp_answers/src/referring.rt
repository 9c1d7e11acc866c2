//! What an editor is told of the references of what stands at a place.
ghost use Rattle.std.specs.{Prelude.{◌≡◌, ◌≢◌, ◌++◌, ◌∷◌, [], List, Err, IfOk, slice_get, if◌then◌else◌}, Option.{option_and_then, option_copied}};
ghost use Rattle.graph_nodes.specs.{declared.node.Node.{Node}, Whole.{node_of}};
ghost use Rattle.nav_answers.specs.{Replies.{graphs_in, number_of, ReferToAny, IsReferencesOfAnyReply}, Sources.{graphs_seen}};
ghost use Rattle.nav_answers.specs.declared.found.AskFault.TheVariants as ask;
ghost use Rattle.nav_answers.specs.declared.found.At.TheVariants as at;
ghost use Rattle.root_index.specs.{Offers.{files_of}, Roots.{IsIndexOfView}};
ghost use Rattle.lsp_answers.specs.{Inside.{row_in, span_in}, Queries.{AreTargets, IsUnion, TellsReferences, TellsTargets, usual}};
ghost use Rattle.lsp_texts.specs.Texts.{texts_in};
ghost use Rattle.version_tree.specs.Graphs.{GraphRow, graph_rows};

use crate::outcomes::{Project, located, outcome_of_fault};
use crate::querying::{Place, definitions};
use graph_nodes::Span;
use lsp_wire::Outcome;
use nav_answers::{AskFault, AskedView, Over, definition_at, references_of_any};
use nav_io::Gate;
use partial_path::{Bounds, FilePaths};
use root_index::RootIndex;
use row_sets::in_order;
use std::alloc::{AllocError, Global};
use std::thread::Threads;
use version_tree::{PathText, Row, Rows, View};

/// What references are asked for: those of what stands at the place, and with them the targets where the declaration is
/// asked for.
#[derive(Drop)]
pub struct ReferencesOf<'a> {
    pub place: &'a Place,
    pub declaration: bool,
}

/// The row of the node in the file with the path; without a span where there is no such node.
fn row_at(alloc: Global, view: &View, path: &str, node: u32) -> Result<Row, AllocError>
    ensures { IfOk result (λ row. row ≡ row_in (graph_rows view.now) path.now node) }
{
    Ok(Row {
        path: PathText::of(alloc, path)?,
        node,
        span: span_at(view, path, node),
    })
}

/// The span of the node, where there is one.
fn span_at(view: &View, path: &str, node: u32) -> Option<Span>
    ensures { result ≡ span_in (graph_rows view.now) path.now node }
{
    match number_of(view, path) {
        Some(file) => span_of(view, file, node),
        None => None,
    }
}

/// The number of the file with the path, by halving; None where it isn't seen.
fn number_of(view: &View, path: &str) -> Option<u32>
    ensures { result ≡ number_of path.now (graph_rows view.now) }
{
    // Called for its clause alone, that the rows stand in order: so a path has one number.
    let _count = view.row_count();
    view.find(path)
}

/// The span of the node of the file, given the graphs as the definition has them.
fn span_of(view: &View, file: u32, node: u32) -> Option<Span>
    ensures { result ≡ option_and_then (λ (n : Node). n.span)
        (node_of (graphs_in (graph_rows view.now)) file node) }
{
    span_seen(view, file, node)
}

/// The same, given the graphs as the view holds them.
fn span_seen(view: &View, file: u32, node: u32) -> Option<Span>
    ensures { result ≡ option_and_then (λ (n : Node). n.span)
        (node_of (graphs_seen view.now) file node) }
{
    let found = file_in(view, file)?;
    found.span(node)
}

/// The file with that number; None where there is none.
fn file_in(view: &View, file: u32) -> Option<&FilePaths>
    ensures { option_copied result ≡ slice_get (files_of view.now) file }
{
    if file < view.row_count() {
        Some(view.paths(file).get())
    } else {
        None
    }
}

/// One row as rows; the one error is want of memory.
fn one_row(alloc: Global, row: Row) -> Result<Rows, AllocError>
    ensures { IfOk result (λ rows. rows ≡ row ∷ []) }
{
    let mut rows = Vec::with_capacity(alloc, 1)?;
    rows.push(row)?;
    Ok(Rows::of(rows))
}

/// What the references are asked of: the definition at the place, and where there is none the definitions of the
/// reference there.
#[tactic(auto, using(crate::proofs::Targets::target_row, crate::proofs::Targets::other_targets))]
fn targets(alloc: Global, view: &View, index: &RootIndex, place: &Place) -> Result<Rows, AskFault>
    requires index { IsIndexOfView index.now view.now }
    ensures { result ≢ Err ask.NoMemory
        → AreTargets (graph_rows view.now)
        place.now.path (at.Point place.now.line place.now.column) result }
{
    let path = place.path.as_str();
    match definition_at(view, path, place.at()) {
        Ok(node) => Ok(one_row(alloc, row_at(alloc, view, path, node)?)?),
        Err(_) => definitions(alloc, view, index, place),
    }
}

/// The references of all the targets, in the usual bounds. All are asked about at once: each reference that is asked lists
/// all its definitions anyway.
fn refer_to_all<R: Threads + Sync, G: Gate + Sync>(
    over: &Over<'_, R, G>,
    seen: &mut AskedView,
    targets: &[Row],
) -> Result<Rows, AskFault>
    requires index { IsIndexOfView over.now.index.now seen.old }
    ensures reply { result ≢ Err ask.NoMemory
        → IsReferencesOfAnyReply usual (graph_rows seen.old) targets.now result }
    ensures same { seen.new ≡ seen.old }
{
    references_of_any(over, seen, targets, Bounds::usual())
}

/// What an editor is told of the references of what stands at the place, and of the targets too where the declaration is
/// asked for. All targets are asked about at once. What was found of the references is kept beside the view. The one
/// error is want of memory.
pub fn tell_references<R: Threads + Sync, G: Gate + Sync>(
    over: &Over<'_, R, G>,
    seen: &mut AskedView,
    project: &Project<'_>,
    asked: &ReferencesOf<'_>,
) -> Result<Outcome, AllocError>
    requires index { IsIndexOfView over.now.index.now seen.old }
    ensures told { IfOk result
        (TellsReferences (graph_rows seen.old) project.now.root.now
        (texts_in project.now.texts.now) asked.now.declaration asked.now.place.now.path
        (at.Point asked.now.place.now.line asked.now.place.now.column)) }
    ensures same { seen.new ≡ seen.old }
{
    match targets(over.alloc, seen.view(), over.index, asked.place) {
        Ok(targets) => {
            let found = refer_to_all(over, seen, targets.items());
            tell_found(over.alloc, project, targets, found, asked.declaration)
        }
        Err(fault) => outcome_of_fault(fault),
    }
}

/// The references of the targets as an editor is told of them, or why there are none. The one error is want of memory.
fn tell_found(
    alloc: Global,
    project: &Project<'_>,
    targets: Rows,
    found: Result<Rows, AskFault>,
    declaration: bool,
) -> Result<Outcome, AllocError>
    ensures { (files : List GraphRow)
        → (found ≢ Err ask.NoMemory → IsReferencesOfAnyReply usual files targets found)
        → IfOk result (TellsTargets files project.now.root.now
        (texts_in project.now.texts.now) targets declaration) }
{
    match found {
        Ok(rows) => tell_all(alloc, project, targets, rows, declaration),
        Err(fault) => outcome_of_fault(fault),
    }
}

/// The references that were found as an editor is told of them: with the targets where the declaration is asked for, each
/// once in file order. The one error is want of memory.
fn tell_all(
    alloc: Global,
    project: &Project<'_>,
    targets: Rows,
    found: Rows,
    declaration: bool,
) -> Result<Outcome, AllocError>
    ensures { (files : List GraphRow) → ReferToAny usual files targets found
        → IfOk result
        (λ outcome. IsUnion files project.now.root.now
        (texts_in project.now.texts.now) targets declaration outcome) }
{
    let rows = in_order(with_targets(found, targets, declaration)?);
    located(alloc, project, &rows)
}

/// The references, and behind them the targets where the declaration is asked for. A target may be a reference too, so the
/// rows have to be put in order.
fn with_targets(found: Rows, targets: Rows, declaration: bool) -> Result<Vec<Row>, AllocError>
    ensures { IfOk result (λ r. r.items ≡ if declaration then found ++ targets else found) }
{
    let mut rows = found.into_items();
    if declaration {
        let mut more = targets.into_items();
        rows.append(&mut more)?;
    }
    Ok(rows)
}
