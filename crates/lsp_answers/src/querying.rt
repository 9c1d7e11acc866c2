//! What an editor is told of the definitions of what stands at a place.
ghost use Rattle.std.specs.Prelude.{◌≡◌, ◌≢◌, Err, IfOk, IfSome};
ghost use Rattle.lsp_texts.specs.Texts.{texts_in};
ghost use Rattle.nav_answers.specs.Replies.{IsDefineReply};
ghost use Rattle.nav_answers.specs.declared.found.AskFault.TheVariants as ask;
ghost use Rattle.nav_answers.specs.declared.found.At.TheVariants as at;
ghost use Rattle.root_index.specs.Roots.{IsIndexOfView};
ghost use Rattle.version_tree.specs.Graphs.{graph_rows};
ghost use Rattle.lsp_answers.specs.{Placing.{IsPlace}, Queries.{AreDefinitions, TellsDefinitions, usual}};

use crate::outcomes::{Project, located, outcome_of_fault};
use crate::paths::path_under;
use lsp_wire::{Outcome, Position};
use nav_answers::{AskFault, At, define};
use partial_path::Bounds;
use root_index::RootIndex;
use std::alloc::{AllocError, Global};
use version_tree::{Answer, PathText, Rows, View};

/// A place in a text of the project, by its path, its line and its column in bytes.
#[derive(Drop)]
pub struct Place {
    pub path: PathText,
    pub line: u32,
    pub column: u32,
}

impl Place {
    /// Where a query stands.
    pub(crate) fn at(&self) -> At
        ensures { result ≡ at.Point self.now.line self.now.column }
    {
        At::Point(self.line, self.column)
    }
}

/// The place that an editor names; none where the document isn't inside, no text of it was accepted, or that has no such
/// line. The one error is want of memory.
pub fn place_of(
    alloc: Global,
    project: &Project<'_>,
    uri: &str,
    position: Position,
) -> Result<Option<Place>, AllocError>
    ensures { IfOk result (λ place. IsPlace project.now.root.now
        (texts_in project.now.texts.now) uri.now position place) }
{
    let Some(path) = path_under(alloc, project.root, uri)? else {
        return Ok(None);
    };
    let Some(text) = project.texts.at(path.as_str()) else {
        return Ok(None);
    };
    let line = position.line;
    match text.column(line, position.character) {
        Some(column) => Ok(Some(Place { path, line, column })),
        None => Ok(None),
    }
}

/// What `define` answers at the place, in the usual bounds: the protocol has no word for others.
fn define_at(
    alloc: Global,
    view: &View,
    index: &RootIndex,
    place: &Place,
) -> Result<Answer, AskFault>
    requires index { IsIndexOfView index.now view.now }
    ensures { result ≢ Err ask.NoMemory
        → IsDefineReply usual (graph_rows view.now)
        place.now.path (at.Point place.now.line place.now.column) result }
{
    define(
        alloc,
        view,
        index,
        place.path.as_str(),
        place.at(),
        Bounds::usual(),
    )
}

/// The definitions of the reference at the place, as rows. Whether a run was left out isn't told: the protocol has no
/// word for it.
pub(crate) fn definitions(
    alloc: Global,
    view: &View,
    index: &RootIndex,
    place: &Place,
) -> Result<Rows, AskFault>
    requires index { IsIndexOfView index.now view.now }
    ensures { result ≢ Err ask.NoMemory
        → AreDefinitions (graph_rows view.now)
        place.now.path (at.Point place.now.line place.now.column) result }
{
    match define_at(alloc, view, index, place) {
        Ok(answer) => Ok(answer.rows),
        Err(fault) => Err(fault),
    }
}

/// What an editor is told of the definitions of the reference at the place. The one error is want of memory.
pub fn tell_definitions(
    alloc: Global,
    view: &View,
    index: &RootIndex,
    project: &Project<'_>,
    place: &Place,
) -> Result<Outcome, AllocError>
    requires index { IsIndexOfView index.now view.now }
    ensures { IfOk result (TellsDefinitions (graph_rows view.now) project.now.root.now
        (texts_in project.now.texts.now)
        place.now.path (at.Point place.now.line place.now.column)) }
{
    match definitions(alloc, view, index, place) {
        Ok(rows) => located(alloc, project, rows.items()),
        Err(fault) => outcome_of_fault(fault),
    }
}
