//! The two queries of an editor, over the version that is pinned.
ghost use Rattle.std.specs.Prelude.{◌≤◌, length, IfOk};
ghost use Rattle.lsp_answers.specs.Queries.{IsPlaced, TellsDefinitions, TellsReferences};
ghost use Rattle.lsp_texts.specs.Texts.{texts_in};
ghost use Rattle.nav_lsp.specs.{Editing.{files_of}, Held.{HoldsAll, IsReady}};

use crate::editor::Editor;
use lsp_answers::{ReferencesOf, place_of, tell_definitions, tell_references};
use lsp_wire::{Outcome, Position};
use nav_answers::Over;
use nav_io::Gate;
use nav_session::Means;
use std::alloc::{AllocError, Global};
use std::thread::Threads;
use version_board::Pins;

/// What the request for definitions is told, over the version that is pinned. The one error is want of memory.
pub(crate) fn definition<B: Pins>(
    alloc: Global,
    editor: &mut Editor,
    board: &B,
    uri: &str,
    at: Position,
) -> Result<Outcome, AllocError>
    requires ready { IsReady editor.old (B.log board.now) (B.pin_at board.now) }
    ensures outcome { IfOk result (IsPlaced editor.old.root.items
        (texts_in editor.old.texts) uri.now at
        (TellsDefinitions (files_of (B.log board.now) (B.pin_at board.now)) editor.old.root.items
        (texts_in editor.old.texts))) }
    ensures pinned { B.pin_at board.now ≤ length (B.log board.now) }
    ensures holds { HoldsAll editor.old editor.new }
    ensures ready { IfOk result (λ _. IsReady editor.new (B.log board.now) (B.pin_at board.now)) }
{
    let pinned = board.pinned();
    let Some(place) = place_of(alloc, &editor.project(), uri, at)? else {
        return Ok(Outcome::Null);
    };
    let view = editor.take_view(alloc, &pinned.version)?;
    let outcome = tell_definitions(alloc, view.view(), &pinned.index, &editor.project(), &place)?;
    editor.keep_view(view);
    Ok(outcome)
}

/// What the request for references is told, over the version that is pinned. The one error is want of memory.
pub(crate) fn reference<R: Threads + Sync, B: Pins, G: Gate + Sync>(
    means: &Means<'_, R, G>,
    editor: &mut Editor,
    board: &B,
    uri: &str,
    at: Position,
    declaration: bool,
) -> Result<Outcome, AllocError>
    requires ready { IsReady editor.old (B.log board.now) (B.pin_at board.now) }
    ensures outcome { IfOk result (IsPlaced editor.old.root.items
        (texts_in editor.old.texts) uri.now at
        (TellsReferences (files_of (B.log board.now) (B.pin_at board.now)) editor.old.root.items
        (texts_in editor.old.texts) declaration)) }
    ensures pinned { B.pin_at board.now ≤ length (B.log board.now) }
    ensures holds { HoldsAll editor.old editor.new }
    ensures ready { IfOk result (λ _. IsReady editor.new (B.log board.now) (B.pin_at board.now)) }
{
    let Means { rt, alloc, gate } = *means;
    let pinned = board.pinned();
    let Some(place) = place_of(alloc, &editor.project(), uri, at)? else {
        return Ok(Outcome::Null);
    };
    let mut view = editor.take_view(alloc, &pinned.version)?;
    let asked = ReferencesOf {
        place: &place,
        declaration,
    };
    let over = Over {
        rt,
        alloc,
        index: &pinned.index,
        gate,
    };
    let outcome = tell_references(&over, &mut view, &editor.project(), &asked)?;
    editor.keep_view(view);
    Ok(outcome)
}
