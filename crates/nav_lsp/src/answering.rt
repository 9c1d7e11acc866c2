//! One message of an editor answered.
ghost use Rattle.std.specs.Prelude.{◌≡◌, length, IfOk, None, Some};
ghost use Rattle.lsp_wire.specs.{declared.message.Id.{Id as Name}, Uris.{root_of}};
ghost use Rattle.nav_lsp.specs.{Held.{ComesOf, IsReady, editing_at}, Replies.{IsCarriedOut, IsMessage, IsNoted, IsNotified, IsReplied, IsRequested, refusal_of, refused, replied}};

use crate::committing::{change, close, put};
use crate::editor::Editor;
use crate::phase::Phase;
use crate::querying::{definition, reference};
use crate::refusals::refusal_of;
use graph_nodes::Steps;
use lsp_wire::{Asks, Body, Id, Message, Outcome, Refusal, Reply, Text, root_of};
use nav_io::Gate;
use nav_session::Means;
use std::alloc::{AllocError, Global};
use std::sync::ledger::Ledger;
use std::thread::Threads;
use version_board::{Commits, Pins};

/// What a message of an editor is replied, at the board of its seat, or None where it has no reply.
///
/// A request is refused by the first of these: `parse error`; `invalid request`, where the body is no message, after
/// `shutdown`, and for a second `initialize`; `not initialized`; `method not found`; `invalid params`. Else it is carried
/// out. A notification has no reply; a text that is opened or changed is committed, and a document that is closed is
/// removed, where it is inside.
///
/// The one error is want of memory: then no entry of the message is in the log, and the editor isn't meant to be used
/// again.
///
/// A change costs by the text that it brings. The first query after it looks at all files of the version once; an answer
/// costs by its rows, each of which costs by the lengths of its path and of two lines.
pub fn answer_message<R: Threads + Sync, B: Commits<R>, G: Gate + Sync, L: Ledger>(
    means: &Means<'_, R, G>,
    editor: &mut Editor,
    board: &mut B,
    body: Body,
    steps: &mut Steps<L>,
) -> Result<Option<Reply>, AllocError>
    requires ready { IsReady editor.old (B.log board.old) (B.pin_at board.old) }
    ensures answers { ComesOf B.Pins result
        (λ seat log before reply after. IsReplied seat log before body reply after)
        board.old board.new editor.old editor.new }
{
    match body {
        Body::NotJson => Ok(Some(refused(None, Refusal::ParseError))),
        Body::Invalid => Ok(Some(refused(None, Refusal::InvalidRequest))),
        Body::Passed => Ok(None),
        Body::Message(Message { id, asks }) => answer_asked(means, editor, board, id, asks, steps),
    }
}

/// What a message with a method is replied: with an id it is a request, and a notification without one.
fn answer_asked<R: Threads + Sync, B: Commits<R>, G: Gate + Sync, L: Ledger>(
    means: &Means<'_, R, G>,
    editor: &mut Editor,
    board: &mut B,
    id: Option<Id>,
    asks: Asks,
    steps: &mut Steps<L>,
) -> Result<Option<Reply>, AllocError>
    requires ready { IsReady editor.old (B.log board.old) (B.pin_at board.old) }
    ensures answers { ComesOf B.Pins result
        (λ seat log before reply after. IsMessage id seat log before asks reply after)
        board.old board.new editor.old editor.new }
{
    match id {
        Some(id) => Ok(Some(request(means, editor, board, id, asks)?)),
        None => {
            notification(means, editor, board, asks, steps)?;
            Ok(None)
        }
    }
}

/// The reply to what is refused, with its id where it has one.
fn refused(id: Option<Id>, refusal: Refusal) -> Reply
    ensures { Some result ≡ refused id refusal }
{
    Reply {
        id,
        outcome: Outcome::Refused(refusal),
    }
}

/// What a request is replied: why it is refused, or what comes of it. The one error is want of memory.
fn request<R: Threads + Sync, B: Pins, G: Gate + Sync>(
    means: &Means<'_, R, G>,
    editor: &mut Editor,
    board: &B,
    id: Id,
    asks: Asks,
) -> Result<Reply, AllocError>
    requires ready { IsReady editor.old (B.log board.now) (B.pin_at board.now) }
    ensures reply { IfOk result (λ reply. IsRequested (B.log board.now)
        (editing_at (length (B.log board.now)) (B.pin_at board.now) editor.old) id asks (Some reply)
        (editing_at (length (B.log board.now)) (B.pin_at board.now) editor.new)) }
    ensures ready { IfOk result (λ _. IsReady editor.new (B.log board.now) (B.pin_at board.now)) }
{
    match refusal_of(editor.phase, &asks) {
        Some(refusal) => Ok(refused(Some(id), refusal)),
        None => Ok(Reply {
            id: Some(id),
            outcome: carried_out(means, editor, board, asks)?,
        }),
    }
}

/// What comes of a request that isn't refused: it is `initialize`, `shutdown` or one of the two queries.
fn carried_out<R: Threads + Sync, B: Pins, G: Gate + Sync>(
    means: &Means<'_, R, G>,
    editor: &mut Editor,
    board: &B,
    asks: Asks,
) -> Result<Outcome, AllocError>
    requires ready { IsReady editor.old (B.log board.now) (B.pin_at board.now) }
    requires not_refused { refusal_of editor.old.phase asks ≡ None }
    ensures outcome { IfOk result (λ outcome. (id : Name) → IsCarriedOut (B.log board.now)
        (editing_at (length (B.log board.now)) (B.pin_at board.now) editor.old) id asks
        (replied id outcome)
        (editing_at (length (B.log board.now)) (B.pin_at board.now) editor.new)) }
    ensures ready { IfOk result (λ _. IsReady editor.new (B.log board.now) (B.pin_at board.now)) }
{
    match asks {
        Asks::Initialize { root } => begin(means.alloc, editor, &root),
        Asks::Definition { uri, at } => definition(means.alloc, editor, board, uri.as_str(), at),
        Asks::References {
            uri,
            at,
            declaration,
        } => reference(means, editor, board, uri.as_str(), at, declaration),
        _ => {
            editor.phase = Phase::Shut;
            Ok(Outcome::Null)
        }
    }
}

/// Begins the session over the project at the URI. The one error is want of memory.
fn begin(alloc: Global, editor: &mut Editor, uri: &Option<Text>) -> Result<Outcome, AllocError>
    ensures outcome { IfOk result (λ outcome. outcome ≡ Outcome.Capabilities) }
    ensures begun { IfOk result (λ _. (editor.new.phase ≡ Phase.Open)
        × (editor.new.root.items ≡ root_of uri.now)) }
    ensures rest { (editor.new.texts ≡ editor.old.texts) × (editor.new.desk ≡ editor.old.desk)
        × (editor.new.view ≡ editor.old.view) }
{
    let root = match uri {
        Some(uri) => root_of(alloc, Some(uri.as_str()))?,
        None => root_of(alloc, None)?,
    };
    editor.root = root;
    editor.phase = Phase::Open;
    Ok(Outcome::Capabilities)
}

/// Does what a notification asks for: nothing before `initialize` and after `shutdown`.
fn notification<R: Threads + Sync, B: Commits<R>, G: Gate + Sync, L: Ledger>(
    means: &Means<'_, R, G>,
    editor: &mut Editor,
    board: &mut B,
    asks: Asks,
    steps: &mut Steps<L>,
) -> Result<(), AllocError>
    requires ready { IsReady editor.old (B.log board.old) (B.pin_at board.old) }
    ensures notified { ComesOf B.Pins result
        (λ seat log before _ after. IsNotified editor.old.phase seat log before asks None after)
        board.old board.new editor.old editor.new }
{
    match editor.phase {
        Phase::Open => noted(means, editor, board, asks, steps),
        Phase::Before | Phase::Shut => Ok(()),
    }
}

/// Does what a notification asks for in a session that is open: each but those of documents is passed over.
fn noted<R: Threads + Sync, B: Commits<R>, G: Gate + Sync, L: Ledger>(
    means: &Means<'_, R, G>,
    editor: &mut Editor,
    board: &mut B,
    asks: Asks,
    steps: &mut Steps<L>,
) -> Result<(), AllocError>
    requires ready { IsReady editor.old (B.log board.old) (B.pin_at board.old) }
    ensures noted { ComesOf B.Pins result
        (λ seat log before _ after. IsNoted seat log before asks None after)
        board.old board.new editor.old editor.new }
{
    match asks {
        Asks::DidOpen { uri, text } => put(means, editor, board, uri.as_str(), text, steps),
        Asks::DidChange { uri, text } => { change(means, editor, board, uri.as_str(), text, steps) }
        Asks::DidClose { uri } => close(means, editor, board, uri.as_str(), steps),
        _ => Ok(()),
    }
}
