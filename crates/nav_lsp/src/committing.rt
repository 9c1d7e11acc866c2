//! Texts of open documents, as they are committed.
ghost use Rattle.std.specs.Prelude.{◌≡◌, length, None, Some, true, IfOk, OnOk, OnErr, if◌then◌else◌};
ghost use Rattle.path_store.specs.Store.{cost_of};
ghost use Rattle.version_board.specs.Logs.{own};
ghost use Rattle.nav_session.specs.Desks.{HasItsView, is_accepted};
ghost use Rattle.lsp_texts.specs.Texts.{AreSame, has_room, texts_in, with_text};
ghost use Rattle.nav_lsp.specs.{Held.{ComesOf, CommitsOne, GoesOn, IsReady}, Editing.{operator}, Replies.{IsChanged, IsClosed, IsPut}};

use crate::editor::Editor;
use graph_nodes::Steps;
use lsp_answers::path_under;
use lsp_texts::{OpenText, OpenTexts};
use lsp_wire::Text;
use nav_io::Gate;
use nav_proto::{DocText, Edits, FileEdit, Reply, Request};
use nav_session::{Desk, Means, reply_to};
use std::alloc::AllocError;
use std::sync::ledger::Ledger;
use std::thread::Threads;
use version_board::Commits;
use version_tree::PathText;

/// Commits one edit, and keeps no document beside the version, but such as cost nothing. It tells whether it was accepted;
/// the one error is want of memory, and then no entry of it is in the log.
#[tactic(auto, using(crate::proofs::Committed::commits_one, crate::proofs::Committed::still_named, crate::proofs::Committed::lets_go))]
fn commit<R: Threads + Sync, B: Commits<R>, G: Gate + Sync, L: Ledger>(
    means: &Means<'_, R, G>,
    desk: &mut Desk,
    board: &mut B,
    edit: FileEdit,
    steps: &mut Steps<L>,
) -> Result<bool, AllocError>
    requires user { desk.old.user ≡ Some operator }
    requires view { HasItsView desk.old (B.log board.old) (B.pin_at board.old) }
    ensures goes_on { GoesOn (B.seat board.old) (B.seat board.new) (B.log board.old)
        (B.log board.new) }
    ensures committed { IfOk result (CommitsOne (B.seat board.old) (B.log board.new)
        (length (B.log board.old)) (B.pin_at board.old) (length (B.log board.new))
        (B.pin_at board.new) edit) }
    ensures user { IfOk result (λ _. desk.new.user ≡ Some operator) }
    ensures view { IfOk result (λ _. HasItsView desk.new (B.log board.new) (B.pin_at board.new)) }
    ensures let_go { OnOk result (cost_of desk.new.store ≡ 0) }
    ensures none { OnErr result (own (B.seat board.old) (B.log board.new)
        ≡ own (B.seat board.old) (B.log board.old)) }
{
    let mut edits = Vec::with_capacity(means.alloc, 1)?;
    edits.push(edit)?;
    let request = Request::Commit {
        base: None,
        edits: Edits::of(edits),
    };
    let reply = reply_to(means, desk, board, request, steps)?;
    // The version holds the open documents, and an editor seldom changes one back: all else would only grow with use.
    desk.let_documents_go();
    Ok(is_accepted(&reply))
}

/// Whether a commit with this reply was accepted.
fn is_accepted(reply: &Reply) -> bool
    ensures { result ≡ is_accepted reply.now }
{
    matches!(reply, Reply::Version(_))
}

/// The document has this text from now on, where it is inside and the text is accepted: the text is committed, and kept
/// with the places of its lines. The one error is want of memory, and then no entry of it is in the log: what is kept is
/// made before the text is committed.
pub(crate) fn put<R: Threads + Sync, B: Commits<R>, G: Gate + Sync, L: Ledger>(
    means: &Means<'_, R, G>,
    editor: &mut Editor,
    board: &mut B,
    uri: &str,
    text: Text,
    steps: &mut Steps<L>,
) -> Result<(), AllocError>
    requires ready { IsReady editor.old (B.log board.old) (B.pin_at board.old) }
    ensures put { ComesOf B.Pins result
        (λ seat log before _ after. IsPut seat log before uri.now text None after)
        board.old board.new editor.old editor.new }
{
    let Some(path) = path_under(means.alloc, &editor.root, uri)? else {
        return Ok(());
    };
    let edit = FileEdit::Put {
        path: path.copy(means.alloc)?,
        text: DocText::of(means.alloc, text.as_str())?,
    };
    let kept = OpenText::of(means.alloc, text)?;
    editor.texts.make_room(means.alloc, path.as_str())?;
    editor.forget_view();
    let accepted = commit(means, &mut editor.desk, board, edit, steps)?;
    put_if(accepted, &mut editor.texts, path.as_str(), kept);
    Ok(())
}

/// Puts the text at the path, where it was accepted.
fn put_if(accepted: bool, texts: &mut OpenTexts, path: &str, text: OpenText)
    requires room { has_room texts.old path.now ≡ true }
    ensures { AreSame (if accepted then with_text path.now (Some text)
        (texts_in texts.old) else texts_in texts.old) (texts_in texts.new) }
{
    if accepted {
        texts.put(path, text);
    }
}

/// The document has this text from now on, as by `put`; where there is no text nothing changes.
pub(crate) fn change<R: Threads + Sync, B: Commits<R>, G: Gate + Sync, L: Ledger>(
    means: &Means<'_, R, G>,
    editor: &mut Editor,
    board: &mut B,
    uri: &str,
    text: Option<Text>,
    steps: &mut Steps<L>,
) -> Result<(), AllocError>
    requires ready { IsReady editor.old (B.log board.old) (B.pin_at board.old) }
    ensures changed { ComesOf B.Pins result
        (λ seat log before _ after. IsChanged seat log before uri.now text None after)
        board.old board.new editor.old editor.new }
{
    match text {
        Some(text) => put(means, editor, board, uri, text, steps),
        None => Ok(()),
    }
}

/// The document is no longer open, where it is inside: it is removed from the files, and its text isn't kept any more. The
/// one error is want of memory, and then no entry of it is in the log.
pub(crate) fn close<R: Threads + Sync, B: Commits<R>, G: Gate + Sync, L: Ledger>(
    means: &Means<'_, R, G>,
    editor: &mut Editor,
    board: &mut B,
    uri: &str,
    steps: &mut Steps<L>,
) -> Result<(), AllocError>
    requires ready { IsReady editor.old (B.log board.old) (B.pin_at board.old) }
    ensures closed { ComesOf B.Pins result
        (λ seat log before _ after. IsClosed seat log before uri.now None after)
        board.old board.new editor.old editor.new }
{
    let Some(path) = path_under(means.alloc, &editor.root, uri)? else {
        return Ok(());
    };
    let edit = FileEdit::Remove {
        path: path.copy(means.alloc)?,
    };
    editor.forget_view();
    let accepted = commit(means, &mut editor.desk, board, edit, steps)?;
    remove_if(accepted, &mut editor.texts, path.as_str());
    Ok(())
}

/// Takes the text at the path away, where its removal was accepted.
fn remove_if(accepted: bool, texts: &mut OpenTexts, path: &str)
    ensures { AreSame (if accepted then with_text path.now None
        (texts_in texts.old) else texts_in texts.old) (texts_in texts.new) }
{
    if accepted {
        texts.remove(path);
    }
}
