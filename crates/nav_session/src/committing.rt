ghost use Rattle.std.specs.Prelude.{◌≡◌, ◌≢◌, IfOk, OnErr, MatchBool};
ghost use Rattle.version_board.specs.Logs.{own};
ghost use Rattle.index_gate.specs.declared.fault.IndexFault.TheVariants as why;
ghost use Rattle.nav_proto.specs.declared.reply.Reply.TheVariants.{BadFile};
ghost use Rattle.nav_session.specs.{BadFiles.{file_error}, Requests.{docs_in}, Sessions.{IfOperator, IsCommitted}, Desks.{Replies, GoesOn, HasItsView, AddsDocs, AddsOnly, is_indexed, moment_at}, Inside.{ComesOf, CommitsAs, Counts, PutsIn, filled}};

use crate::bad_file::file_error;
use crate::desk::Desk;
use crate::drafts::{Draft, drafts_of, edits_from};
use crate::judging::judge;
use crate::means::Means;
use graph_nodes::{Name, Steps};
use index_gate::{FileFault, IndexFault, index_all};
use nav_io::Gate;
use nav_proto::{Edits, Reply};
use partial_path::SharedPaths;
use std::alloc::{AllocError, Global};
use std::sync::ledger::Ledger;
use std::thread::Threads;
use version_board::Commits;
use version_tree::PathText;

/// The reply to `commit`, where the user may change anything: its documents are indexed, unless the desk keeps them, and
/// then its edits come before the board. The one error is want of memory.
#[tactic(auto, using(crate::proofs::Asked::operator_by, crate::proofs::Asked::refused_change))]
pub fn commit<R: Threads + Sync, B: Commits<R>, G: Gate + Sync, L: Ledger>(
    means: &Means<'_, R, G>,
    desk: &mut Desk,
    board: &mut B,
    base: Option<u32>,
    edits: Edits,
    steps: &mut Steps<L>,
) -> Result<Reply, AllocError>
    requires view { HasItsView desk.old (B.log board.old) (B.pin_at board.old) }
    ensures commits { ComesOf result (Replies (λ log before reply after. IfOperator before reply after
        (λ asker. IsCommitted (B.seat board.old) log before asker base edits reply after)))
        (moment_at B.Pins board.old desk.old) (moment_at B.Pins board.new desk.new) }
    ensures store { IfOk result (λ reply. MatchBool (is_indexed reply)
        (AddsDocs desk.old.keeps (docs_in edits) reply desk.old.store desk.new.store)
        (desk.new.store ≡ desk.old.store)) }
    ensures steps { Counts result (docs_in edits) desk.old.store steps.old steps.new }
{
    match desk.change_refusal() {
        Some(error) => Ok(Reply::Plain(error)),
        None => commit_allowed(means, desk, board, base, edits, steps),
    }
}

/// The reply to a commit of a user that may change anything.
#[tactic(auto, using(crate::proofs::Committed::bad_document, crate::proofs::Committed::judged, crate::proofs::Kept::adds))]
fn commit_allowed<R: Threads + Sync, B: Commits<R>, G: Gate + Sync, L: Ledger>(
    means: &Means<'_, R, G>,
    desk: &mut Desk,
    board: &mut B,
    base: Option<u32>,
    edits: Edits,
    steps: &mut Steps<L>,
) -> Result<Reply, AllocError>
    ensures goes_on { GoesOn (moment_at B.Pins board.old desk.old)
        (moment_at B.Pins board.new desk.new) }
    ensures committed { IfOk result (CommitsAs base edits (moment_at B.Pins board.old desk.old)
        (moment_at B.Pins board.new desk.new)) }
    ensures none { OnErr result (own (B.seat board.old) (B.log board.new)
        ≡ own (B.seat board.old) (B.log board.old)) }
    ensures no_less { OnErr result (AddsOnly desk.old.store desk.new.store) }
    ensures steps { Counts result (docs_in edits) desk.old.store steps.old steps.new }
{
    let Means { rt, alloc, gate } = *means;
    let drafts = drafts_of(alloc, edits)?;
    match index_all(rt, alloc, &drafts.docs, &mut desk.store, gate, steps) {
        Ok(files) => put_in(rt, alloc, desk, board, base, drafts.drafts, files),
        Err(fault) => {
            let (path, fault) = bad_document(fault)?;
            bad_file(alloc, path.as_str(), fault)
        }
    }
}

/// The first document that has a fault, by its path, and its fault; the one error is want of memory.
fn bad_document(fault: IndexFault) -> Result<(Name, FileFault), AllocError>
    ensures document { IfOk result (λ found. fault ≡ why.BadFile found.0 found.1) }
    ensures definite { IfOk result (λ _. fault ≢ why.NoMemory) }
    ensures memory { OnErr result (fault ≡ why.NoMemory) }
{
    match fault {
        IndexFault::BadFile { path, fault } => Ok((path, fault)),
        IndexFault::NoMemory => Err(AllocError),
    }
}

/// The reply to a commit with a document that has the fault.
fn bad_file(alloc: Global, path: &str, fault: FileFault) -> Result<Reply, AllocError>
    ensures { IfOk result (λ reply. reply ≡ BadFile path.now (file_error fault)) }
{
    Ok(Reply::BadFile {
        path: PathText::of(alloc, path)?,
        fault: file_error(fault),
    })
}

/// The reply to a commit whose documents have these files.
fn put_in<R: Threads + Sync, B: Commits<R>>(
    rt: &R,
    alloc: Global,
    desk: &mut Desk,
    board: &mut B,
    base: Option<u32>,
    drafts: Vec<Draft>,
    files: Vec<SharedPaths>,
) -> Result<Reply, AllocError>
    ensures goes_on { GoesOn (moment_at B.Pins board.old desk.old)
        (moment_at B.Pins board.new desk.new) }
    ensures put { IfOk result (PutsIn base (filled drafts.items files.items)
        (moment_at B.Pins board.old desk.old) (moment_at B.Pins board.new desk.new)) }
    ensures none { OnErr result (own (B.seat board.old) (B.log board.new)
        ≡ own (B.seat board.old) (B.log board.old)) }
    ensures same { OnErr result (desk.new.store ≡ desk.old.store) }
{
    let edits = edits_from(alloc, drafts, files)?;
    let reply = judge(rt, alloc, desk, board, base, &edits)?;
    desk.sweep_after(&reply);
    desk.list_ends(rt, alloc, &board.pinned().version, edits.len());
    Ok(reply)
}
