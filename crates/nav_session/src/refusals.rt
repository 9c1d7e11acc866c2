ghost use Rattle.std.specs.Prelude.{◌≡◌, ◌≢◌, Err, IfOk, OnErr};
ghost use Rattle.nav_answers.specs.declared.found.AskFault.TheVariants as ask;
ghost use Rattle.nav_proto.specs.declared.proto_fault.ProtoFault.TheVariants as proto;
ghost use Rattle.version_board.specs.declared.fault.CommitFault.TheVariants as why;
ghost use Rattle.nav_session.specs.Refusals.{callers_reply, commit_reply, edit_reply, fault_reply, query_reply};

use nav_answers::{Answer, AskFault};
use nav_proto::{PlainError, ProtoFault, Reply};
use std::alloc::AllocError;
use version_board::CommitFault;
use version_tree::{EditFault, Rows};

/// The reply to a line that is no request for this reason; the one error is want of memory.
pub fn line_reply(fault: ProtoFault) -> Result<Reply, AllocError>
    ensures reply { IfOk result (λ reply. reply ≡ fault_reply fault) }
    ensures definite { IfOk result (λ _. fault ≢ proto.NoMemory) }
    ensures memory { OnErr result (fault ≡ proto.NoMemory) }
{
    match fault {
        ProtoFault::BadJson => Ok(Reply::Plain(PlainError::BadJson)),
        ProtoFault::BadRequest(field) => Ok(Reply::BadRequest(field)),
        ProtoFault::NoMemory => Err(AllocError),
    }
}

/// The reply to edits that have the fault on the head. Want of memory is no fault of edits.
pub fn edit_reply(fault: EditFault) -> Reply
    ensures { result ≡ edit_reply fault }
{
    match fault {
        EditFault::Twice(path) => Reply::Twice(path),
        EditFault::Absent(path) => Reply::AbsentFile(path),
        EditFault::GrantAbsent(user, prefix) | EditFault::DenyAbsent(user, prefix) =>
            Reply::AbsentGrant(user, prefix),
        EditFault::TooManyFiles(files) => Reply::TooManyFiles(files),
        EditFault::TooHeavy(weight) => Reply::TooHeavy(weight),
        EditFault::Spent | EditFault::NoMemory => Reply::Plain(PlainError::Spent),
    }
}

/// The reply to edits that the board refuses for this reason; the one error is want of memory.
pub fn commit_reply(fault: CommitFault) -> Result<Reply, AllocError>
    ensures reply { IfOk result (λ reply. reply ≡ commit_reply fault) }
    ensures definite { IfOk result (λ _. fault ≢ why.NoMemory) }
    ensures memory { OnErr result (fault ≡ why.NoMemory) }
{
    match fault {
        CommitFault::Stale(head) => Ok(Reply::Stale(head)),
        CommitFault::Edit(fault) => Ok(edit_reply(fault)),
        CommitFault::NoMemory => Err(AllocError),
    }
}

/// The reply to a query that found this; the one error is want of memory.
pub fn query_reply(found: Result<Answer, AskFault>) -> Result<Reply, AllocError>
    ensures reply { IfOk result (λ reply. reply ≡ query_reply found) }
    ensures definite { IfOk result (λ _. found ≢ Err ask.NoMemory) }
    ensures memory { OnErr result (found ≡ Err ask.NoMemory) }
{
    match found {
        Ok(answer) => Ok(Reply::Rows(answer)),
        Err(fault) => refusal(fault),
    }
}

/// The reply to `callers` that found this; the one error is want of memory.
pub fn callers_reply(found: Result<Rows, AskFault>) -> Result<Reply, AllocError>
    ensures reply { IfOk result (λ reply. reply ≡ callers_reply found) }
    ensures definite { IfOk result (λ _. found ≢ Err ask.NoMemory) }
    ensures memory { OnErr result (found ≡ Err ask.NoMemory) }
{
    match found {
        Ok(rows) => Ok(Reply::Callers(rows)),
        Err(fault) => refusal(fault),
    }
}

/// The reply to a query that is refused; the one error is want of memory.
fn refusal(fault: AskFault) -> Result<Reply, AllocError>
    ensures reply { IfOk result (λ reply. reply ≡ query_reply (Err fault)) }
    ensures definite { IfOk result (λ _. fault ≢ ask.NoMemory) }
    ensures memory { OnErr result (fault ≡ ask.NoMemory) }
{
    match fault {
        AskFault::NoFile => Ok(Reply::Plain(PlainError::NoFile)),
        AskFault::NoReference => Ok(Reply::Plain(PlainError::NoReference)),
        AskFault::NoDefinition => Ok(Reply::Plain(PlainError::NoDefinition)),
        AskFault::Crowded => Ok(Reply::Plain(PlainError::Crowded)),
        AskFault::NoMemory => Err(AllocError),
    }
}
