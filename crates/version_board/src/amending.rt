//! The version that the edits of a commit make of the head, and how the commit is refused.
ghost use Rattle.std.specs.Prelude.{◌≡◌, ◌≢◌, ◌+◌, ℕ, None, Some, Ok, Err, IfOk, IfErr, OnOk};
ghost use Rattle.version_tree.specs.{declared.edit.EditFault.{EditFault as Faults}, Contents.{edited_all}, Verdict.{edit_fault}};
ghost use Rattle.version_tree.specs.declared.edit.EditFault.TheVariants as faults;
ghost use Rattle.version_board.specs.Logs.{FitsHead};
ghost use Rattle.version_board.specs.declared.fault.CommitFault.TheVariants as why;

use crate::fault::CommitFault;
use std::alloc::Global;
use version_tree::{Edit, EditFault, Version};

/// Refuses a base that is given and isn't the head: `Stale`, which tells the head.
pub fn fitting(base: Option<u32>, head: u32) -> Result<(), CommitFault>
    ensures fits { OnOk result (FitsHead base head) }
    ensures stale { IfErr result (λ fault. (fault ≡ why.Stale head) × ¬ FitsHead base head) }
{
    match base {
        Some(base) if base != head => Err(CommitFault::Stale(head)),
        _ => Ok(()),
    }
}

/// The refusal of a commit by its edits.
fn refused_by(fault: EditFault) -> CommitFault
    ensures edit { (e : Faults) → result ≡ why.Edit e → (e ≡ fault) × (e ≢ faults.NoMemory) }
    ensures stale { (n : ℕ) → result ≢ why.Stale n }
    ensures memory { result ≡ why.NoMemory → fault ≡ faults.NoMemory }
{
    match fault {
        EditFault::NoMemory => CommitFault::NoMemory,
        fault => CommitFault::Edit(fault),
    }
}

/// What edits make of a version, as a commit tells it.
fn as_commit(made: Result<Version, EditFault>) -> Result<Version, CommitFault>
    ensures ok { IfOk result (λ version. made ≡ Ok version) }
    ensures edit { (e : Faults) → result ≡ Err (why.Edit e)
        → (made ≡ Err e) × (e ≢ faults.NoMemory) }
    ensures stale { (n : ℕ) → result ≢ Err (why.Stale n) }
    ensures memory { result ≡ Err why.NoMemory → made ≡ Err faults.NoMemory }
{
    match made {
        Ok(version) => Ok(version),
        Err(fault) => Err(refused_by(fault)),
    }
}

/// The version that the edits make of the head, or the first fault of the edits on it. `NoMemory` may come in place of any
/// answer.
pub fn amended(alloc: Global, head: &Version, edits: &[Edit]) -> Result<Version, CommitFault>
    ensures fit { IfOk result (λ _. edit_fault head.now.number head.now.content edits.now ≡ None) }
    ensures version { IfOk result (λ version. version
        ≡ record {
          number = head.now.number + 1;
          content = edited_all edits.now head.now.content;
        }) }
    ensures refused { (e : Faults) → result ≡ Err (why.Edit e)
        → (edit_fault head.now.number head.now.content edits.now ≡ Some e) × (e ≢ faults.NoMemory) }
    ensures stale { (n : ℕ) → result ≢ Err (why.Stale n) }
{
    as_commit(head.amend(alloc, edits))
}
