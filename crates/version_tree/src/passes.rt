ghost use Rattle.std.specs.{Prelude.{◌≡◌, None, IfOk, OnOk, MatchResult}, List.{list_any}, Option.{option_map}};
ghost use Rattle.version_tree.specs.{Contents.{ruled, rowed}, Verdict.{misses_grant, misses_deny, no_grant, no_deny, first_of}, Passes.{is_of_rules, ruled_all, rowed_all, rule_fault}, Refused.{Refuses}};

use crate::edit::{Edit, EditFault};
use crate::shared_rules::SharedRules;
use crate::store::Store;
use crate::text::{PathText, UserText};
use grants::Grants;
use std::alloc::{AllocError, Global};

/// What the edits make of the rules, which are copied only where an edit is one of rules; or the first
/// grant that isn't there, else the first deny that isn't.
#[tactic(auto, using(crate::proofs::Rules::unruled))]
pub(crate) fn rules_after(
    alloc: Global,
    rules: &SharedRules,
    edits: &[Edit],
) -> Result<SharedRules, EditFault>
    ensures ok { IfOk result (λ after. after ≡ ruled_all edits.now rules.now) }
    ensures fault { MatchResult result (λ _. rule_fault rules.now edits.now
        ≡ None) (Refuses (rule_fault rules.now edits.now)) }
{
    if !changes_rules(edits) {
        return Ok(rules.share(alloc)?);
    }
    let after = ruled_copy(alloc, rules.get(), edits)?;
    Ok(SharedRules::of(alloc, after)?)
}

// Whether one of the edits is one of rules.
fn changes_rules(edits: &[Edit]) -> bool
    ensures { result ≡ list_any is_of_rules edits.now }
{
    edits.iter().any(|edit| edit.is_of_rules())
}

// What the edits make of the rules, in one pass over a copy of them.
fn ruled_copy(alloc: Global, rules: &Grants, edits: &[Edit]) -> Result<Grants, EditFault>
    ensures ok { IfOk result (λ after. after ≡ ruled_all edits.now rules.now) }
    ensures fault { MatchResult result (λ _. rule_fault rules.now edits.now
        ≡ None) (Refuses (rule_fault rules.now edits.now)) }
{
    let mut after = rules.copy(alloc)?;
    let mut noted = None;
    for edit in edits {
        noted = rule_step(alloc, &mut after, edit, noted)?;
    }
    match noted {
        Some(fault) => Err(fault),
        None => Ok(after),
    }
}

// What one edit makes of the rules, and the first deny so far that isn't there.
fn rule_step(
    alloc: Global,
    rules: &mut Grants,
    edit: &Edit,
    noted: Option<EditFault>,
) -> Result<Option<EditFault>, EditFault>
    ensures rules { OnOk result (rules.new ≡ ruled edit.now rules.old) }
    ensures noted { IfOk result
        (λ after. after ≡ first_of noted (option_map no_deny (misses_deny rules.old edit.now))) }
    ensures fault { MatchResult result (λ _. misses_grant rules.old edit.now
        ≡ None) (Refuses (option_map no_grant (misses_grant rules.old edit.now))) }
{
    match edit {
        Edit::Put { .. } | Edit::Remove { .. } => Ok(noted),
        Edit::Grant { user, prefix } => {
            rules.add(alloc, user.as_str(), prefix.as_str())?;
            Ok(noted)
        }
        Edit::Deny { user, prefix } => {
            rules.deny(alloc, user.as_str(), prefix.as_str())?;
            Ok(noted)
        }
        Edit::Revoke { user, prefix } => match rules.remove(user.as_str(), prefix.as_str()) {
            Ok(()) => Ok(noted),
            Err(_) => Err(EditFault::GrantAbsent(user.copy(alloc)?, prefix.copy(alloc)?)),
        },
        Edit::Undeny { user, prefix } => match rules.undeny(user.as_str(), prefix.as_str()) {
            Ok(()) => Ok(noted),
            Err(_) => {
                let fault = EditFault::DenyAbsent(user.copy(alloc)?, prefix.copy(alloc)?);
                Ok(earlier(noted, fault))
            }
        },
    }
}

// The fault that was noted, else this one.
fn earlier(noted: Option<EditFault>, fault: EditFault) -> Option<EditFault>
    ensures { result ≡ first_of noted (Some fault) }
{
    match noted {
        Some(first) => Some(first),
        None => Some(fault),
    }
}

/// What the edits make of the rows. The one error is want of memory.
pub(crate) fn rows_after(alloc: Global, rows: &Store, edits: &[Edit]) -> Result<Store, AllocError>
    ensures { IfOk result (λ after. after ≡ rowed_all edits.now rows.now) }
{
    let mut after = rows.share(alloc)?;
    for edit in edits {
        after = row_step(alloc, after, edit)?;
    }
    Ok(after)
}

// What one edit makes of the rows.
fn row_step(alloc: Global, rows: Store, edit: &Edit) -> Result<Store, AllocError>
    ensures { IfOk result (λ after. after ≡ rowed edit.now rows) }
{
    match edit {
        Edit::Put { path, paths } => rows.with(alloc, path, paths),
        Edit::Remove { path } => rows.without(alloc, path.as_str()),
        Edit::Grant { .. } | Edit::Revoke { .. } | Edit::Deny { .. } | Edit::Undeny { .. } => {
            Ok(rows)
        }
    }
}
