//! What came of a query, as an editor is told of it.
ghost use Rattle.std.specs.Prelude.{◌≡◌, ◌≢◌, map, IfOk, OnErr};
ghost use Rattle.lsp_texts.specs.Texts.{texts_in};
ghost use Rattle.nav_answers.specs.declared.found.AskFault.TheVariants as ask;
ghost use Rattle.lsp_answers.specs.Queries.{located, location_of, outcome_of_fault};

use lsp_texts::{OpenTexts, location};
use lsp_wire::{Location, Locations, Outcome, Refusal};
use nav_answers::AskFault;
use std::alloc::{AllocError, Global};
use version_tree::Row;

/// What an editor has: the root of its project, and the texts that are open there.
#[derive(Drop)]
pub struct Project<'a> {
    pub root: &'a [u8],
    pub texts: &'a OpenTexts,
}

/// The rows as parts of documents. The one error is want of memory. Its time follows the number of rows.
pub(crate) fn located(
    alloc: Global,
    project: &Project<'_>,
    rows: &[Row],
) -> Result<Outcome, AllocError>
    ensures { IfOk result (λ outcome. outcome
        ≡ located project.now.root.now (texts_in project.now.texts.now) rows.now) }
{
    let mut found = Vec::with_capacity(alloc, rows.len())?;
    for row in rows {
        found.push(location_of(alloc, project, row)?)?;
    }
    Ok(Outcome::Locations(Locations::of(found)))
}

#[tactic(auto, unfolding(crate::specs::Queries::location_of))]
fn location_of(alloc: Global, project: &Project<'_>, row: &Row) -> Result<Location, AllocError>
    ensures { IfOk result (λ l. l
        ≡ location_of project.now.root.now (texts_in project.now.texts.now) row.now) }
{
    location(
        alloc,
        project.root,
        project.texts,
        row.path.as_str(),
        row.span,
    )
}

/// What an editor is told where there are no rows; the one error is want of memory.
pub(crate) fn outcome_of_fault(fault: AskFault) -> Result<Outcome, AllocError>
    ensures told { IfOk result (λ outcome. outcome ≡ outcome_of_fault fault) }
    ensures definite { IfOk result (λ _. fault ≢ ask.NoMemory) }
    ensures memory { OnErr result (fault ≡ ask.NoMemory) }
{
    match fault {
        AskFault::NoFile | AskFault::NoReference | AskFault::NoDefinition => Ok(Outcome::Null),
        AskFault::Crowded => Ok(Outcome::Refused(Refusal::Crowded)),
        AskFault::NoMemory => Err(AllocError),
    }
}
