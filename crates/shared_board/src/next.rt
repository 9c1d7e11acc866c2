//! The version that edits make of another, made before anything is appended.
ghost use Rattle.std.specs.{Prelude.{◌≡◌, ◌<◌, ◌+◌, ◌^◌, ℕ, Err, IfOk, length, slice_index, slice_set}, Arc.{arc_value}};
ghost use Rattle.version_tree.specs.declared.edit.EditFault.{EditFault as Faults};
ghost use Rattle.root_index.specs.Roots.{IsIndexOf};
ghost use Rattle.version_board.specs.Logs.{FitsHead, IsStale};
ghost use Rattle.version_board.specs.declared.fault.CommitFault.TheVariants as why;
ghost use Rattle.shared_board.specs.Bodies.{IsNext, Refuses};

use std::alloc::{AllocError, Global};
use std::sync::Arc;
use version_board::{CommitFault, Pinned, amended, fitting};
use version_tree::Edit;

/// The version that the edits make of a pinned one, with its index. It is refused as a commit on that head is; want of
/// memory is told only where the base fits, as it is looked at first.
pub(crate) fn next_pinned(
    alloc: Global,
    head: &Pinned,
    base: Option<u32>,
    edits: &[Edit],
) -> Result<Pinned, CommitFault>
    requires { IsIndexOf (arc_value head.now.version).content.rows (arc_value head.now.index) }
    ensures made { IfOk result (IsNext base edits.now (arc_value head.now.version)) }
    ensures stale { (n : ℕ) → result ≡ Err (why.Stale n)
        → IsStale base (arc_value head.now.version).number n }
    ensures refused { (e : Faults) → result ≡ Err (why.Edit e)
        → Refuses base edits.now (arc_value head.now.version) e }
    ensures memory { result ≡ Err why.NoMemory
        → FitsHead base (arc_value head.now.version).number }
{
    fitting(base, head.version.number())?;
    let version = amended(alloc, &head.version, edits)?;
    let index = head.index.amended(alloc, &head.version, &version, edits)?;
    let version = Arc::new(alloc, version)?;
    let index = Arc::new(alloc, index)?;
    Ok(Pinned { version, index })
}

/// The counts with one more for the seat.
pub(crate) fn counted(counts: &Vec<u32>, seat: u32) -> Result<Vec<u32>, AllocError>
    requires within { seat < length counts.now.items }
    requires room { slice_index counts.now.items seat + 1 < 2 ^ 32 }
    ensures { IfOk result
        (λ more. more.items
        ≡ slice_set counts.now.items seat (slice_index counts.now.items seat + 1)) }
{
    let mut more = counts.clone()?;
    more[seat as usize] += 1;
    Ok(more)
}
