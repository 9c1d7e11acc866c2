//! The stored paths that may end at a spot, in front of what is known.
ghost use Rattle.std.specs.Prelude.{◌≡◌, ◌≤◌, ◌∷◌, ◌++◌, [], ℕ, List, filter, All, Err, IfOk, IfSome, OnOk, IsTrue, option_copied, true};
ghost use Rattle.graph_nodes.specs.Whole.{is_definition_of};
ghost use Rattle.stacks_vars.specs.declared.scopes.NodeAt.{NodeAt};
ghost use Rattle.partial_path.specs.{declared.config.Spot.{Spot}, Rules.{Rule}, Moved.{moved}, Cutting.{IsStoredIn}, Sources.{IsSourceFile, graphs_of}};
ghost use Rattle.back_stitch.specs.{Lists.{most_lists}, Sources.{may_end_at}, Held.{IsBack, IsBehind, IsOutcome, IsOpen, HasExtended, HasTried, IsTriedPast, asked_behind, goes_on}};

use crate::fault::BackFault;
use crate::join::{first_of, join_left};
use crate::source::BackSource;
use crate::tally::Tally;
use partial_path::{PartialPath, Spot, Start, StoredPath};
use stacks_vars::SymPat;
use std::alloc::{AllocError, Global};

/// What comes of a stored path in front of what is known: of one that may end at the definition, where nothing is
/// known.
fn outcome<P: BackSource>(
    alloc: Global,
    source: &P,
    file: u32,
    path: &StoredPath<'_>,
    behind: Option<&PartialPath>,
) -> Result<Option<PartialPath>, AllocError>
    requires sources { All IsSourceFile (P.files source.now) }
    requires stored { IsStoredIn (P.files source.now) (file, path.now) }
    requires open { IfSome (option_copied behind) IsOpen }
    ensures { IfOk result (λ found. (d : NodeAt) (paths : List (ℕ × Rule)) (at : Spot)
        → IsTrue (is_definition_of (graphs_of (P.files source.now)) d.file d.node)
        → IsBehind (P.files source.now) d paths at (option_copied behind.entry)
        → may_end_at (graphs_of (P.files source.now)) at (moved file path.now) ≡ true
        → IsOutcome (P.files source.now) d ((file, path.now) ∷ paths) found) }
{
    match behind {
        Some(behind) => join_left(alloc, source, file, path, behind),
        None => first_of(alloc, source, file, path),
    }
}

/// Tries a stored path in front of what is known, and notes and keeps what comes of it.
fn try_path<P: BackSource>(
    alloc: Global,
    source: &P,
    file: u32,
    path: &StoredPath<'_>,
    behind: Option<&PartialPath>,
    work: &mut Vec<PartialPath>,
    tally: &mut Tally,
) -> Result<(), BackFault>
    requires sources { All IsSourceFile (P.files source.now) }
    requires stored { IsStoredIn (P.files source.now) (file, path.now) }
    requires open { IfSome (option_copied behind) IsOpen }
    requires few { tally.old.count ≤ most_lists }
    ensures tried { OnOk result ((d : NodeAt) (paths : List (ℕ × Rule)) (at : Spot)
        → IsTrue (is_definition_of (graphs_of (P.files source.now)) d.file d.node)
        → IsBehind (P.files source.now) d paths at (option_copied behind.entry)
        → may_end_at (graphs_of (P.files source.now)) at (moved file path.now) ≡ true
        → HasExtended (P.files source.now) d paths
        ((file, path.now) ∷ []) tally.old.count tally.new.count
        tally.old.rows.items tally.new.rows.items work.old.items work.new.items) }
    ensures few { OnOk result (tally.new.count ≤ most_lists) }
    ensures full { result ≡ Err BackFault.Many → tally.old.count ≡ most_lists }
    ensures back { result ≡ Err BackFault.Many → (d : NodeAt) (paths : List (ℕ × Rule)) (at : Spot)
        → IsTrue (is_definition_of (graphs_of (P.files source.now)) d.file d.node)
        → IsBehind (P.files source.now) d paths at (option_copied behind.entry)
        → may_end_at (graphs_of (P.files source.now)) at (moved file path.now) ≡ true
        → IsBack (P.files source.now) d ((file, path.now) ∷ paths) }
{
    let Some(found) = outcome(alloc, source, file, path, behind)? else {
        return Ok(());
    };
    tally.note(&found)?;
    keep_open(found, work)?;
    Ok(())
}

/// Keeps the path where more may be joined in front of it. Of what leads to a function of a module that many others import,
/// nearly all begins before a reference and asks for more: that is let go of at once, and its memory serves the next.
fn keep_open(path: PartialPath, work: &mut Vec<PartialPath>) -> Result<(), AllocError>
    ensures { OnOk result (work.new.items ≡ work.old.items ++ filter goes_on (path ∷ [])) }
{
    match path.start() {
        Start::Before(_) => Ok(()),
        Start::After(_) => {
            work.push(path)?;
            Ok(())
        }
    }
}

/// The symbols that the known path asks for; none where nothing is known.
fn asked<'a>(behind: Option<&'a PartialPath>) -> &'a [SymPat]
    ensures { result.now ≡ asked_behind (option_copied behind.entry) }
{
    match behind {
        Some(path) => path.pre().symbols.items(),
        None => &[],
    }
}

/// Tries each path in front of what is known that may end at the spot and make what is asked for, and notes and keeps
/// what comes of them.
pub fn extend<P: BackSource>(
    alloc: Global,
    source: &P,
    spot: Spot,
    behind: Option<&PartialPath>,
    work: &mut Vec<PartialPath>,
    tally: &mut Tally,
) -> Result<(), BackFault>
    requires sources { All IsSourceFile (P.files source.now) }
    requires open { IfSome (option_copied behind) IsOpen }
    requires few { tally.old.count ≤ most_lists }
    ensures tried { OnOk result (HasTried (P.files source.now) spot
        (option_copied behind.entry) tally.old.count tally.new.count
        tally.old.rows.items tally.new.rows.items work.old.items work.new.items) }
    ensures few { OnOk result (tally.new.count ≤ most_lists) }
    ensures many { result ≡ Err BackFault.Many
        → IsTriedPast (P.files source.now) spot (option_copied behind.entry) tally.old.count }
{
    let symbols = asked(behind);
    let mut next = source.ends(&spot, symbols);
    while let Some(found) = source.next_end(symbols, next) {
        next = found.2;
        try_path(alloc, source, found.0, &found.1, behind, work, tally)?;
    }
    Ok(())
}
