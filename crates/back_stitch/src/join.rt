//! One stored path in front of what is known.
ghost use Rattle.std.specs.Prelude.{◌≡◌, ◌≤◌, ◌<◌, ◌+◌, ◌∷◌, [], ℕ, List, All, IfOk, IsTrue, Some, None, length, true, ◌⊎◌};
ghost use Rattle.graph_nodes.specs.Whole.{is_definition_of};
ghost use Rattle.stacks_vars.specs.declared.scopes.NodeAt.{NodeAt};
ghost use Rattle.partial_path.specs.{declared.config.Spot.TheVariants.{At}, Rules.{Rule, IsRule}, Moved.{moved}, Cutting.{IsStoredIn}, Sources.{IsSourceFile, graphs_of}};
ghost use Rattle.back_stitch.specs.{Lists.{most_edges, most_depth}, Sources.{may_end_at}, Joined.{is_after, is_kept}, Held.{IsHeld, IsOutcome}};

use crate::kept::{MAX_DEPTH, MAX_EDGES, is_kept};
use crate::source::BackSource;
use partial_path::{PartialPath, StoredPath, file_zero_moves};
use path_join::join_stored;
use std::alloc::{AllocError, Global};

/// What comes of a stored path that may end at a definition: the path moved to its file, where it stands for a back
/// list. The one error is want of memory.
pub fn first_of<P: BackSource>(
    alloc: Global,
    source: &P,
    file: u32,
    path: &StoredPath<'_>,
) -> Result<Option<PartialPath>, AllocError>
    requires sources { All IsSourceFile (P.files source.now) }
    requires stored { IsStoredIn (P.files source.now) (file, path.now) }
    ensures { IfOk result
        (λ found. (d : NodeAt)
        → IsTrue (is_definition_of (graphs_of (P.files source.now)) d.file d.node)
        → may_end_at (graphs_of (P.files source.now)) (At d) (moved file path.now) ≡ true
        → IsOutcome (P.files source.now) d ((file, path.now) ∷ []) found) }
{
    file_zero_moves();
    let moved = path.moved(alloc, file)?;
    if is_kept(source, &moved) {
        Ok(Some(moved))
    } else {
        Ok(None)
    }
}

/// What comes of a stored path in front of one that is known: both as one path, where it stands for a back list. The
/// one error is want of memory.
pub fn join_left<P: BackSource>(
    alloc: Global,
    source: &P,
    file: u32,
    path: &StoredPath<'_>,
    behind: &PartialPath,
) -> Result<Option<PartialPath>, AllocError>
    requires sources { All IsSourceFile (P.files source.now) }
    requires stored { IsStoredIn (P.files source.now) (file, path.now) }
    requires after { is_after behind.now.start ≡ true }
    requires short { length behind.now.edges ≤ most_edges }
    requires low { behind.now.peak ≤ most_depth }
    ensures { IfOk result (λ found. (d : NodeAt) (paths : List (ℕ × Rule))
        → IsTrue (is_definition_of (graphs_of (P.files source.now)) d.file d.node)
        → IsHeld (P.files source.now) d paths behind.now
        → IsOutcome (P.files source.now) d ((file, path.now) ∷ paths) found) }
{
    if !is_within(path, behind) {
        return Ok(None);
    }
    file_zero_moves();
    let Some(joined) = join_stored(alloc, file, path, behind)? else {
        return Ok(None);
    };
    if is_kept(source, &joined) {
        Ok(Some(joined))
    } else {
        Ok(None)
    }
}

/// Whether the path alone is within the bounds together with the edges of the other.
fn is_within(path: &StoredPath<'_>, behind: &PartialPath) -> bool
    requires { length behind.now.edges ≤ most_edges }
    ensures within { IsTrue result → (length path.now.edges + length behind.now.edges ≤ most_edges)
        × (path.now.peak ≤ most_depth) }
    ensures past { ¬ IsTrue result
        → (most_edges < length path.now.edges + length behind.now.edges) ⊎ (most_depth
        < path.now.peak) }
    ensures rules { IsRule path.now × IsRule behind.now }
{
    path.edge_numbers().len() <= MAX_EDGES - behind.edges().len() && path.peak() <= MAX_DEPTH
}
