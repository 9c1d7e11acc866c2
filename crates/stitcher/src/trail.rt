//! The paths that are joined at the moment, in their order.
ghost use Rattle.std.specs.{Prelude.{◌≡◌, ◌↔◌, ◌++◌, map, IsTrue, IfOk}, List.{list_any}};
ghost use Rattle.partial_path.specs.{Same.{config_eq}, Laws.{IsAtStart}, Cutting.{edges_in}};
ghost use Rattle.stitcher.specs.Trail.{Moves, landed_at};

use partial_path::{EdgeAt, LentConfig, Spot, Start, StoredPath};
use stacks_vars::NodeAt;
use std::alloc::AllocError;

/// A stored path that was joined, and where it landed.
#[derive(Drop)]
pub struct Level<'a> {
    /// The number of the path's file.
    pub file: u32,
    pub path: StoredPath<'a>,
    pub at: LentConfig<'a>,
}

/// Joined paths that are still to be gone on from.
#[derive(Drop)]
pub struct Open<'a> {
    /// How many levels of the trail come before its last path.
    pub depth: usize,
    /// How many edges its paths have together.
    pub edges: usize,
    /// Its last path, and where that landed.
    pub level: Level<'a>,
}

/// Where a search stands: which paths are joined at the moment, and where the last of them landed.
#[derive(Drop)]
pub struct Standing<'t, 'a> {
    pub trail: &'t [Level<'a>],
    pub at: &'t LentConfig<'a>,
    /// Where the next path begins.
    pub begin: Start,
    /// How many edges the paths have together.
    pub edges: usize,
}

/// Whether a configuration where a run lands is the start of the reference's runs.
pub fn is_back(node: NodeAt, at: &LentConfig<'_>) -> bool
    ensures { IsTrue result ↔ IsAtStart node at.now }
{
    at.spot().same(Spot::At(node)) && at.symbols().len() == 1 && at.scopes().is_empty()
}

/// Whether one of the paths landed there.
pub fn has_landed(levels: &[Level], at: &LentConfig<'_>) -> bool
    ensures { result ≡ list_any (config_eq at.now) (map landed_at levels.now) }
{
    for level in levels {
        if at.same(&level.at) {
            return true;
        }
    }
    false
}

/// Adds the edges of a stored path, moved by its file's number.
pub fn push_edges(
    edges: &mut Vec<EdgeAt>,
    file: u32,
    path: &StoredPath<'_>,
) -> Result<(), AllocError>
    requires { Moves file path.now }
    ensures { IfOk result (λ _. edges.new.items ≡ edges.old.items ++ edges_in (file, path.now)) }
{
    for edge in path.edge_numbers() {
        edges.push(EdgeAt { file, edge: *edge })?;
    }
    Ok(())
}
