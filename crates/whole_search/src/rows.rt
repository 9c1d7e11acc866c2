ghost use Rattle.std.specs.{Prelude.{◌≡◌, ◌↔◌, ◌++◌, map, IfOk, OnOk, Contains}, Option.{option_to_list}};
ghost use Rattle.shadowing.specs.Shadow.{unshadowed};
ghost use Rattle.whole_search.specs.{declared.found.Hit.{Hit}, Answers.{IsRising, path_of}, Ends.{hit_at, path_end, path_ends}};

use crate::found::Hit;
use crate::paths::paths_of;
use crate::run::Run;
use graph_nodes::FileGraph;
use partial_path::{Config, EdgeAt, Spot, step};
use shadowing::{EdgeList, EdgeStep, unshadowed};
use std::alloc::{AllocError, Global};

/// The nodes at which those of the runs end that no other of them shadows, each once in file order; the
/// one error is want of memory.
pub fn rows_of(
    alloc: Global,
    files: &[FileGraph],
    start: &Config,
    runs: &[Run],
) -> Result<Vec<Hit>, AllocError>
    ensures rising { IfOk result (λ rows. IsRising rows.items) }
    ensures exact { IfOk result (λ rows. (hit : Hit) → Contains rows.items hit ↔ Contains
        (path_ends files.now start.now (unshadowed (map (path_of files.now) runs.now))) hit) }
{
    // Paths are shadowed before their ends are told apart: two paths to one node can differ in that.
    let kept = unshadowed(alloc, paths_of(alloc, files, runs)?)?;
    let ends = ends_of(alloc, files, start, &kept)?;
    Ok(in_order(ends))
}

/// These rows in file order, each once.
pub fn in_order(rows: Vec<Hit>) -> Vec<Hit>
    ensures rising { IsRising result.items }
    ensures exact { (hit : Hit) → Contains result.items hit ↔ Contains rows.items hit }
{
    let mut rows = rows;
    rows.sort_unstable();
    rows.dedup();
    rows
}

/// The nodes at which these paths end.
fn ends_of(
    alloc: Global,
    files: &[FileGraph],
    start: &Config,
    paths: &[EdgeList],
) -> Result<Vec<Hit>, AllocError>
    ensures { IfOk result (λ ends. ends.items ≡ path_ends files.now start.now paths.now) }
{
    let mut ends = Vec::new(alloc);
    for path in paths {
        push_end(alloc, files, start, path.items(), &mut ends)?;
    }
    Ok(ends)
}

/// Adds the node at which the path ends.
fn push_end(
    alloc: Global,
    files: &[FileGraph],
    start: &Config,
    path: &[EdgeStep],
    ends: &mut Vec<Hit>,
) -> Result<(), AllocError>
    ensures { OnOk result (ends.new.items
        ≡ ends.old.items ++ option_to_list (path_end files.now start.now path.now)) }
{
    let Some(end) = end_of(alloc, files, start, path)? else {
        return Ok(());
    };
    ends.push(end)?;
    Ok(())
}

/// The node at which the path ends, as a run from the start. The run is followed once more, so that no
/// ends have to be kept.
fn end_of(
    alloc: Global,
    files: &[FileGraph],
    start: &Config,
    path: &[EdgeStep],
) -> Result<Option<Hit>, AllocError>
    ensures { IfOk result (λ end. end ≡ path_end files.now start.now path.now) }
{
    let mut here = start.copy(alloc)?;
    for taken in path {
        let edge = EdgeAt {
            file: taken.edge.file,
            edge: taken.edge.edge,
        };
        let Some(next) = step(alloc, files, here, edge)? else {
            return Ok(None);
        };
        here = next;
    }
    Ok(hit_at(here.spot))
}

/// The node at the spot; None at the root.
fn hit_at(spot: Spot) -> Option<Hit>
    ensures { result ≡ hit_at spot }
{
    match spot {
        Spot::Root => None,
        Spot::At(at) => Some(Hit {
            file: at.file,
            node: at.node,
        }),
    }
}
