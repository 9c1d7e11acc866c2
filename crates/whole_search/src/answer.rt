ghost use Rattle.std.specs.Prelude.{◌≡◌, ◌<◌, ◌^◌, ◌↔◌, length, All, IsTrue, IsSomeAnd, IfOk, OnOk};
ghost use Rattle.graph_nodes.specs.{Checked.{IsChecked}, Whole.{is_reference_of}};
ghost use Rattle.partial_path.specs.{Spots.{node_at}, Step.{start}, Counted.{IsCrowded, HasLimit}};
ghost use Rattle.whole_search.specs.Answers.{AreDefinitions};

use crate::found::{Found, Hits, SearchFault};
use crate::leads::Leads;
use crate::query::Query;
use crate::rows::rows_of;
use crate::walk::walk;
use graph_nodes::FileGraph;
use partial_path::{Bounds, Config, start};
use stacks_vars::NodeAt;
use std::alloc::Global;

/// The definitions of a reference of the files, each once in file order, and whether a counted run was
/// left out for its length or depth. It is `Crowded` exactly where more than `MAX_RUNS` bounded counted
/// runs start at the reference, and else `NoMemory` where memory is refused. The rule of paths is told in
/// `specs/Answers.antt`.
///
/// It takes time and memory that follow the number of nodes and edges, for the table of live spots, and then
/// time that follows the number of straight runs from the reference that lead on to a definition or a cut. A
/// place is left out once it is known that no run from it lands with the same stacks (`src/watch.rt`). That is
/// still exponential in the layers of a ladder of edges whose places are all met with other stacks, or whose
/// end leads only to cuts that the run has met before.
pub fn search(
    alloc: Global,
    files: &[FileGraph],
    file: u32,
    node: u32,
    bounds: Bounds,
) -> Result<Found, SearchFault>
    requires reference { IsTrue (is_reference_of files.now file node) }
    requires files { length files.now < 2 ^ 32 }
    ensures rows { IfOk result
        (λ found. IsSomeAnd (start files.now (node_at file node))
        (λ c. AreDefinitions bounds files.now c found.rows)) }
    ensures limit { IfOk result
        (λ found. IsSomeAnd (start files.now (node_at file node))
        (λ c. IsTrue found.limit ↔ HasLimit bounds files.now c)) }
    ensures crowded { result ≡ Err SearchFault.Crowded
        → IsSomeAnd (start files.now (node_at file node)) (IsCrowded bounds files.now) }
    ensures not_crowded { OnOk result
        (IsSomeAnd (start files.now (node_at file node)) (λ c. ¬ IsCrowded bounds files.now c)) }
{
    match start(alloc, files, NodeAt { file, node })? {
        Some(from) => search_from(alloc, files, &from, bounds),
        None => Ok(Found {
            rows: Hits::of(Vec::new(alloc)),
            limit: false,
        }),
    }
}

/// The same, from where the paths of the reference start.
fn search_from(
    alloc: Global,
    files: &[FileGraph],
    from: &Config,
    bounds: Bounds,
) -> Result<Found, SearchFault>
    requires { length files.now < 2 ^ 32 }
    ensures rows { IfOk result (λ found. AreDefinitions bounds files.now from.now found.rows) }
    ensures limit { IfOk result (λ found. IsTrue found.limit ↔ HasLimit bounds files.now from.now) }
    ensures crowded { result ≡ Err SearchFault.Crowded → IsCrowded bounds files.now from.now }
    ensures not_crowded { OnOk result (¬ IsCrowded bounds files.now from.now) }
{
    are_checked(files);
    let leads = Leads::of(alloc, files)?;
    let query = Query {
        files,
        start: from,
        bounds,
        leads: &leads,
    };
    let tally = walk(alloc, &query)?;
    let rows = rows_of(alloc, files, from, &tally.runs)?;
    Ok(Found {
        rows: Hits::of(rows),
        limit: tally.limit,
    })
}

/// Whether the file has a reference at the position; false where there is no such file or node.
pub fn is_reference(files: &[FileGraph], file: u32, node: u32) -> bool
    ensures { result ≡ is_reference_of files.now file node }
{
    match files.get(file as usize) {
        Some(graph) => graph.is_reference(node),
        None => false,
    }
}

/// Tells that each file's graph is checked, which each says of itself.
fn are_checked(files: &[FileGraph])
    ensures { All IsChecked files.now }
{
    for graph in files {
        graph.node_count();
    }
}
