ghost use Rattle.std.specs.Prelude.{◌≡◌, ◌≢◌, Err, IfOk};
ghost use Rattle.version_tree.specs.Graphs.{graph_rows};
ghost use Rattle.root_index.specs.Roots.{IsIndexOfView};
ghost use Rattle.nav_answers.specs.{Asking.{definition_named, definitions_named}, Replies.{IsReferencesOfAnyReply}};

use crate::asked_view::AskedView;
use crate::found::{AskFault, At};
use crate::meaning::{Asked, meant};
use crate::over::Over;
use crate::referring::references_to_any;
use crate::rows::hit_of;
use nav_io::Gate;
use partial_path::Bounds;
use std::alloc::{AllocError, Global};
use std::thread::Threads;
use version_tree::{Row, Rows, View};
use whole_search::Hit;

/// Who refers to any of the definitions at these nodes, each of which is named by the path of its file and its
/// position: a row for each reference of the files that are seen that has one of them among its definitions, once in
/// file order. What a row tells of a span plays no part. A row that names no file that is seen, or no definition
/// there, is passed over; where no row names a definition there are no rows, and no reference is asked. Else it is
/// `Crowded` where some reference of the files that are seen has too many runs, whatever it leads to, and `NoMemory`
/// where memory is refused.
///
/// Each reference of the files is asked once, on several threads, as by `references`, however many definitions there
/// are; what was found is kept beside the view and serves the next time, as there.
pub fn references_of_any<R: Threads + Sync, G: Gate + Sync>(
    over: &Over<'_, R, G>,
    seen: &mut AskedView,
    definitions: &[Row],
    bounds: Bounds,
) -> Result<Rows, AskFault>
    requires { IsIndexOfView over.now.index.now seen.old }
    ensures reply { result ≢ Err AskFault.NoMemory
        → IsReferencesOfAnyReply bounds (graph_rows seen.old) definitions.now result }
    ensures same { seen.new ≡ seen.old }
{
    let hits = definitions_named(over.alloc, seen.view(), definitions)?;
    let named = hits.as_slice();
    if named.is_empty() {
        return Ok(Rows::of(Vec::new(over.alloc)));
    }
    match references_to_any(over, seen, named, bounds) {
        Ok(answer) => Ok(answer.rows),
        Err(fault) => Err(fault),
    }
}

/// The definitions at the nodes that the rows name; the one error is want of memory.
fn definitions_named(alloc: Global, view: &View, rows: &[Row]) -> Result<Vec<Hit>, AllocError>
    ensures { IfOk result (λ hits. hits.items ≡ definitions_named (graph_rows view.now) rows.now) }
{
    rows.iter()
        .filter_map(|row| definition_named(view, row))
        .collect(alloc)
}

/// The definition at the node that the row names; None where there is none.
fn definition_named(view: &View, row: &Row) -> Option<Hit>
    ensures { result ≡ definition_named (graph_rows view.now) row.now }
{
    match meant(
        view,
        Asked::Definition,
        row.path.as_str(),
        At::Node(row.node),
    ) {
        Ok(node) => Some(hit_of(node)),
        Err(_) => None,
    }
}
