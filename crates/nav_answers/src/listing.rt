ghost use Rattle.std.specs.Prelude.{◌≡◌, ◌≤◌, ◌+◌, ◌++◌, drop, length, IfOk, OnOk};
ghost use Rattle.nav_answers.specs.{Asking.{references_from, references_in}, Sources.{graphs_seen}};

use partial_path::FilePaths;
use stacks_vars::NodeAt;
use std::alloc::{AllocError, Global};
use version_tree::View;

/// How many nodes are looked at, at most, before the references among them are added. The room for so many has a kilobyte.
const MOST_AT_ONCE: u32 = 128;

/// All references of the files that are seen, in file order; the one error is want of memory.
pub fn all_references(alloc: Global, view: &View) -> Result<Vec<NodeAt>, AllocError>
    ensures { IfOk result (λ all. all.items ≡ references_from 0 (graphs_seen view.now)) }
{
    let mut all = Vec::with_capacity(alloc, MOST_AT_ONCE as usize)?;
    for number in 0..view.row_count() {
        add_references(view.paths(number).get(), number, &mut all)?;
    }
    Ok(all)
}

/// Adds the references of the file, which has that number.
fn add_references(file: &FilePaths, number: u32, all: &mut Vec<NodeAt>) -> Result<(), AllocError>
    ensures { OnOk result (all.new.items ≡ all.old.items
        ++ references_in number 0 file.now.graph.nodes) }
{
    let mut found = [NodeAt { file: 0, node: 0 }; MOST_AT_ONCE as usize];
    let count = file.node_count();
    let mut from = 0;
    while from < count {
        let end = from + MOST_AT_ONCE.min(count - from);
        add_between(file, number, from, end, &mut found, all)?;
        from = end;
    }
    Ok(())
}

/// Adds the references among the nodes from one position up to another, which are put together in `found` first. Whether a
/// node is one can't be foretold, and a processor that guesses wrong loses more time than a node takes. So nothing is
/// decided by it: each node is put down, and the next one takes its place where it is no reference.
fn add_between(
    file: &FilePaths,
    number: u32,
    from: u32,
    end: u32,
    found: &mut [NodeAt],
    all: &mut Vec<NodeAt>,
) -> Result<(), AllocError>
    requires order { from ≤ end }
    requires inside { end ≤ length file.now.graph.nodes }
    requires room { end ≤ from + length found.old }
    ensures room { length found.new ≡ length found.old }
    ensures added { OnOk result
        (all.new.items ++ references_in number end (drop end file.now.graph.nodes)
        ≡ all.old.items ++ references_in number from (drop from file.now.graph.nodes)) }
{
    let mut count = 0;
    for node in from..end {
        found[count] = NodeAt { file: number, node };
        count += usize::from(file.is_reference(node));
    }
    all.extend_from_slice(&found[..count])
}
