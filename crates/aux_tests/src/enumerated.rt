//! What no clause says: that paths are found with memory at hand, and how many there are in worked graphs.
mod offers;

use crate::paths::paths_in;
use aux_graph_text::files_of;
use file_paths::PathsFault;
use std::alloc::Global;
use std::test::Fail;

/// The weight and the number of paths of the file that the text stands for, or the number that `Heavy` tells.
fn figures(alloc: Global, text: &str) -> Result<String, Fail> {
    let Some(graph) = files_of(alloc, text)?.pop() else {
        return Err(Fail::new("there is no file"));
    };
    match paths_in(alloc, graph) {
        Ok(file) => {
            let (weight, paths) = (file.weight(), file.paths().len());
            Ok(format!(in alloc; "{weight} {paths}")?)
        }
        Err(PathsFault::Heavy(weight)) => Ok(format!(in alloc; "heavy {weight}")?),
        Err(PathsFault::NoMemory) => Err(Fail::new("memory was refused")),
    }
}

/// Graphs, each with the weight of its file and how many paths the file has, or the number that `Heavy` tells.
const WEIGHTS: &str = r"# A reference is met by a definition of its symbol, and by no other.
push m R; scope; pop m D | 0>1, 1>2 => 3 1
push m R; scope; pop x D | 0>1, 1>2 => 1 0
# A walk goes on past a definition.
push m R; pop m D; pop x D | 0>1, 1>2 => 3 2
# Node 0 is a reference and a turning node: walks start before and after it, and end there.
push m R; scope | 0>1, 1>0 => 6 2
# From the root to a definition, and on to the root.
pop m D | root>0, 0>root => 3 2
# From an exported scope over attached scopes to the jump.
scope *2; scope E; push_scoped p 2; pop_scoped p | 2>3, 3>4, 4>jump => 6 1
# A reference and then so many scopes, two edges from each to the next.
push m R; scope *16 | 0>1, 1-16 *2 => 983041 0
push m R; scope *17 | 0>1, 1-17 *2 => heavy 1000001";

#[test]
fn files_have_weights_and_paths(rt: HostRuntime) -> Result<(), Fail> {
    for row in WEIGHTS.split('\n') {
        if row.starts_with('#') {
            continue;
        }
        let (graph, wanted) = row.split_once(" => ").unwrap_or((row, "no arrow"));
        assert_eq!(rt; figures(rt.alloc(), graph)?.as_str(), wanted, "{graph}");
    }
    Ok(())
}
