//! Which paths a list of files offers to a symbol stack, asked as any source of paths is.
use crate::paths::paths_in;
use aux_graph_text::{files_of, stacks_of};
use partial_path::{FileList, PathSource, Spot, Start, StoredPath};
use stacks_vars::{LentStack, NodeAt};
use std::alloc::Global;
use std::test::Fail;

/// Two files. Of the first, five paths lead from the root: to pop `a`, to pop `b`, to pop `x` and `y`, to an
/// exported scope, and to pop `x`; and one that pops `q` seven times. Of the second, two lead from the root,
/// and two from an exported scope.
const FILES: &str =
    "pop a D; pop b D; pop x; pop y D; scope E; pop x D; pop q *6; pop q D | root>0, root>1, root>2, 2>3, root>4, root>5, root>6, 6-12 & scope E; pop a D; pop b D | root>0, 0>1, 0>2, root>1";

/// The paths of the files that the text stands for.
fn listed(alloc: Global, text: &str) -> Result<FileList, Fail> {
    let mut list = FileList::new(alloc);
    for graph in files_of(alloc, text)? {
        let Ok(file) = paths_in(alloc, graph) else {
            return Err(Fail::new("the paths weren't found"));
        };
        if list.len() > 100 {
            return Err(Fail::new("there are too many files"));
        }
        list.push(file)?;
    }
    Ok(list)
}

/// The paths that are offered there to these symbols, in the order in which they are given.
fn offered<P: PathSource>(
    alloc: Global,
    source: &P,
    start: Start,
    symbols: &LentStack<'_>,
) -> Result<String, Fail> {
    let mut text = String::new(alloc);
    let mut at = source.offers(&start, symbols);
    for _ in 0..100 {
        let Some((file, path, next)) = source.next_offer(symbols, at) else {
            break;
        };
        push_path(alloc, &mut text, file, &path)?;
        at = next;
    }
    Ok(text)
}

/// Puts a path behind the text, as its file and the positions of its edges: ` 0:2+3`.
fn push_path(
    alloc: Global,
    text: &mut String,
    file: u32,
    path: &StoredPath<'_>,
) -> Result<(), Fail> {
    text.push_str(format!(in alloc; " {file}")?.as_str())?;
    let mut mark = ':';
    for edge in path.edge_numbers() {
        let number = *edge;
        text.push_str(format!(in alloc; "{mark}{number}")?.as_str())?;
        mark = '+';
    }
    Ok(())
}

/// The start that `root` stands for, or a text such as `1/0`: after node 0 of file 1.
fn start_of(text: &str) -> Start {
    match text.split_once('/') {
        Some((file, node)) => Start::After(Spot::At(NodeAt {
            file: file.parse::<u32>().unwrap_or(0),
            node: node.parse::<u32>().unwrap_or(0),
        })),
        None => Start::After(Spot::Root),
    }
}

/// A start and the symbols of a stack, and what is offered there.
const OFFERED: &str = r"root | => 0:4 1:0
root a| => 0:4 0:0 1:0 1:3
root ab| => 0:4 0:0 1:0 1:3
root x| => 0:4 0:5 1:0
root xy| => 0:4 0:5 0:2+3 1:0
root xa| => 0:4 0:5 1:0
root zab| => 0:4 1:0
root qqqqq| => 0:4 1:0
root qqqqqq| => 0:4 0:6+7+8+9+10+11+12 1:0
root qqqqqqa| => 0:4 0:6+7+8+9+10+11+12 1:0
1/0 | =>
1/0 b| => 1:2
1/0 ab| => 1:1
0/4 a| =>
0/0 a| =>
7/0 a| =>";

/// The row with what is offered in truth.
fn told(alloc: Global, files: &FileList, row: &str) -> Result<String, Fail> {
    let (asked, _) = row.split_once(" =>").unwrap_or((row, ""));
    let (start, stack) = asked.split_once(' ').unwrap_or((asked, ""));
    let stacks = stacks_of(alloc, stack)?;
    let symbols = LentStack::lending(alloc, &stacks.symbols)?;
    let found = offered(alloc, files, start_of(start), &symbols)?;
    Ok(format!(in alloc; "{asked} =>{}", found.as_str())?)
}

#[test]
fn paths_are_offered_by_the_whole_stack(rt: HostRuntime) -> Result<(), Fail> {
    let files = listed(rt.alloc(), FILES)?;
    for row in OFFERED.split('\n') {
        assert_eq!(rt; told(rt.alloc(), &files, row)?.as_str(), row);
    }
    Ok(())
}
