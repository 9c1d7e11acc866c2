//! The paths of a list of files that begin at a start and can be met with a symbol in front.

ghost use Rattle.std.specs.Prelude.{◌≡◌, ◌≤◌, ◌+◌, ◌^◌, length, slice_get, option_copied, filter, IfNone, MatchOption, false};
ghost use Rattle.stacks_vars.specs.Same.{node_eq};
ghost use Rattle.partial_path.specs.{Moved.{moved_node, moved_start}, Starts.{start_eq}, Sources.{asks_rule, begins_in, rules_from}};

use crate::config::Spot;
use crate::file_paths::FilePaths;
use crate::rule::Start;
use crate::stored::StoredPath;
use crate::stored_paths::StoredPaths;
use stacks_vars::{NodeAt, Symbol};

/// The path at place `k` of those of the files that begin at the start and can be met with that symbol in
/// front.
pub fn path_of<'a>(
    files: &'a [FilePaths],
    start: Start,
    first: Option<&Symbol>,
    k: usize,
) -> Option<(u32, StoredPath<'a>)>
    requires { length files.now ≤ 2 ^ 32 }
    ensures { result ≡ slice_get (rules_from files.now start (option_copied first.entry)) k }
{
    let mut left = k;
    for number in 0..files.len() {
        let run = run_in(number as u32, &files[number], start);
        if let Some(path) = asked(&run, first, &mut left) {
            return Some((number as u32, path));
        }
    }
    None
}

/// The paths of the file with that number that begin at the start.
fn run_in(number: u32, file: &FilePaths, start: Start) -> StoredPaths<'_>
    ensures { result ≡ filter (begins_in number start) file.now.rules }
{
    match unmoved(number, start) {
        Some(start) => file.paths_from(start),
        None => file.paths().between(0, 0),
    }
}

/// The start within the file with that number; None where it is in no file of that number or later.
fn unmoved(number: u32, start: Start) -> Option<Start>
    ensures { MatchOption result ((s : Start) → start_eq (moved_start number s) start ≡ false)
        (λ here. (s : Start) → start_eq (moved_start number s) start ≡ start_eq s here) }
{
    match start {
        Start::Before(node) => match unmoved_node(number, node) {
            Some(node) => Some(Start::Before(node)),
            None => None,
        },
        Start::After(Spot::At(node)) => match unmoved_node(number, node) {
            Some(node) => Some(Start::After(Spot::At(node))),
            None => None,
        },
        Start::After(Spot::Root) => Some(start),
    }
}

/// The node within the file with that number; None where it is in none of that number or later.
fn unmoved_node(number: u32, node: NodeAt) -> Option<NodeAt>
    ensures { MatchOption result ((n : NodeAt) → node_eq (moved_node number n) node ≡ false)
        (λ here. (n : NodeAt) → node_eq (moved_node number n) node ≡ node_eq n here) }
{
    if node.file < number {
        return None;
    }
    Some(NodeAt {
        file: node.file - number,
        node: node.node,
    })
}

/// The path at place `left` of those that can be met with that symbol in front. Where there is none, `left`
/// falls by their number.
fn asked<'a>(
    run: &StoredPaths<'a>,
    first: Option<&Symbol>,
    left: &mut usize,
) -> Option<StoredPath<'a>>
    ensures found { result
        ≡ slice_get (filter (asks_rule (option_copied first.entry)) run.now) left.old }
    ensures rest { IfNone result (left.new + length
        (filter (asks_rule (option_copied first.entry)) run.now) ≡ left.old) }
{
    for place in 0..run.len() {
        let path = run.at(place);
        if !asks(&path, first) {
            continue;
        }
        if *left == 0 {
            return Some(path);
        }
        *left -= 1;
    }
    None
}

/// Whether the path's precondition asks for no symbol, or for that one first.
pub fn asks(path: &StoredPath<'_>, first: Option<&Symbol>) -> bool
    ensures { result ≡ asks_rule (option_copied first.entry) path.now }
{
    match (path.asked().get(0), first) {
        (None, _) => true,
        (Some(pat), Some(symbol)) => symbol.same(&pat.symbol),
        (Some(_), None) => false,
    }
}
