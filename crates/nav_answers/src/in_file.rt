//! The stored paths at a start that is in one file, among the files that a user sees.

ghost use Rattle.std.specs.Prelude.{◌≡◌, [], ◌∷◌, slice_get, option_copied, filter, false, MatchOption};
ghost use Rattle.partial_path.specs.{Inside.{file_of, start_inside}, Offers.{offers_here, is_shared}, Sources.{asks_rule, rules_from, rules_offered}, Spots.{node_at}};
ghost use Rattle.root_index.specs.Offers.{files_of};

use crate::source::ViewSource;
use partial_path::{FileOffers, ListOffers, Spot, Start, StoredPath, StoredPaths, asks};
use stacks_vars::{LentStack, NodeAt, Symbol};

/// The path at place `k` of those that begin at the start, which is in the file of this node, and can be met with that
/// symbol in front.
pub(crate) fn path_inside<'a>(
    source: &ViewSource<'a>,
    start: Start,
    node: NodeAt,
    first: Option<&Symbol>,
    k: usize,
) -> Option<(u32, StoredPath<'a>)>
    requires alone { is_shared start ≡ false }
    requires file { node.file ≡ file_of start }
    ensures { result
        ≡ slice_get (rules_from (files_of source.now.rows) start (option_copied first.entry)) k }
{
    source.are_sources();
    let file = source.file(node.file as usize)?;
    let path = asked(&file.paths_from(inside(start)), first, k)?;
    Some((node.file, path))
}

/// The path at place `k` of the run, of those that can be met with that symbol in front.
fn asked<'a>(run: &StoredPaths<'a>, first: Option<&Symbol>, k: usize) -> Option<StoredPath<'a>>
    ensures { result ≡ slice_get (filter (asks_rule (option_copied first.entry)) run.now) k }
{
    let mut left = k;
    for place in 0..run.len() {
        let path = run.at(place);
        if !asks(&path, first) {
            continue;
        }
        if left == 0 {
            return Some(path);
        }
        left -= 1;
    }
    None
}

/// Before the first path that is offered at the start, which is in the file of this node.
pub(crate) fn offers_inside(
    source: &ViewSource<'_>,
    start: Start,
    node: NodeAt,
    _symbols: &LentStack<'_>,
) -> ListOffers
    requires alone { is_shared start ≡ false }
    requires file { node.file ≡ file_of start }
    ensures { offers_here (files_of source.now.rows) _symbols.now result
        ≡ rules_offered (files_of source.now.rows) start _symbols.now }
{
    source.are_sources();
    ListOffers {
        file: node.file as usize,
        inside: FileOffers::at(inside(start)),
    }
}

/// The path that comes next in a look-up in one file, with the file's number, and where the look-up stands after it.
pub(crate) fn next_inside<'a>(
    source: &ViewSource<'a>,
    symbols: &LentStack<'_>,
    at: ListOffers,
) -> Option<(u32, StoredPath<'a>, ListOffers)>
    ensures { MatchOption result (offers_here (files_of source.now.rows) symbols.now at ≡ [])
        (λ found. offers_here (files_of source.now.rows) symbols.now at
        ≡ (found.0, found.1) ∷ offers_here (files_of source.now.rows) symbols.now found.2) }
{
    let file = source.file(at.file)?;
    match file.next_offer(symbols, at.inside) {
        Some((path, inside)) => {
            let after = ListOffers {
                file: at.file,
                inside,
            };
            Some((at.file as u32, path, after))
        }
        None => None,
    }
}

/// The start by the numbers of its own file.
fn inside(start: Start) -> Start
    ensures { result ≡ start_inside start }
{
    match start {
        Start::Before(node) => Start::Before(in_file_0(node)),
        Start::After(Spot::At(node)) => Start::After(Spot::At(in_file_0(node))),
        Start::After(Spot::Root) => Start::After(Spot::Root),
    }
}

/// The node at the same position of file 0.
fn in_file_0(node: NodeAt) -> NodeAt
    ensures { result ≡ node_at 0 node.node }
{
    NodeAt {
        file: 0,
        node: node.node,
    }
}
