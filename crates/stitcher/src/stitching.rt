ghost use Rattle.std.specs.Prelude.{◌≡◌, ◌↔◌, [], All, IfOk, OnOk, IsTrue, IsSomeAnd, Some};
ghost use Rattle.graph_nodes.specs.Whole.{is_reference_of};
ghost use Rattle.partial_path.specs.{Spots.{node_at}, Step.{start}, Counted.{IsCrowded, HasLimit}, Sources.{IsSourceFile, graphs_of}};
ghost use Rattle.stitcher.specs.{Answers.{AreCompleteRuns}, Joins.{IsAsked, none_joined}, Opens.{AreAdded, IsEnded, IsExtended, IsOpen, IsOverfull, levels_of, opened}, Trail.{IsStanding, stood}};

use crate::found::{StitchFault, Stitched};
use crate::join::join;
use crate::laws::cutting_laws;
use crate::room::{Room, cut_back};
use crate::search::Search;
use crate::tally::{Progress, Tally};
use crate::trail::{Level, Open, Standing};
use partial_path::{Bounds, PathSource, Spot, Start};
use stacks_vars::NodeAt;

/// The bounded complete runs of a reference of the source's files, each once, in no order that is told, and whether
/// a counted run was left out for its length or depth. It is `Crowded` exactly where more than 8,192 bounded counted
/// runs start at the reference, and else `NoMemory` where memory is refused. The rule of paths is told in
/// `docs/DEFINITIONS.md`.
///
/// No edge is followed: stored paths are joined. A path that is offered is matched against the stacks where it would
/// be joined; only one that applies within the bounds copies them, and once a run past the bounds is known none
/// beyond them is applied. The memory follows the runs that are still to be gone on from, and the kept ones; what the
/// room has of it isn't taken anew.
pub fn stitch<'a, P: PathSource>(
    room: &mut Room<'a>,
    source: &'a P,
    file: u32,
    node: u32,
    bounds: Bounds,
) -> Result<Stitched<'a>, StitchFault>
    requires reference { IsTrue (is_reference_of (graphs_of (P.files source.now)) file node) }
    ensures complete { IfOk result
        (λ found. IsSomeAnd (start (graphs_of (P.files source.now)) (node_at file node))
        (λ c. AreCompleteRuns bounds (graphs_of (P.files source.now)) c found.complete.items)) }
    ensures limit { IfOk result
        (λ found. IsSomeAnd (start (graphs_of (P.files source.now)) (node_at file node))
        (λ c. IsTrue found.limit ↔ HasLimit bounds (graphs_of (P.files source.now)) c)) }
    ensures crowded { result ≡ Err StitchFault.Crowded
        → IsSomeAnd (start (graphs_of (P.files source.now)) (node_at file node))
        (IsCrowded bounds (graphs_of (P.files source.now))) }
    ensures not_crowded { OnOk result (IsSomeAnd (start (graphs_of (P.files source.now))
        (node_at file node)) (λ c. ¬ IsCrowded bounds (graphs_of (P.files source.now)) c)) }
{
    let search = Search {
        source,
        node: NodeAt { file, node },
        bounds,
    };
    let tally = join_all(room, &search)?;
    Ok(Stitched {
        complete: tally.complete,
        limit: tally.limit,
    })
}

/// Joins paths to the reference until none is left to be joined, and tells what was found.
fn join_all<'a, P: PathSource>(
    room: &mut Room<'a>,
    search: &Search<'a, P>,
) -> Result<Tally<'a>, StitchFault>
    requires begins { start (graphs_of search.now.files) search.now.node ≡ Some search.now.start }
    ensures ended { IfOk result (λ tally. IsEnded search.now tally) }
    ensures crowded { result ≡ Err StitchFault.Crowded
        → IsCrowded search.now.bounds (graphs_of search.now.files) search.now.start }
{
    cutting_laws();
    are_sources(search);
    let mut progress = Progress {
        tally: Tally::with(room.take_complete()),
        work: room.take_work(),
    };
    let mut trail = room.take_trail();
    begin(room, search, &mut progress)?;
    while let Some(open) = progress.work.pop() {
        advance(room, search, open, &mut trail, &mut progress)?;
    }
    room.keep(trail, progress.work);
    Ok(progress.tally)
}

/// Tells that the source has checked graphs with their path sets, which each look-up says.
fn are_sources<P: PathSource>(search: &Search<'_, P>)
    ensures { All IsSourceFile search.now.files }
{
    let start = Start::Before(search.node);
    search.source.path_from(&start, None, 0);
}

/// Joins each path that is offered before the reference, and notes what comes of them.
fn begin<'a, P: PathSource>(
    room: &mut Room<'a>,
    search: &Search<'a, P>,
    progress: &mut Progress<'a>,
) -> Result<(), StitchFault>
    requires asked { IsAsked search.now }
    ensures extended { OnOk result
        (IsExtended search.now [] (none_joined search.now) progress.old progress.new) }
    ensures added { OnOk result (AreAdded search.now [] progress.old progress.new) }
    ensures crowded { result ≡ Err StitchFault.Crowded
        → IsOverfull search.now (none_joined search.now) progress.old.tally.counted }
{
    let mut at = room.take()?;
    at.put(Spot::At(search.node));
    let begin = Start::Before(search.node);
    let here = Standing {
        trail: &[],
        at: &at,
        begin,
        edges: 0,
    };
    extend(room, search, &here, progress)?;
    room.give(at);
    Ok(())
}

/// Goes on from an open run: the trail is cut back to where the run left it and gets its last path, and each path that
/// is offered where that one landed is joined.
fn advance<'a, P: PathSource>(
    room: &mut Room<'a>,
    search: &Search<'a, P>,
    from: Open<'a>,
    trail: &mut Vec<Level<'a>>,
    progress: &mut Progress<'a>,
) -> Result<(), StitchFault>
    requires asked { IsAsked search.now }
    requires open { IsOpen search.now trail.old.items from }
    ensures trail { OnOk result (trail.new.items ≡ levels_of trail.old.items from.entry) }
    ensures extended { OnOk result (IsExtended search.now trail.new.items
        (opened trail.old.items from.entry) progress.old progress.new) }
    ensures added { OnOk result (AreAdded search.now trail.new.items progress.old progress.new) }
    ensures crowded { result ≡ Err StitchFault.Crowded → IsOverfull search.now
        (opened trail.old.items from.entry) progress.old.tally.counted }
{
    let depth = from.depth;
    let edges = from.edges;
    cut_back(room, trail, depth);
    trail.reserve(1)?;
    trail.push_reserved(from.level);
    let at = &trail[depth].at;
    let begin = Start::After(at.spot());
    let here = Standing {
        trail,
        at,
        begin,
        edges,
    };
    extend(room, search, &here, progress)
}

/// Joins each path that is offered where the search stands, and notes what comes of them.
fn extend<'a, P: PathSource>(
    room: &mut Room<'a>,
    search: &Search<'a, P>,
    here: &Standing<'_, 'a>,
    progress: &mut Progress<'a>,
) -> Result<(), StitchFault>
    requires here { IsStanding search.now here.now }
    ensures extended { OnOk result
        (IsExtended search.now here.now.trail.now (stood here.now) progress.old progress.new) }
    ensures added { OnOk result (AreAdded search.now here.now.trail.now progress.old progress.new) }
    ensures crowded { result ≡ Err StitchFault.Crowded
        → IsOverfull search.now (stood here.now) progress.old.tally.counted }
{
    let source = search.source;
    let symbols = here.at.symbols();
    let mut next = source.offers(&here.begin, symbols);
    while let Some(found) = source.next_offer(symbols, next) {
        next = found.2;
        join(room, search, here, found.0, &found.1, progress)?;
    }
    Ok(())
}
