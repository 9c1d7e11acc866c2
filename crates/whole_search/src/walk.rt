ghost use Rattle.std.specs.Prelude.{◌≡◌, ◌≤◌, ◌<◌, ◌^◌, ◌&&◌, ◌||◌, not, length, All, IsTrue, IfOk, OnOk};
ghost use Rattle.partial_path.specs.declared.bounds.TheConstants.{MAX_RUNS};
ghost use Rattle.whole_search.specs.{Leads.{live_at}, Walk.{IsLive, longest}, Open.{IsNoted, open_lands}, Query.{IsOpenIn, complete_met, counted_met, meets_past, goes_on_in, IsFollowedIn}, Refusals.{IsDeadEnd}};

use crate::follow::push_longer;
use crate::found::SearchFault;
use crate::open::Open;
use crate::query::Query;
use crate::spot::ends_cut;
use crate::tally::Tally;
use crate::watch::{Watch, is_dead_end};
use graph_nodes::MAX_NODES;
use partial_path::Bounds;
use std::alloc::Global;

/// What is found by the runs from the start. Their open ends are kept in a list, so that no depth of a
/// graph takes more of the call stack.
pub fn walk(alloc: Global, query: &Query) -> Result<Tally, SearchFault>
    requires files { length query.now.files.now < 2 ^ 32 }
    requires live { IsLive (live_at query.now.leads.now) query.now.files.now }
    ensures runs { IfOk result (λ tally. tally.runs.items ≡ complete_met query.now) }
    ensures limit { IfOk result (λ tally. tally.limit ≡ meets_past query.now) }
    ensures few { OnOk result (length (counted_met query.now) ≤ MAX_RUNS) }
    ensures crowded { result ≡ Err SearchFault.Crowded → MAX_RUNS < length (counted_met query.now) }
{
    let mut stack = Vec::new(alloc);
    stack.reserve(1)?;
    stack.push_reserved(Open::first(alloc, query.bounds, query.start)?);
    let mut tally = Tally::new(alloc);
    let mut watch = Watch::new(alloc);
    while let Some(reached) = stack.pop() {
        visit(alloc, query, reached, &mut stack, &mut tally, &mut watch)?;
    }
    Ok(tally)
}

/// Notes the run and, where the search goes on from it, adds the straight runs of one edge more. Past the
/// bounds it goes on only until one counted run past them is found, and from a dead end not at all.
fn visit(
    alloc: Global,
    query: &Query,
    reached: Open,
    stack: &mut Vec<Open>,
    tally: &mut Tally,
    watch: &mut Watch,
) -> Result<(), SearchFault>
    requires files { length query.now.files.now < 2 ^ 32 }
    requires live { IsLive (live_at query.now.leads.now) query.now.files.now }
    requires dead_ends { All (IsDeadEnd query.now.files.now) watch.old.dead_ends.kept.items }
    requires reached { IsOpenIn query.now reached }
    requires stack { All (IsOpenIn query.now) stack.old.items }
    requires few { tally.old.counted ≤ MAX_RUNS }
    ensures noted { OnOk result (IsNoted query.now.files.now reached tally.old tally.new) }
    ensures few { OnOk result (tally.new.counted ≤ MAX_RUNS) }
    ensures stack { OnOk result (All (IsOpenIn query.now) stack.new.items) }
    ensures longer { OnOk result
        (IsFollowedIn query.now reached tally.new.limit stack.old.items stack.new.items) }
    ensures dead_ends { OnOk result
        (All (IsDeadEnd query.now.files.now) watch.new.dead_ends.kept.items) }
    ensures full { result ≡ Err SearchFault.Crowded → tally.old.counted ≡ MAX_RUNS }
    ensures crowded { result ≡ Err SearchFault.Crowded
        → IsTrue (open_lands query.now.files.now reached && reached.bounded) }
{
    // Before this run counts: what is settled now had all its runs met without it.
    watch.settle(alloc, query, stack.len(), tally.counted)?;
    tally.note(alloc, query.files, &reached)?;
    if !goes_on(query, &reached, tally.limit) {
        return Ok(());
    }
    if is_dead_end(query, &watch.dead_ends, &reached.at) {
        return Ok(());
    }
    // Before the longer runs are added, which are those from here.
    watch.add(alloc, &reached.at, stack.len(), tally.counted)?;
    push_longer(alloc, query, reached, stack)?;
    Ok(())
}

/// Whether the search goes on from the run, told whether a counted run past the bounds was found.
fn goes_on(query: &Query, reached: &Open, limit: bool) -> bool
    ensures { result ≡ (goes_on_in query.now reached.now && (reached.now.bounded || not limit)) }
{
    reached.run.len() < longest(query.bounds)
        && (reached.bounded || !ends_cut(query.files, reached.run.edges()))
        && query.leads.is_live(reached.at.spot)
        && (reached.bounded || !limit)
}

/// How long a run can get that is gone on with.
fn longest(bounds: Bounds) -> usize
    ensures { result ≡ longest bounds }
{
    bounds.edges as usize + MAX_NODES + 1
}
