ghost use Rattle.std.specs.Prelude.{◌≡◌, ◌<◌, ◌^◌, ◌∷◌, [], ◌++◌, ◌&&◌, length, nat_le, All, OnOk};
ghost use Rattle.whole_search.specs.{Walk.{out}, Open.{runs_of}, Query.{IsOpenIn, longer_in}};

use crate::edges::edges_out;
use crate::open::{Open, keeps_straight};
use crate::query::Query;
use partial_path::{Bounds, Config, EdgeAt, step};
use std::alloc::{AllocError, Global};

/// Adds the straight runs of one edge more, by file and then by position. The stacks are copied for each
/// edge but the last, to which they are moved.
pub fn push_longer(
    alloc: Global,
    query: &Query,
    reached: Open,
    stack: &mut Vec<Open>,
) -> Result<(), AllocError>
    requires files { length query.now.files.now < 2 ^ 32 }
    requires reached { IsOpenIn query.now reached }
    requires stack { All (IsOpenIn query.now) stack.old.items }
    ensures stack { OnOk result (All (IsOpenIn query.now) stack.new.items) }
    ensures longer { OnOk result (runs_of stack.new.items ≡ runs_of stack.old.items
        ++ longer_in query.now reached (out query.now.files.now reached.at.spot)) }
{
    let mut edges = edges_out(alloc, query.files, reached.at.spot)?;
    let Some(last) = edges.pop() else {
        return Ok(());
    };
    follow_each(alloc, query, &reached, &edges, stack)?;
    follow(alloc, query, reached, last, stack)
}

/// Adds the straight runs that are longer by one of these edges.
fn follow_each(
    alloc: Global,
    query: &Query,
    reached: &Open,
    edges: &[EdgeAt],
    stack: &mut Vec<Open>,
) -> Result<(), AllocError>
    requires reached { IsOpenIn query.now reached.now }
    requires stack { All (IsOpenIn query.now) stack.old.items }
    ensures stack { OnOk result (All (IsOpenIn query.now) stack.new.items) }
    ensures longer { OnOk result (runs_of stack.new.items
        ≡ runs_of stack.old.items ++ longer_in query.now reached.now edges.now) }
{
    for edge in edges {
        follow(alloc, query, reached.copy(alloc)?, *edge, stack)?;
    }
    Ok(())
}

/// Adds the run that is longer by this edge, where the edge can be followed and leaves the run straight.
fn follow(
    alloc: Global,
    query: &Query,
    reached: Open,
    edge: EdgeAt,
    stack: &mut Vec<Open>,
) -> Result<(), AllocError>
    requires reached { IsOpenIn query.now reached }
    requires stack { All (IsOpenIn query.now) stack.old.items }
    ensures stack { OnOk result (All (IsOpenIn query.now) stack.new.items) }
    ensures longer { OnOk result (runs_of stack.new.items
        ≡ runs_of stack.old.items ++ longer_in query.now reached (edge ∷ [])) }
{
    let Some(next) = step(alloc, query.files, reached.at, edge)? else {
        return Ok(());
    };
    let edges = reached.run.edges();
    if !keeps_straight(alloc, query.files, query.start, edges, edge, &next)? {
        return Ok(());
    }
    let run = reached.run.with(edge)?;
    let bounded = stays_bounded(query.bounds, reached.bounded, run.len(), &next);
    stack.push(Open {
        run,
        at: next,
        bounded,
    })?;
    Ok(())
}

/// Whether a run stays within the bounds with its last edge, where it was before, now that it has so many
/// edges and stands here.
fn stays_bounded(bounds: Bounds, was: bool, edges: usize, at: &Config) -> bool
    ensures { result ≡ (was
        && (nat_le edges bounds.edges && nat_le (length at.now.stacks.symbols) bounds.depth)) }
{
    was && edges <= bounds.edges as usize && at.stacks.symbols.len() <= bounds.depth as usize
}
