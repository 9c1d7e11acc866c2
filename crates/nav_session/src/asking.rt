ghost use Rattle.std.specs.Prelude.{◌≡◌};
ghost use Rattle.partial_path.specs.Limits.{IsInRange};
ghost use Rattle.nav_session.specs.{Requests.{at_of}, Desks.{HasItsView, moment_at}, Inside.{Asks, IsFound}};

use crate::desk::Desk;
use crate::means::Means;
use crate::refusals::{callers_reply, query_reply};
use nav_answers::{At, Over};
use nav_io::Gate;
use nav_proto::{Bounds, PlainError, Point, Reply};
use std::alloc::AllocError;
use std::thread::Threads;
use version_board::Pins;
use version_tree::PathText;

/// Where a query stands in its file.
fn at_of(point: Point) -> At
    ensures { result ≡ at_of point }
{
    match point {
        Point::Node(n) => At::Node(n),
        Point::LineColumn(line, column) => At::Point(line, column),
    }
}

/// What is asked of the place in a file.
#[derive(Clone, Copy, Debug)]
pub enum Query {
    /// What the reference there is defined by, within the bounds.
    Define(Bounds),
    /// Who refers to the definition there, within the bounds.
    References(Bounds),
    /// Who refers to the definition there, where only what leads to it decides whether it is refused as crowded.
    Callers,
}

/// The reply to the query, where a user is named: what is found among the files that the user may see of the pinned
/// version. The one error is want of memory.
pub fn ask<R: Threads + Sync, B: Pins, G: Gate + Sync>(
    means: &Means<'_, R, G>,
    desk: &mut Desk,
    board: &B,
    path: &PathText,
    point: Point,
    query: Query,
) -> Result<Reply, AllocError>
    requires view { HasItsView desk.old (B.log board.now) (B.pin_at board.now) }
    ensures asks { Asks result
        (λ log before asker reply after.
        IsFound query log before asker path.now (at_of point) reply after)
        (moment_at B.Pins board.now desk.old) (moment_at B.Pins board.now desk.new) }
{
    if !desk.has_user() {
        return Ok(Reply::Plain(PlainError::NoUser));
    }
    let path = path.as_str();
    let at = at_of(point);
    let Means { rt, alloc, gate } = *means;
    let pinned = board.pinned();
    let mut view = desk.take_view(alloc, &pinned.version)?;
    let over = Over {
        rt,
        alloc,
        index: &pinned.index,
        gate,
    };
    match query {
        Query::Define(bounds) => {
            let found = nav_answers::define(alloc, view.view(), &pinned.index, path, at, bounds);
            desk.keep_view(view);
            query_reply(found)
        }
        Query::References(bounds) => {
            let found = nav_answers::references(&over, &mut view, path, at, bounds);
            desk.keep_view(view);
            query_reply(found)
        }
        Query::Callers => {
            let found = nav_answers::callers(&over, &mut view, path, at);
            desk.keep_view(view);
            callers_reply(found)
        }
    }
}
