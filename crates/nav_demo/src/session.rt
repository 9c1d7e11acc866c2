//! The session of a made tree: the requests that commit it, and then those that query it.
ghost use Rattle.std.specs.Prelude.{◌≡◌, ◌≤◌, ℕ, IfOk, OnOk, codes};
ghost use Rattle.nav_proto.specs.declared.request.Request.TheVariants as requests;
ghost use Rattle.nav_session.specs.Desks.{HasItsView, GoesOn, moment};
ghost use Rattle.nav_demo.specs.{MadeTree.{committing, queries, query}, Inside.{Answered, Totalled}};

use crate::graph::path;
use crate::totals::Totals;
use crate::tree::Tree;
use graph_nodes::Steps;
use nav_io::Unguarded;
use nav_proto::{Bounds, Point, Request};
use nav_session::{Desk, Means, reply_to};
use std::alloc::{AllocError, Global};
use std::sync::ledger::Ledger;
use std::thread::Threads;
use version_board::Commits;
use version_tree::UserText;

/// The user that may change a version.
const OPERATOR: &str = "operator";

/// The request by which the operator names itself. The one error is want of memory.
fn hello(alloc: Global) -> Result<Request, AllocError>
    ensures { IfOk result (λ request. request ≡ requests.Hello (codes "operator")) }
{
    Ok(Request::Hello {
        user: UserText::of(alloc, OPERATOR)?,
    })
}

/// The request for the definitions of the reference in file k. The one error is want of memory.
fn query(alloc: Global, k: u32) -> Result<Request, AllocError>
    ensures { IfOk result (λ request. request ≡ query k) }
{
    Ok(Request::Define {
        path: path(alloc, k)?,
        at: Point::Node(1),
        bounds: Bounds::usual(),
    })
}

/// Names the operator, and commits the files of the tree, 64 with each request, the last one with the rest. The one
/// error is want of memory.
pub(crate) fn commit_all<R: Threads + Sync, B: Commits<R>, L: Ledger>(
    rt: &R,
    alloc: Global,
    desk: &mut Desk,
    board: &mut B,
    files: u32,
    start: u32,
    steps: &mut Steps<L>,
) -> Result<(), AllocError>
    requires view { HasItsView desk.old (B.log board.old) (B.pin_at board.old) }
    ensures goes_on { GoesOn (moment (B.seat board.old) (B.log board.old)
        (B.pin_at board.old) desk.old)
        (moment (B.seat board.new) (B.log board.new) (B.pin_at board.new) desk.new) }
    ensures answered { OnOk result (Answered (committing files start)
        (moment (B.seat board.old) (B.log board.old) (B.pin_at board.old) desk.old)
        (moment (B.seat board.new) (B.log board.new) (B.pin_at board.new) desk.new)) }
{
    let mut tree = Tree::new(files, start);
    let means = Means {
        rt,
        alloc,
        gate: &Unguarded,
    };
    reply_to(&means, desk, board, hello(alloc)?, steps)?;
    for _ in 0..tree.commit_count() {
        let request = tree.commit(alloc)?;
        reply_to(&means, desk, board, request, steps)?;
    }
    Ok(())
}

/// Asks for the definitions of the reference in each of so many files, and adds the replies up. The one error is want of
/// memory.
pub(crate) fn query_all<R: Threads + Sync, B: Commits<R>, L: Ledger>(
    rt: &R,
    alloc: Global,
    desk: &mut Desk,
    board: &mut B,
    files: u32,
    steps: &mut Steps<L>,
) -> Result<Totals, AllocError>
    requires view { HasItsView desk.old (B.log board.old) (B.pin_at board.old) }
    ensures goes_on { GoesOn (moment (B.seat board.old) (B.log board.old)
        (B.pin_at board.old) desk.old)
        (moment (B.seat board.new) (B.log board.new) (B.pin_at board.new) desk.new) }
    ensures answered { IfOk result (λ totals. Totalled files (queries files)
        (moment (B.seat board.old) (B.log board.old) (B.pin_at board.old) desk.old)
        (moment (B.seat board.new) (B.log board.new) (B.pin_at board.new) desk.new) totals) }
{
    let means = Means {
        rt,
        alloc,
        gate: &Unguarded,
    };
    let mut totals = Totals::nothing();
    for k in 0..files {
        let request = query(alloc, k)?;
        let reply = reply_to(&means, desk, board, request, steps)?;
        totals = totals.with(alloc, files, k, &reply)?;
    }
    Ok(totals)
}
