//! The command that serves a session on a board.
ghost use Rattle.std.specs.Prelude.{◌≡◌, IsTrue};
ghost use Rattle.nav_session.specs.Serving.{Serves, ends_session, ends_unhindered};
ghost use Rattle.nav_serve.specs.Outside.{EndsSo, seen_at};

use graph_nodes::Steps;
use nav_io::{Sink, Source, Unguarded};
use nav_session::{Desk, Means, serve_session};
use std::sync::ledger::Ledger;
use std::thread::Threads;
use version_board::Commits;

/// Serves one session on this board, with a store of its own that is empty at first, and gives
/// its status: one of those of `serve_session`.
pub fn run_session<R: Threads + Sync, S: Source, K: Sink, B: Commits<R>, L: Ledger>(
    means: &Means<'_, R, Unguarded>,
    source: &mut S,
    sink: &mut K,
    board: &mut B,
    steps: &mut Steps<L>,
) -> u8
    ensures serves { Serves (B.seat board.old) (B.log board.old) (B.log board.new)
        (S.left source.old) (S.left source.new) (K.held sink.old) (K.held sink.new) result }
    ensures seat { B.seat board.new ≡ B.seat board.old }
    ensures ends { EndsSo ends_session (λ status. IsTrue (ends_unhindered status))
        (seen_at S.Source K.Sink source.old sink.old) (seen_at S.Source K.Sink source.new sink.new)
        result }
{
    let mut desk = Desk::new(means.alloc);
    serve_session(means, &mut desk, board, source, sink, steps)
}
