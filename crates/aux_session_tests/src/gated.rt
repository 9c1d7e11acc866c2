//! A line that is answered at a gate which counts.
ghost use Rattle.std.specs.Prelude.{OnOk};
ghost use Rattle.nav_session.specs.Desks.{HasItsView};

use graph_nodes::Steps;
use nav_io::Gate;
use nav_session::{Desk, Means, answer_line};
use std::alloc::Global;
use std::sync::ledger::Ledger;
use std::test::Fail;
use std::thread::Threads;
use version_board::Commits;

/// A gate that counts something of the jobs that come to it.
pub trait Counts: Gate + Sync + Drop {
    /// Where no job has come yet.
    fn new() -> Self;

    /// What was counted.
    fn count(&self) -> u64;
}

/// What a new gate counts of the line's jobs.
pub fn counted<G: Counts, R: Threads + Sync, B: Commits<R>, L: Ledger>(
    rt: &R,
    alloc: Global,
    desk: &mut Desk,
    board: &mut B,
    line: &str,
    steps: &mut Steps<L>,
) -> Result<u64, Fail>
    requires view { HasItsView desk.old (B.log board.old) (B.pin_at board.old) }
    ensures view { OnOk result (HasItsView desk.new (B.log board.new) (B.pin_at board.new)) }
{
    let gate = G::new();
    let means = Means {
        rt,
        alloc,
        gate: &gate,
    };
    answer_line(&means, desk, board, line.as_bytes(), steps)?;
    Ok(gate.count())
}

/// The operator's first line.
pub const HELLO: &str = r#"{"do":"hello","user":"operator"}"#;
