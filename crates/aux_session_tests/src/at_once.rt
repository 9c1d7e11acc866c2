//! That the jobs of one line run at once: documents of a commit, and references that are asked.
ghost use Rattle.std.specs.Prelude.{◌≡◌, ◌<◌};

use crate::gated::{Counts, HELLO, counted};
use graph_nodes::Steps;
use nav_io::Gate;
use nav_session::Desk;
use std::alloc::Global;
use std::marker::Brand;
use std::sync::atomic::{AtomicU64, Ordering};
use std::sync::ledger::{Blank, Ledger};
use std::test::Fail;
use std::thread::{Threads, available_parallelism, yield_now};
use version_board::PlainBoard;

/// A gate at which each job waits until a second one has begun, for so many turns at most.
#[derive(Drop)]
struct Meeting {
    begun: AtomicU64,
    missed: AtomicU64,
}

/// How often a job looks for the other one.
const TURNS: u32 = 1_000_000;

impl Gate for Meeting {
    fn enter(&self, _job: usize) {
        self.begun.fetch_add(1, Ordering::SeqCst);
        for _ in 0..TURNS {
            if self.begun.load(Ordering::SeqCst) >= 2 {
                return;
            }
            yield_now();
        }
        self.missed.fetch_add(1, Ordering::SeqCst);
    }

    fn leave(&self, _job: usize) {}
}

impl Counts for Meeting {
    fn new() -> Meeting {
        Meeting {
            begun: AtomicU64::new(0),
            missed: AtomicU64::new(0),
        }
    }

    /// How many jobs met no other one.
    fn count(&self) -> u64 {
        self.missed.load(Ordering::SeqCst)
    }
}

/// A commit of two documents, of which the graph has two references.
const COMMIT: &str =
    r#"{"do":"commit","edits":[{"put":"a.sg.json","text":"{\"nodes\":[{\"kind\":\"push\",\"symbol\":\"x\",\"reference\":true},{\"kind\":\"push\",\"symbol\":\"x\",\"reference\":true},{\"kind\":\"pop\",\"symbol\":\"x\",\"definition\":true}],\"edges\":[[0,2,0],[1,2,0]]}"},{"put":"b.py","text":"y = 1"}]}"#;

const REFERENCES: &str = r#"{"do":"references","path":"a.sg.json","node":2}"#;

/// How many jobs of the commit, and how many of the references, met no other one.
fn missed_on<R: Threads + Sync, L: Ledger>(
    rt: &R,
    alloc: Global,
    blank: Blank,
) -> Result<(u64, u64), Fail>
    requires name { blank.name ≡ L.name }
    requires parts { blank.parts ≡ L.parts }
    requires some { 0 < blank.parts }
{
    let mut board = PlainBoard::new(alloc)?;
    let mut desk = Desk::new(alloc);
    let mut steps = Steps::<L>::new(blank);
    counted::<Meeting, _, _, _>(rt, alloc, &mut desk, &mut board, HELLO, &mut steps)?;
    let indexed = counted::<Meeting, _, _, _>(
        rt, alloc, &mut desk, &mut board, COMMIT, &mut steps,
    )?;
    let asked = counted::<Meeting, _, _, _>(
        rt, alloc, &mut desk, &mut board, REFERENCES, &mut steps,
    )?;
    Ok((indexed, asked))
}

fn missed<R: Threads + Sync>(rt: &R, alloc: Global) -> Result<(u64, u64), Fail> {
    missed_on::<_, Brand>(rt, alloc, Blank::new(1))
}

/// On one processor there is one thread, so the first job meets no other one.
#[test]
fn documents_and_references_are_worked_on_at_once(rt: HostRuntime) -> Result<(), Fail> {
    let lonely = u64::from(available_parallelism(&rt)?.get() == 1);
    assert_eq!(rt; missed(&rt, rt.alloc())?, (lonely, lonely));
    Ok(())
}
