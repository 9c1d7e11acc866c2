//! That a desk which shares keeps no more than its part: a document beyond that is indexed again where it comes again.
ghost use Rattle.std.specs.Prelude.{◌≡◌, ◌<◌, ◌≤◌};

use crate::gated::{Counts, HELLO, counted};
use graph_nodes::Steps;
use nav_io::Gate;
use nav_session::Desk;
use std::alloc::Global;
use std::marker::Brand;
use std::sync::atomic::{AtomicU64, Ordering};
use std::sync::ledger::{Blank, Ledger};
use std::test::Fail;
use std::thread::Threads;
use version_board::PlainBoard;

/// A gate that counts the jobs, of which a commit has one for each document that it indexes.
#[derive(Drop)]
struct Counting {
    jobs: AtomicU64,
}

impl Gate for Counting {
    fn enter(&self, _job: usize) {
        self.jobs.fetch_add(1, Ordering::SeqCst);
    }

    fn leave(&self, _job: usize) {}
}

impl Counts for Counting {
    fn new() -> Counting {
        Counting {
            jobs: AtomicU64::new(0),
        }
    }

    /// How many jobs there were.
    fn count(&self) -> u64 {
        self.jobs.load(Ordering::SeqCst)
    }
}

/// A commit of a document of 5 bytes, whose paths weigh something besides.
const COMMIT: &str = r#"{"do":"commit","edits":[{"put":"b.py","text":"y = 1"}]}"#;

/// How many documents are indexed of a commit, and of the same one once more, at one of so many desks that share.
fn indexed_on<R: Threads + Sync, L: Ledger>(
    rt: &R,
    alloc: Global,
    desks: u64,
    blank: Blank,
) -> Result<(u64, u64), Fail>
    requires desks { 1 ≤ desks }
    requires name { blank.name ≡ L.name }
    requires parts { blank.parts ≡ L.parts }
    requires some { 0 < blank.parts }
{
    let mut board = PlainBoard::new(alloc)?;
    let mut desk = Desk::sharing(alloc, desks);
    let mut steps = Steps::<L>::new(blank);
    counted::<Counting, _, _, _>(rt, alloc, &mut desk, &mut board, HELLO, &mut steps)?;
    let first = counted::<Counting, _, _, _>(rt, alloc, &mut desk, &mut board, COMMIT, &mut steps)?;
    let again = counted::<Counting, _, _, _>(rt, alloc, &mut desk, &mut board, COMMIT, &mut steps)?;
    Ok((first, again))
}

fn indexed<R: Threads + Sync>(rt: &R, alloc: Global, desks: u64) -> Result<(u64, u64), Fail>
    requires { 1 ≤ desks }
{
    indexed_on::<_, Brand>(rt, alloc, desks, Blank::new(1))
}

/// A desk alone keeps it, and one of 12,000,000, whose part is 2, doesn't.
#[test]
fn a_desk_keeps_no_more_than_its_part(rt: HostRuntime) -> Result<(), Fail> {
    assert_eq!(rt; indexed(&rt, rt.alloc(), 1)?, (1, 0));
    assert_eq!(rt; indexed(&rt, rt.alloc(), 12_000_000)?, (1, 1));
    Ok(())
}
