ghost use Rattle.std.specs.Prelude.{◌≡◌, ℕ, ◌+◌, ◌<◌, ◌≤◌, length, All, Err, IfOk, OnOk, slice_index_or, vec_len};
ghost use Rattle.nav_answers.specs.{Asking.{AreFound, AreLinksOf, AreTabled, IsCrowdedAmong, IsDone, IsInShares, IsReferenceIn, IsShareOf, run_of, share_of}, Sources.{graphs_seen}, Twins.{AreKept}};

use crate::asking::Query;
use crate::jobs::add_found;
use crate::links::Links;
use crate::over::Over;
use crate::parts::Parts;
use crate::twins::Searched;
use nav_io::Gate;
use stacks_vars::NodeAt;
use std::alloc::{AllocError, Global};
use std::thread;
use std::thread::Threads;
use stitcher::{Room, StitchFault};

/// The most threads that ask.
const MOST_THREADS: usize = 8;

/// The most references that follow one another and are one thread's: about those of a module, whose paths then stay in one
/// processor's cache.
const MOST_IN_RUN: usize = 128;

/// References that follow one another and are one share's, of so many shares: from one place among all up to another.
#[derive(Clone, Copy)]
struct Run {
    share: usize,
    shares: usize,
    from: usize,
    end: usize,
}

/// What one thread finds of its references, or why it stopped.
type Share = Result<Links, StitchFault>;

/// What is found of these references. Each is a job between `enter` and `leave` of the gate, with its place among them
/// as its number. They are dealt out in runs: with n threads the first one asks the runs 0, n, 2n and so on, the next one
/// the runs 1, n + 1 and so on. Where one of them has a fault, the fault is told once all threads have ended, of
/// those of several the first by the threads' order.
pub fn ask_all<R: Threads + Sync, G: Gate + Sync>(
    over: &Over<'_, R, G>,
    query: &Query,
    all: &[NodeAt],
) -> Result<Parts, StitchFault>
    requires source { query.now.source.now.rows ≡ query.now.view.now }
    requires references { All (IsReferenceIn (graphs_seen query.now.view.now)) all.now }
    ensures found { IfOk result
        (λ parts. AreLinksOf query.now.bounds
        (graphs_seen query.now.view.now) query.now.definitions.now all.now parts) }
    ensures crowded { result ≡ Err StitchFault.Crowded
        → IsCrowdedAmong query.now.bounds (graphs_seen query.now.view.now) all.now }
{
    let mut shares = empty_shares(over.alloc, thread_count(over.rt, all.len()))?;
    ask_shares(over, query, all, &mut shares);
    together(over.alloc, query, all, shares)
}

/// On how many threads so many references are asked: on two for each processor, so that one which other programs slow
/// down leaves its part to the others, but on one where there is one processor; and on no more than there are references.
fn thread_count<R: Threads>(rt: &R, references: usize) -> usize
    ensures some { 0 < result }
    ensures few { result ≤ 8 }
{
    match thread::available_parallelism(rt) {
        Ok(count) if count.get() > 1 => threads_for(count.get(), references),
        _ => 1,
    }
}

/// On how many of so many processors' threads, at least one and at most eight.
fn threads_for(processors: usize, references: usize) -> usize
    ensures some { 0 < result }
    ensures few { result ≤ 8 }
{
    processors
        .saturating_mul(2)
        .min(MOST_THREADS)
        .min(references)
        .max(1)
}

/// So many shares, in which nothing is found yet.
fn empty_shares(alloc: Global, count: usize) -> Result<Vec<Share>, AllocError>
    ensures { IfOk result (λ shares. vec_len shares ≡ count) }
{
    let mut shares = Vec::with_capacity(alloc, count)?;
    for _ in 0..count {
        shares.push(Ok(Links::new(alloc, 0)))?;
    }
    Ok(shares)
}

/// Asks the references, each share on a thread of its own where one can be made.
fn ask_shares<R: Threads + Sync, G: Gate + Sync>(
    over: &Over<'_, R, G>,
    query: &Query,
    all: &[NodeAt],
    shares: &mut [Share],
)
    requires source { query.now.source.now.rows ≡ query.now.view.now }
    requires references { All (IsReferenceIn (graphs_seen query.now.view.now)) all.now }
    requires some { 0 < length shares.old }
    ensures len { length shares.new ≡ length shares.old }
    ensures done { (i : ℕ) (d : _) → i < length shares.old
        → IsDone query.now.bounds
        (graphs_seen query.now.view.now) query.now.definitions.now all.now (length shares.old) i
        (slice_index_or shares.new i d) }
{
    let Over {
        rt,
        alloc,
        gate,
        ..
    } = *over;
    let step = shares.len();
    thread::for_each_mut(
        rt,
        shares,
        step,
        &|first, share| { *share = ask_share(alloc, query, gate, all, first, step) },
    );
}

/// Asks the references of the runs `first`, `first + step` and so on, where `first` is less than `step`. The runs of other
/// shares are passed over as a whole.
fn ask_share<G: Gate>(
    alloc: Global,
    query: &Query,
    gate: &G,
    all: &[NodeAt],
    first: usize,
    step: usize,
) -> Share
    requires source { query.now.source.now.rows ≡ query.now.view.now }
    requires references { All (IsReferenceIn (graphs_seen query.now.view.now)) all.now }
    requires step { 0 < step }
    ensures { IsDone query.now.bounds
        (graphs_seen query.now.view.now) query.now.definitions.now all.now step first result }
{
    let mut room = Room::new(alloc);
    let mut links = Links::new(alloc, query.most / step);
    let mut searched = Searched::new(alloc);
    let len = run_of(all.len(), step);
    let mut turn = 0;
    let mut from = 0;
    while from < all.len() {
        let end = from + len.min(all.len() - from);
        if turn % step == first {
            let run = Run {
                share: first,
                shares: step,
                from,
                end,
            };
            ask_run(&mut room, query, gate, all, run, &mut searched, &mut links)?;
        }
        from = end;
        turn += 1;
    }
    // Each thread puts its own in order, so that what is left to do for all of them is to merge.
    Ok(links.in_order())
}

/// Asks the references of a run, each of them one of its share's, those of the share before it being asked.
fn ask_run<'a, G: Gate>(
    room: &mut Room<'a>,
    query: &Query<'a>,
    gate: &G,
    all: &[NodeAt],
    run: Run,
    searched: &mut Searched<'a>,
    links: &mut Links,
) -> Result<(), StitchFault>
    requires source { query.now.source.now.rows ≡ query.now.view.now }
    requires references { All (IsReferenceIn (graphs_seen query.now.view.now)) all.now }
    requires inside { run.end ≤ length all.now }
    requires order { run.from ≤ run.end }
    requires mine { (k : ℕ) → run.from ≤ k → k < run.end
        → share_of all.now run.shares k ≡ run.share }
    requires kept { AreKept query.now.bounds
        (graphs_seen query.now.view.now) searched.old.list.items }
    requires before { AreFound query.now.bounds
        (graphs_seen query.now.view.now) query.now.definitions.now
        (IsShareOf all.now run.shares run.share run.from) links.old }
    ensures found { OnOk result (AreFound query.now.bounds
        (graphs_seen query.now.view.now) query.now.definitions.now
        (IsShareOf all.now run.shares run.share run.end) links.new) }
    ensures kept { OnOk result (AreKept query.now.bounds
        (graphs_seen query.now.view.now) searched.new.list.items) }
    ensures crowded { result ≡ Err StitchFault.Crowded
        → IsCrowdedAmong query.now.bounds (graphs_seen query.now.view.now) all.now }
{
    for job in run.from..run.end {
        add_found(room, query, gate, all, job, searched, links)?;
        links.hold(room.alloc(), query.definitions)?;
    }
    Ok(())
}

/// How many references that follow one another are one share's, of so many in so many shares: so few that a share has some
/// four runs, since those of one file often cost alike.
fn run_of(references: usize, shares: usize) -> usize
    requires { 0 < shares }
    ensures value { result ≡ run_of references shares }
    ensures some { 0 < result }
{
    (references / shares / 4).min(MOST_IN_RUN).max(1)
}

/// What the shares tell together.
fn together(
    alloc: Global,
    query: &Query,
    all: &[NodeAt],
    shares: Vec<Share>,
) -> Result<Parts, StitchFault>
    requires some { 0 < vec_len shares }
    requires done { (i : ℕ) (d : _) → i < vec_len shares
        → IsDone query.now.bounds
        (graphs_seen query.now.view.now) query.now.definitions.now all.now (vec_len shares) i
        (slice_index_or shares.items i d) }
    ensures found { IfOk result
        (λ parts. AreLinksOf query.now.bounds
        (graphs_seen query.now.view.now) query.now.definitions.now all.now parts) }
    ensures crowded { result ≡ Err StitchFault.Crowded
        → IsCrowdedAmong query.now.bounds (graphs_seen query.now.view.now) all.now }
{
    let count = shares.len();
    let mut parts = Parts::with_capacity(alloc, count)?;
    let mut place = 0;
    for share in shares {
        add_share(query, all, count, place, share, &mut parts)?;
        place += 1;
    }
    Ok(parts)
}

/// Adds what the share at that place of so many tells, those before it being added; the error is the share's, or want
/// of memory.
fn add_share(
    _query: &Query,
    _all: &[NodeAt],
    _count: usize,
    _place: usize,
    share: Share,
    parts: &mut Parts,
) -> Result<(), StitchFault>
    requires done { IsDone _query.now.bounds
        (graphs_seen _query.now.view.now) _query.now.definitions.now _all.now _count _place share }
    requires before { AreTabled _query.now.bounds
        (graphs_seen _query.now.view.now) _query.now.definitions.now
        (IsInShares _all.now _count _place) parts.old }
    ensures added { OnOk result (AreTabled _query.now.bounds
        (graphs_seen _query.now.view.now) _query.now.definitions.now
        (IsInShares _all.now _count (_place + 1)) parts.new) }
    ensures crowded { result ≡ Err StitchFault.Crowded
        → IsCrowdedAmong _query.now.bounds (graphs_seen _query.now.view.now) _all.now }
{
    match share {
        Ok(links) => Ok(parts.append(links)?),
        Err(fault) => Err(fault),
    }
}
