//! Documents that are worked on ahead, several at once.
ghost use Rattle.std.specs.Prelude.{◌<◌, ◌≤◌, IfSome};
ghost use Rattle.index_gate.specs.Ahead.{IsDone};

use crate::working::{Done, work};
use nav_io::Gate;
use path_store::{Digested, Document, PathStore};
use std::alloc::{AllocError, Global};
use std::collections::HashSet;
use std::marker::Model;
use std::sync::atomic::{AtomicU64, Ordering};
use std::thread;
use std::thread::Threads;

/// For how many documents a thread asks for room at once.
const AT_ONCE: usize = 64;

/// About how many bytes a document of a few kilobytes takes once it is indexed.
const ROOM_OF_ONE: usize = 256 * 1_024;

/// The most threads that work on documents.
const MOST_THREADS: usize = 8;

/// A document with its digest, and what came of the work on it, where it was worked on.
#[derive(Drop)]
pub struct Worked<'a> {
    doc: Digested<'a>,
    /// Its place among the documents.
    place: usize,
    done: Option<Done>,
}

impl<'a> Model for Worked<'a> {
    ghost use Rattle.std.specs.Prelude.{IfSome};
    ghost use Rattle.index_gate.specs.Ahead.{Work, IsDone};

    ghost Value = { Work };

    ghost view = { λ w. record { doc = w.doc; done = w.done } };

    ghost invariant = { λ w. IfSome w.done (IsDone w.doc) };
}

impl<'a> Worked<'a> {
    ghost use Rattle.std.specs.Prelude.{◌≡◌, IfSome};
    ghost use Rattle.index_gate.specs.Ahead.{IsDone};

    /// The document with its digest.
    pub fn doc(&self) -> &Digested<'a>
        ensures { result.now ≡ self.now.doc }
    {
        &self.doc
    }

    /// What came of the work on it, where it was worked on.
    pub fn done(&self) -> Option<&Done>
        ensures { IfSome result (λ done. IsDone self.now.doc done.now) }
    {
        self.done.as_ref()
    }
}

/// Documents of a list with their digests, and what came of the work on those that were worked on ahead.
#[derive(Drop)]
pub struct Ahead<'a> {
    /// Those of each thread.
    hands: Vec<Vec<Worked<'a>>>,
    /// By a document's place in the list, which thread's it is and its place among these.
    places: Vec<Option<(usize, usize)>>,
    counts: Counts,
}

impl<'a> Ahead<'a> {
    ghost use Rattle.std.specs.Prelude.{◌≡◌, IfSome};

    /// Makes the digest of each document, and works on it where the store doesn't keep it, as a job between `enter` and
    /// `leave` of the gate; each job has a number of its own, from 0. As many threads do so as `threads_for` says, each of which takes
    /// the next document that is left, so that none waits for a thread that begins late; where a thread can't be made, the
    /// caller does its work. A document whose path one before it has is left to the caller, since it may be the same, and so
    /// is one for whose answer there was no room. The one error is want of memory.
    pub fn of<R: Threads + Sync, G: Gate + Sync>(
        rt: &R,
        alloc: Global,
        docs: &'a [Document],
        store: &PathStore,
        gate: &G,
    ) -> Result<Ahead<'a>, AllocError> {
        let firsts = firsts_of_paths(alloc, docs)?;
        let counts = Counts {
            taken: AtomicU64::new(0),
            jobs: AtomicU64::new(0),
        };
        let hands = share_out(rt, alloc, firsts.as_slice(), store, gate, &counts)?;
        let mut places = vec![in alloc; None; docs.len()]?;
        for i in 0..hands.len() {
            place_all(hands[i].as_slice(), i, places.as_mut_slice());
        }
        Ok(Ahead {
            hands,
            places,
            counts,
        })
    }

    /// The number of the next job, that of a document which wasn't worked on ahead: no job has it yet.
    pub fn next_job(&self) -> usize {
        next_job(&self.counts)
    }

    /// The document at the place with its digest and what came of the work on it, where that was made ahead.
    pub fn find(&self, place: usize, doc: &Document) -> Option<&Worked<'a>>
        ensures { IfSome result (λ worked. worked.now.doc ≡ doc.now) }
    {
        let (hand, number) = (*self.places.get(place)?)?;
        let worked = self.hands.get(hand)?.get(number)?;
        if worked.doc.doc().is_same(doc) {
            Some(worked)
        } else {
            None
        }
    }
}

/// Notes where the documents of a thread stand.
fn place_all(hand: &[Worked], number: usize, places: &mut [Option<(usize, usize)>]) {
    for i in 0..hand.len() {
        let one = &hand[i];
        if let Some(place) = places.get_mut(one.place) {
            *place = Some((number, i));
        }
    }
}

/// The documents whose path none before them has, with their places.
fn firsts_of_paths<'a>(
    alloc: Global,
    docs: &'a [Document],
) -> Result<Vec<(usize, &'a Document)>, AllocError> {
    let mut seen = HashSet::new(alloc);
    let mut firsts = Vec::with_capacity(alloc, docs.len())?;
    for i in 0..docs.len() {
        if seen.insert(docs[i].path())? {
            firsts.push((i, &docs[i]))?;
        }
    }
    Ok(firsts)
}

/// What threads share that take documents from a list.
#[derive(Drop)]
struct Counts {
    /// How many documents were taken.
    taken: AtomicU64,
    /// How many jobs there were, each the work on a document.
    jobs: AtomicU64,
}

/// Goes over the documents, which have these places, on several threads where they can be made: those that each thread
/// took, with what came of them. Where there are several the caller has a hand besides that takes none, and waits: the
/// system may begin a thread on a processor that has work, and moves it to one that has none left.
fn share_out<'a, R: Threads + Sync, G: Gate + Sync>(
    rt: &R,
    alloc: Global,
    wanted: &[(usize, &'a Document)],
    store: &PathStore,
    gate: &G,
    counts: &Counts,
) -> Result<Vec<Vec<Worked<'a>>>, AllocError> {
    let threads = threads_for(rt, wanted.len());
    let count = if threads > 1 { threads + 1 } else { 1 };
    let mut hands = Vec::with_capacity(alloc, count)?;
    for _ in 0..count {
        hands.push(Vec::new(alloc))?;
    }
    if threads > 1 {
        ask_for(alloc, AT_ONCE);
    }
    thread::for_each_mut(
        rt,
        hands.as_mut_slice(),
        count,
        &|i, hand| {
            if i < threads {
                take_all(alloc, wanted, store, gate, threads, counts, hand);
            }
        },
    );
    Ok(hands)
}

/// Takes the next document that is left, and so on until none is left, or there is no room for an answer.
fn take_all<'a, G: Gate>(
    alloc: Global,
    wanted: &[(usize, &'a Document)],
    store: &PathStore,
    gate: &G,
    threads: usize,
    counts: &Counts,
    hand: &mut Vec<Worked<'a>>,
)
    requires { 0 < threads }
{
    for _ in 0..wanted.len() {
        let taken = counts.taken.fetch_add(1, Ordering::SeqCst) as usize;
        if taken >= wanted.len() {
            return;
        }
        make_room(alloc, threads, wanted.len() - taken, hand.len());
        let (place, doc) = wanted[taken];
        let doc = Digested::of(doc);
        let done = done_on(alloc, &doc, store, gate, counts);
        if hand.push(Worked { doc, place, done }).is_err() {
            return;
        }
    }
}

/// Works on the document, unless the store keeps it.
fn done_on<G: Gate>(
    alloc: Global,
    doc: &Digested,
    store: &PathStore,
    gate: &G,
    counts: &Counts,
) -> Option<Done>
    ensures { IfSome result (IsDone doc.now) }
{
    if store.find(doc).is_some() {
        return None;
    }
    Some(work(alloc, doc.doc(), next_job(counts), gate))
}

/// The number of the next job.
fn next_job(counts: &Counts) -> usize {
    counts.jobs.fetch_add(1, Ordering::SeqCst) as usize
}

/// Before a thread's first document, and then before each one so many later, asks for the room of the next ones, of so
/// many that are left to all threads. The C library makes a thread's heap larger by a call of the system for each few pages
/// that it lacks, and such a call holds up the other threads; thus it makes one for many documents.
fn make_room(alloc: Global, threads: usize, left: usize, taken: usize)
    requires { 0 < threads }
{
    if threads > 1 && taken % AT_ONCE == 0 {
        ask_for(alloc, left / threads + 1);
    }
}

/// Asks for a block that has room for so many documents, as far as it is asked for at once, and gives it back untouched.
/// From a thread's heap the C library takes a large block only where a larger one was given back before.
fn ask_for(alloc: Global, documents: usize) {
    let _ = Vec::<u8>::with_capacity(alloc, documents.min(AT_ONCE) * ROOM_OF_ONE);
}

/// On how many threads so many documents are worked on: one for each processor, at most eight and no more than there are
/// documents, but one at least; one too where the processors can't be counted. They aren't counted for one document, since
/// that takes some calls of the system.
fn threads_for<R: Threads>(rt: &R, documents: usize) -> usize
    ensures some { 0 < result }
    ensures few { result ≤ 8 }
{
    if documents < 2 {
        return 1;
    }
    match thread::available_parallelism(rt) {
        Ok(count) => count.get().min(MOST_THREADS).min(documents).max(1),
        Err(_) => 1,
    }
}
