ghost use Rattle.std.specs.Prelude.{◌≡◌, ◌≢◌, ◌≤◌, ◌+◌, ◌++◌, ℕ, true, length, drop, IfOk, IfErr, IfSome, OnOk, OnErr};
ghost use Rattle.partial_path.specs.PathSets.{FileRules};
ghost use Rattle.path_store.specs.Store.{kept_of, with_doc};
ghost use Rattle.index_gate.specs.{declared.fault.IndexFault.TheVariants.{NoMemory}, Indexed.{IsIndexed, AreIndexed, AreFilesOf, HasCause, AddsMissing, AddsSome, CountsWalks, CountsAllWalks, IsDocWeight, AreDocWeights, docs_of, has_doc, missing}, Reading.{HasNone, Refuses, Finds, Adds}, Ahead.{IsDone}};

use crate::ahead::Ahead;
use crate::fault::{IndexFault, ReadFault};
use crate::working::{Done, work};
use graph_nodes::{Name, Steps};
use nav_io::Gate;
use partial_path::SharedPaths;
use path_store::{Digested, Document, PathStore};
use std::alloc::{AllocError, Global};
use std::sync::ledger::Ledger;
use std::thread::Threads;

/// The paths of each document's graph, in the order of the documents. A document that the store keeps is
/// neither read nor walked again; each other one is indexed and kept once, however often it stands among
/// the documents, and the store then has these at its end, in their order.
///
/// The first document with a fault is told with its first fault, in the order of `FileFault`; then the
/// store is as it was. `NoMemory` comes where memory is refused, and may come in place of any answer; then
/// the store may keep the first of the new documents. Each document that is indexed is a job between
/// `enter` and `leave` of the gate, with a number of its own, from 0. One step is counted for each walk made. It
/// takes time for the documents that the store doesn't keep, and for the others that of finding them. What
/// the store comes to keep of a document is shared with it, and not copied.
///
/// What a document's graph is, what its faults are and which paths a graph has stands in words in
/// `docs/DEFINITIONS.md`, and in this crate's `specs/`.
pub fn index_all<R: Threads + Sync, G: Gate + Sync, L: Ledger>(
    rt: &R,
    alloc: Global,
    docs: &[Document],
    store: &mut PathStore,
    gate: &G,
    steps: &mut Steps<L>,
) -> Result<Vec<SharedPaths>, IndexFault>
    requires indexed { AreIndexed store.old }

    // The answer.
    ensures files { IfOk result (λ files. AreFilesOf docs.now files.items) }
    ensures fault { IfErr result (HasCause docs.now) }

    // The store.
    ensures indexed { AreIndexed store.new }
    ensures added { OnOk result (AddsMissing docs.now store.old store.new) }
    ensures unchanged { IfErr result (λ e. e ≢ NoMemory → store.new ≡ store.old) }
    ensures some { OnErr result (AddsSome docs.now store.old store.new) }

    // The steps.
    ensures steps { OnOk result (CountsAllWalks (drop
        (length store.old) store.new) steps.old steps.new) }
    ensures fewer { (total : ℕ) → AreDocWeights (missing (docs_of store.old) docs.now) total
        → steps.new ≤ steps.old + total }
{
    let jobs = Ahead::of(rt, alloc, docs, store, gate)?;
    let means = Means {
        alloc,
        jobs: &jobs,
        gate,
    };
    let mut fresh = PathStore::new(alloc);
    let mut files = Vec::new(alloc);
    for doc in docs {
        let paths = paths_for(&means, doc, files.len(), store, &mut fresh, steps)?;
        files.push(paths)?;
    }
    store.append(alloc, fresh)?;
    Ok(files)
}

/// What each document is worked on with: the allocator, the work that is done ahead, and the gate.
#[derive(Drop)]
struct Means<'a, 'd, G> {
    alloc: Global,
    jobs: &'a Ahead<'d>,
    gate: &'a G,
}

/// The paths of the document at that place: those that a store keeps, else the ones that are found now and kept
/// among the fresh ones.
fn paths_for<G: Gate, L: Ledger>(
    means: &Means<'_, '_, G>,
    doc: &Document,
    place: usize,
    store: &PathStore,
    fresh: &mut PathStore,
    steps: &mut Steps<L>,
) -> Result<SharedPaths, IndexFault>
    requires store { AreIndexed store.now }
    requires fresh { AreIndexed fresh.old }
    ensures file { IfOk result (λ file. IsIndexed (kept_of doc.now file)) }
    ensures adds { OnOk result
        (Adds (docs_of store.now) doc.now fresh.old fresh.new steps.old steps.new) }
    ensures fault { IfErr result (Refuses doc.now) }
    ensures same { has_doc (docs_of store.now ++ docs_of fresh.old) doc.now ≡ true
        → steps.new ≡ steps.old }
    ensures fewer { (w : ℕ) → IsDocWeight doc.now w → steps.new ≤ steps.old + w }
{
    match means.jobs.find(place, doc) {
        Some(worked) => paths_by(means, worked.doc(), worked.done(), store, fresh, steps),
        None => paths_by(means, &Digested::of(doc), None, store, fresh, steps),
    }
}

/// The paths of the document, on which the work came to this where it was done ahead; else it is the next job behind
/// those of `means.jobs`.
#[tactic(auto, using(crate::proofs::Adding::held_adds, crate::proofs::Adding::fresh_adds, crate::proofs::Adding::new_adds, crate::proofs::Adding::not_held, crate::proofs::Adding::weight_none))]
fn paths_by<G: Gate, L: Ledger>(
    means: &Means<'_, '_, G>,
    doc: &Digested,
    ahead: Option<&Done>,
    store: &PathStore,
    fresh: &mut PathStore,
    steps: &mut Steps<L>,
) -> Result<SharedPaths, IndexFault>
    requires ahead { IfSome ahead (λ done. IsDone doc.now done.now) }
    requires store { AreIndexed store.now }
    requires fresh { AreIndexed fresh.old }
    ensures file { IfOk result (λ file. IsIndexed (kept_of doc.now file)) }
    ensures adds { OnOk result
        (Adds (docs_of store.now) doc.now fresh.old fresh.new steps.old steps.new) }
    ensures fault { IfErr result (Refuses doc.now) }
    ensures same { has_doc (docs_of store.now ++ docs_of fresh.old) doc.now ≡ true
        → steps.new ≡ steps.old }
    ensures fewer { (w : ℕ) → IsDocWeight doc.now w → steps.new ≤ steps.old + w }
{
    if let Some(paths) = find_shared(store, doc)? {
        return Ok(paths);
    }
    if let Some(paths) = find_shared(fresh, doc)? {
        return Ok(paths);
    }
    let paths = index_new(means, doc.doc(), ahead, steps)?;
    fresh.keep(means.alloc, doc, paths.share()?)?;
    Ok(paths)
}

// The paths that the store keeps for the document, held once more; the one error is want of memory.
#[tactic(auto, using(crate::proofs::Adding::finds_none))]
fn find_shared(store: &PathStore, doc: &Digested) -> Result<Option<SharedPaths>, AllocError>
    requires { AreIndexed store.now }
    ensures { IfOk result (Finds store.now doc.now) }
{
    match store.find(doc) {
        Some(paths) => Ok(Some(paths.share()?)),
        None => Ok(None),
    }
}

/// The paths of a document that no store keeps: those of the work ahead, or, where it was left out there, of the work
/// that is done now, as the next job.
fn index_new<G: Gate, L: Ledger>(
    means: &Means<'_, '_, G>,
    doc: &Document,
    ahead: Option<&Done>,
    steps: &mut Steps<L>,
) -> Result<SharedPaths, IndexFault>
    requires { IfSome ahead (λ done. IsDone doc.now done.now) }
    ensures file { IfOk result (λ file. IsIndexed (kept_of doc.now file)) }
    ensures steps { IfOk result (λ file. CountsWalks file steps.old steps.new) }
    ensures fault { IfErr result (Refuses doc.now) }
    ensures fewer { (w : ℕ) → IsDocWeight doc.now w → steps.new ≤ steps.old + w }
{
    let Means { alloc, jobs, gate } = *means;
    match ahead {
        Some(done) => take_up(alloc, doc, done, steps),
        None => take_up(alloc, doc, &work(alloc, doc, jobs.next_job(), gate), steps),
    }
}

/// What came of the work on the document, whose walks are counted now.
fn take_up<L: Ledger>(
    alloc: Global,
    doc: &Document,
    done: &Done,
    steps: &mut Steps<L>,
) -> Result<SharedPaths, IndexFault>
    requires { IsDone doc.now done.now }
    ensures file { IfOk result (λ file. IsIndexed (kept_of doc.now file)) }
    ensures steps { IfOk result (λ file. CountsWalks file steps.old steps.new) }
    ensures fault { IfErr result (Refuses doc.now) }
    ensures fewer { (w : ℕ) → IsDocWeight doc.now w → steps.new ≤ steps.old + w }
{
    steps.add(done.walks);
    match &done.found {
        Ok(paths) => Ok(paths.share()?),
        Err(fault) => Err(refusal(alloc, doc, *fault)),
    }
}

// The answer where the work on the document ended so.
fn refusal(alloc: Global, doc: &Document, fault: ReadFault) -> IndexFault
    requires { HasNone doc.now fault }
    ensures { Refuses doc.now result }
{
    match fault {
        ReadFault::NoMemory => IndexFault::NoMemory,
        ReadFault::File(fault) => match Name::of(alloc, doc.path()) {
            Ok(path) => IndexFault::BadFile { path, fault },
            Err(_) => IndexFault::NoMemory,
        },
    }
}
