//! What no clause says: that documents are indexed with memory at hand, and which jobs that makes.
ghost use Rattle.std.specs.Prelude.{◌≡◌, ◌<◌};

use graph_nodes::Steps;
use index_gate::{IndexFault, index_all};
use nav_io::{Gate, Unguarded};
use partial_path::SharedPaths;
use path_store::{Document, PathStore};
use std::alloc::Global;
use std::marker::Brand;
use std::sync::atomic::{AtomicU64, Ordering};
use std::sync::ledger::{Blank, Ledger};
use std::test::Fail;
use std::thread::Threads;

/// A gate that counts how often the jobs 0, 1, 2, 3 and all others are entered and left, each number in four bits.
#[derive(Drop)]
struct Noted {
    entered: AtomicU64,
    left: AtomicU64,
}

/// One time that job.
fn once(job: usize) -> u64 {
    match job {
        0 => 0x1,
        1 => 0x10,
        2 => 0x100,
        3 => 0x1000,
        _ => 0x10000,
    }
}

impl Gate for Noted {
    fn enter(&self, job: usize) {
        self.entered.fetch_add(once(job), Ordering::SeqCst);
    }

    fn leave(&self, job: usize) {
        self.left.fetch_add(once(job), Ordering::SeqCst);
    }
}

/// Documents, each its path, a bar and its text; semicolons between them. An empty text stands for none.
fn documents_of(alloc: Global, row: &str) -> Result<Vec<Document>, Fail> {
    let mut docs = Vec::new(alloc);
    for part in row.split(';') {
        if let Some((path, text)) = part.split_once('|') {
            docs.push(Document::new(alloc, path, text.as_bytes())?)?;
        }
    }
    Ok(docs)
}

/// The files of some documents, if none has a fault, and how many documents the store keeps then.
type Indexed = (Result<Vec<SharedPaths>, IndexFault>, usize);

/// Indexes the first documents, and then the others over the store that keeps these, with the gate.
fn indexed_on<R: Threads + Sync, G: Gate + Sync, L: Ledger>(
    rt: &R,
    alloc: Global,
    first: &[Document],
    others: &[Document],
    gate: &G,
    blank: Blank,
) -> Result<Indexed, IndexFault>
    requires name { blank.name ≡ L.name }
    requires parts { blank.parts ≡ L.parts }
    requires some { 0 < blank.parts }
{
    let mut store = PathStore::new(alloc);
    let mut steps = Steps::<L>::new(blank);
    index_all(rt, alloc, first, &mut store, &Unguarded, &mut steps)?;
    let files = index_all(rt, alloc, others, &mut store, gate, &mut steps);
    Ok((files, store.len()))
}

fn indexed<R: Threads + Sync, G: Gate + Sync>(
    rt: &R,
    alloc: Global,
    first: &[Document],
    others: &[Document],
    gate: &G,
) -> Result<Indexed, IndexFault> {
    indexed_on::<_, _, Brand>(rt, alloc, first, others, gate, Blank::new(1))
}

/// The weight of each file and how many paths it has, or a fault.
fn figures(alloc: Global, files: &Result<Vec<SharedPaths>, IndexFault>) -> Result<String, Fail> {
    let Ok(files) = files else {
        return Ok(String::from_str(alloc, " a fault")?);
    };
    let mut text = String::new(alloc);
    for file in files {
        let (weight, paths) = (file.get().weight(), file.get().paths().len());
        text.push_str(format!(in alloc; " {weight}/{paths}")?.as_str())?;
    }
    Ok(text)
}

/// What the others come to over a store that keeps the first: what is told of their files, how many documents are kept,
/// and the jobs that were entered and left.
fn told<R: Threads + Sync>(
    rt: &R,
    alloc: Global,
    first: &str,
    others: &str,
) -> Result<String, Fail> {
    let first = documents_of(alloc, first)?;
    let others = documents_of(alloc, others)?;
    let gate = Noted {
        entered: AtomicU64::new(0),
        left: AtomicU64::new(0),
    };
    let Ok((files, kept)) = indexed(rt, alloc, &first, &others, &gate) else {
        return Err(Fail::new("the first documents have no fault"));
    };
    let figures = figures(alloc, &files)?;
    let entered = gate.entered.load(Ordering::SeqCst);
    let left = gate.left.load(Ordering::SeqCst);
    Ok(format!(in alloc; "{entered:x} {left:x}, {kept} kept,{figures}")?)
}

/// A document that stands twice, and other kinds.
const DOCUMENTS: &str =
    r#"a.sg.json|{"nodes":[{"kind":"push","symbol":"x","reference":true},{"kind":"scope"},{"kind":"pop","symbol":"x","definition":true}],"edges":[[0,1,0],[1,2,0]]};empty.py|;a.sg.json|{"nodes":[{"kind":"push","symbol":"x","reference":true},{"kind":"scope"},{"kind":"pop","symbol":"x","definition":true}],"edges":[[0,1,0],[1,2,0]]};b.sg.json|{"format":2,"nodes":[{"kind":"scope","name":"a"}],"edges":[["@root","a",0]]};c.sg.json|{"nodes":[],"edges":[]}"#;

#[test]
fn each_document_has_its_paths_and_is_one_job(rt: HostRuntime) -> Result<(), Fail> {
    let alloc = rt.alloc();
    let wanted = "1111 1111, 4 kept, 3/1 6/2 3/1 1/0 0/0";
    assert_eq!(rt; told(&rt, alloc, "", DOCUMENTS)?.as_str(), wanted);
    // Indexed again, they are the same files, and there is no job.
    let wanted = "0 0, 4 kept, 3/1 6/2 3/1 1/0 0/0";
    assert_eq!(rt; told(&rt, alloc, DOCUMENTS, DOCUMENTS)?.as_str(), wanted);
    Ok(())
}

#[test]
fn jobs_are_numbered_among_new_documents_and_left_after_a_fault(
    rt: HostRuntime,
) -> Result<(), Fail> {
    let others = "a.py|x = 1;c.py|;b.py|y = 2;d.py|z = 3;notes.txt|;e.py|";
    let told = told(&rt, rt.alloc(), "a.py|x = 1;b.py|y = 2", others)?;
    assert_eq!(rt; told.as_str(), "1111 1111, 2 kept, a fault");
    Ok(())
}

#[test]
fn another_document_of_one_path_is_a_job_of_its_own(rt: HostRuntime) -> Result<(), Fail> {
    let others =
        r#"a.sg.json|{"nodes":[],"edges":[]};a.sg.json|{"edges":[],"nodes":[]};b.sg.json|{"nodes":[],"edges":[]}"#;
    let told = told(&rt, rt.alloc(), "", others)?;
    assert_eq!(rt; told.as_str(), "111 111, 3 kept, 0/0 0/0 0/0");
    Ok(())
}
