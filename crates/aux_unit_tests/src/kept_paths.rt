//! What no clause says: that documents are kept with memory at hand, which are found and swept away, and a digest against
//! one that another program made.
use crate::bare::paths_of;
use crate::tables::{Telling, others};
use path_store::{Digested, Document, PathStore};
use std::alloc::Global;
use std::test::Fail;

/// Goes over steps with one store. `keep a.py=text 2` keeps the document of this path and text with a file of two nodes,
/// and `sweep 12` sweeps at that cost; they tell `done`. `find a.py=text` tells how many nodes the file has that is kept
/// for the document.
#[derive(Drop)]
struct Steps {
    store: PathStore,
}

impl Telling for Steps {
    fn told(&mut self, alloc: Global, line: &str) -> Result<String, Fail> {
        let (verb, rest) = line.split_once(' ').unwrap_or((line, ""));
        match verb {
            "keep" => keep(alloc, &mut self.store, rest)?,
            "sweep" => self.store.sweep(rest.parse()?),
            _ => return found(alloc, &self.store, rest),
        }
        Ok(String::from_str(alloc, "done")?)
    }
}

/// The document that a text such as `a.py=text` stands for.
fn document_of(alloc: Global, text: &str) -> Result<Document, Fail> {
    let (path, bytes) = text.split_once('=').unwrap_or((text, ""));
    Ok(Document::new(alloc, path, bytes.as_bytes())?)
}

fn keep(alloc: Global, store: &mut PathStore, rest: &str) -> Result<(), Fail> {
    let (text, count) = rest.rsplit_once(' ').unwrap_or((rest, ""));
    let document = document_of(alloc, text)?;
    let paths = paths_of(alloc, count.parse()?)?;
    store.keep(alloc, &Digested::of(&document), paths)?;
    Ok(())
}

fn found(alloc: Global, store: &PathStore, text: &str) -> Result<String, Fail> {
    let document = document_of(alloc, text)?;
    match store.find(&Digested::of(&document)) {
        Some(paths) => {
            let count = paths.get().node_count();
            Ok(format!(in alloc; "{count}")?)
        }
        None => Ok(String::from_str(alloc, "nothing")?),
    }
}

fn others_of(alloc: Global, steps: &str) -> Result<String, Fail> {
    let mut store = Steps {
        store: PathStore::new(alloc),
    };
    others(alloc, &mut store, steps)
}

const KEPT: &str = "find a.py=x => nothing
keep a.py=x 1 => done
find a.py=x => 1
find a.py=y => nothing
find b.py=x => nothing
keep a.py=y 2 => done
keep b.py=x 3 => done
find a.py=x => 1
find a.py=y => 2
find b.py=x => 3
keep a.py=x 4 => done
find a.py=x => 1";

#[test]
fn a_store_finds_what_it_kept(rt: HostRuntime) -> Result<(), Fail> {
    assert_eq!(rt; others_of(rt.alloc(), KEPT)?.as_str(), "");
    Ok(())
}

const SWEPT: &str = "keep a.py=one 1 => done
keep b.py=four 2 => done
keep c.py= 3 => done
keep d.py=seven 4 => done
sweep 12 => done
find a.py=one => 1
sweep 11 => done
find a.py=one => nothing
find b.py=four => 2
find d.py=seven => 4
keep a.py=one 5 => done
sweep 8 => done
find b.py=four => nothing
find c.py= => 3
find d.py=seven => 4
find a.py=one => 5
sweep 0 => done
find c.py= => nothing
find a.py=one => nothing
keep c.py= 6 => done
sweep 0 => done
find c.py= => 6";

#[test]
fn a_sweep_drops_the_oldest(rt: HostRuntime) -> Result<(), Fail> {
    assert_eq!(rt; others_of(rt.alloc(), SWEPT)?.as_str(), "");
    Ok(())
}

#[test]
fn a_digest_is_of_path_and_bytes(rt: HostRuntime) -> Result<(), Fail> {
    let alloc = rt.alloc();
    let doc = Document::new(alloc, "a", b"b")?;
    assert_eq!(rt; doc.path(), "a");
    assert_eq!(rt; doc.bytes(), b"b".as_slice());
    let told = [
        0x59, 0xb2, 0x71, 0xae, 0x1b, 0xbc, 0xb1, 0xd3, 0x1d, 0x41, 0x92, 0x98, 0x17, 0xf4, 0xb1,
        0x6f, 0xb4, 0x39, 0xeb, 0x4f, 0x31, 0x52, 0x0b, 0x5a, 0xd1, 0xd5, 0xce, 0x98, 0x92, 0x0a,
        0x71, 0x38,
    ];
    assert!(rt; Digested::of(&doc).digest() == &told);
    Ok(())
}
