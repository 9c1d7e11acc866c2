//! What each fault is said to be, as a table: no clause tells these texts.
use file_paths::PathsFault;
use grants::GrantFault;
use graph_json::{GraphTextFault, Part};
use graph_nodes::{GraphFault, Name};
use index_gate::{FileFault, IndexFault, ReadFault};
use nav_answers::AskFault;
use nav_io::{Failed, HouseFault};
use nav_proto::ProtoFault;
use partial_path::PathFault;
use py_graph::TransFault;
use py_subset::PyFault;
use std::alloc::Global;
use std::fmt;
use std::test::Fail;
use stitcher::StitchFault;
use version_board::CommitFault;
use version_tree::EditFault;
use whole_search::SearchFault;

/// What the faults say, those of the layers below first.
const SAID: &str = "\
3 nodes are too many
4 edges are too many
edge 5 has an end that is no node
edge 6 leaves the jump
node 7 names a scope that isn't exported
memory was refused
not JSON
the graph has a wrong form
node 1 has a wrong form
edge 2 has a wrong form
node 3 has the name of an earlier node
edge 4 names a node that isn't there
edge 5 leaves the jump
memory was refused
line 1 has a byte that isn't ASCII
line 2 goes back to no open block
line 3 has no token there
line 4 has a form that is left out
no module goes on as line 5 does
line 6 nests too deep
memory was refused
the path gives no name of a module
3 nodes are too many
4 edges are too many
memory was refused
place 2 names a scope stack that isn't there
the peak is below a number of symbols
the file's walks have too many edges together
memory was refused
the path has no ending that is known
9 bytes are too many
not JSON
line 4 has a form that is left out
the path gives no name of a module
the file's walks have too many edges together
a.py: the path has no ending that is known
memory was refused
9 bytes are too many
memory was refused
there is none of this user and prefix
memory was refused
a weight of 10 is too much
memory was refused
the head is 3
the versions have no more numbers
memory was refused
the reference has too many runs
memory was refused
the reference has too many runs
memory was refused
no such file is seen
there is no reference
there is no definition
a reference has too many runs
memory was refused
memory was refused
the outside refused the call
memory was refused
the outside refused the call
";

/// Writes what each of the faults says, one a line.
fn say<T: fmt::Display>(alloc: Global, said: &mut String, faults: &[T]) -> Result<(), Fail> {
    for fault in faults {
        said.push_str(format!(in alloc; "{fault}\n")?.as_str())?;
    }
    Ok(())
}

/// Those of graphs, of texts and of modules.
fn say_files(alloc: Global, said: &mut String) -> Result<(), Fail> {
    let graphs = [
        GraphFault::TooManyNodes(3),
        GraphFault::TooManyEdges(4),
        GraphFault::BadEnd(5),
        GraphFault::JumpSource(6),
        GraphFault::BadScope(7),
        GraphFault::NoMemory,
    ];
    say(alloc, said, &graphs)?;
    let texts = [
        GraphTextFault::BadJson,
        GraphTextFault::BadShape(Part::Top),
        GraphTextFault::BadShape(Part::Node(1)),
        GraphTextFault::BadShape(Part::Edge(2)),
        GraphTextFault::SameName(3),
        GraphTextFault::UnknownName(Part::Edge(4)),
        GraphTextFault::Graph(GraphFault::JumpSource(5)),
        GraphTextFault::NoMemory,
    ];
    say(alloc, said, &texts)?;
    let modules = [
        PyFault::NotAscii(1),
        PyFault::BadIndent(2),
        PyFault::BadToken(3),
        PyFault::Unsupported(4),
        PyFault::Expected(5),
        PyFault::TooDeep(6),
        PyFault::NoMemory,
    ];
    say(alloc, said, &modules)?;
    let names = [
        TransFault::BadName,
        TransFault::TooManyNodes(3),
        TransFault::TooManyEdges(4),
        TransFault::NoMemory,
    ];
    say(alloc, said, &names)
}

/// That a document has a fault.
fn bad_file(alloc: Global) -> Result<IndexFault, Fail> {
    Ok(IndexFault::BadFile {
        path: Name::of(alloc, "a.py")?,
        fault: FileFault::UnknownKind,
    })
}

/// Those of paths and of documents.
fn say_documents(alloc: Global, said: &mut String) -> Result<(), Fail> {
    say(alloc, said, &[PathFault::BadTail(2), PathFault::PeakLow])?;
    say(alloc, said, &[PathsFault::Heavy(1), PathsFault::NoMemory])?;
    let files = [
        FileFault::UnknownKind,
        FileFault::TooLarge(9),
        FileFault::Text(GraphTextFault::BadJson),
        FileFault::Python(PyFault::Unsupported(4)),
        FileFault::Named(TransFault::BadName),
        FileFault::Heavy(1),
    ];
    say(alloc, said, &files)?;
    say(alloc, said, &[bad_file(alloc)?, IndexFault::NoMemory])?;
    let read = [ReadFault::File(FileFault::TooLarge(9)), ReadFault::NoMemory];
    say(alloc, said, &read)
}

/// Those of versions and of boards; most faults of edits are told by the versions that have them.
fn say_versions(alloc: Global, said: &mut String) -> Result<(), Fail> {
    say(alloc, said, &[GrantFault::Absent, GrantFault::NoMemory])?;
    say(alloc, said, &[EditFault::TooHeavy(10), EditFault::NoMemory])?;
    let commits = [
        CommitFault::Stale(3),
        CommitFault::Edit(EditFault::Spent),
        CommitFault::NoMemory,
    ];
    say(alloc, said, &commits)
}

/// Those of answers, of lines and of the outside.
fn say_answers(alloc: Global, said: &mut String) -> Result<(), Fail> {
    say(alloc, said, &[StitchFault::Crowded, StitchFault::NoMemory])?;
    say(alloc, said, &[SearchFault::Crowded, SearchFault::NoMemory])?;
    let answers = [
        AskFault::NoFile,
        AskFault::NoReference,
        AskFault::NoDefinition,
        AskFault::Crowded,
        AskFault::NoMemory,
    ];
    say(alloc, said, &answers)?;
    say(alloc, said, &[ProtoFault::NoMemory])?;
    say(alloc, said, &[HouseFault::Failed, HouseFault::NoMemory])?;
    say(alloc, said, &[Failed])
}

#[test]
fn each_fault_says_what_is_wrong(rt: HostRuntime) -> Result<(), Fail> {
    let alloc = rt.alloc();
    let mut said = String::new(alloc);
    say_files(alloc, &mut said)?;
    say_documents(alloc, &mut said)?;
    say_versions(alloc, &mut said)?;
    say_answers(alloc, &mut said)?;
    assert_eq!(rt; said.as_str(), SAID);
    Ok(())
}
