ghost use Rattle.std.specs.Prelude.{◌≡◌, ◌<◌, ◌≤◌, ◌^◌, length, Ok, Err};
ghost use Rattle.graph_json.specs.Reading.{graph_from};
ghost use Rattle.py_subset.specs.Whole.{parse_of};
ghost use Rattle.py_graph.specs.Modules.{graph_of};
ghost use Rattle.path_store.specs.Documents.{doc_of};
ghost use Rattle.index_gate.specs.{Limits.{max_bytes}, Graphs.{from_text, from_table, from_module, graph_of_kind, graph_of_doc}, Reading.{IsReading, text_fault, module_fault, table_fault}};

use crate::fault::{FileFault, MAX_BYTES, ReadFault};
use crate::kind::{DocumentKind, kind_of};
use graph_json::{GraphTextFault, read_graph};
use graph_nodes::{FileGraph, GraphFault};
use py_graph::{TransFault, translate};
use py_subset::{Module, PyFault, parse};
use std::alloc::Global;

/// The graph of the document at this path with these bytes, or its first fault, in the order of `FileFault`;
/// `NoMemory` may come in place of any answer. The path's ending tells what the bytes are read as. What the
/// walks of the graph weigh isn't looked at, so `Heavy` doesn't come. It takes time and memory that follow
/// the number of bytes.
pub fn read_document(alloc: Global, path: &str, bytes: &[u8]) -> Result<FileGraph, ReadFault>
    ensures { IsReading result (graph_of_doc (doc_of path.now bytes.now)) }
{
    let Some(kind) = kind_of(path) else {
        return Err(ReadFault::File(FileFault::UnknownKind));
    };
    if bytes.len() > MAX_BYTES {
        return Err(ReadFault::File(FileFault::TooLarge(bytes.len() as u64)));
    }
    read_kind(alloc, kind, path, bytes)
}

// The graph of the bytes of a document of this kind.
#[tactic(auto, unfolding(crate::specs::Graphs::graph_of_kind))]
fn read_kind(
    alloc: Global,
    kind: DocumentKind,
    path: &str,
    bytes: &[u8],
) -> Result<FileGraph, ReadFault>
    requires few { length bytes.now ≤ max_bytes }
    ensures { IsReading result (graph_of_kind kind (doc_of path.now bytes.now)) }
{
    match kind {
        DocumentKind::GraphFile => read_text(alloc, bytes),
        DocumentKind::PythonModule => read_module(alloc, path, bytes),
    }
}

// The graph of a graph file.
#[tactic(auto, using(crate::proofs::Faults::text_gives))]
fn read_text(alloc: Global, bytes: &[u8]) -> Result<FileGraph, ReadFault>
    requires few { length bytes.now < 2 ^ 32 }
    ensures { IsReading result (from_text (graph_from bytes.now)) }
{
    match read_graph(alloc, bytes) {
        Ok(graph) => Ok(graph),
        Err(fault) => Err(text_fault(fault)),
    }
}

// Where reading a graph file ends with this fault.
fn text_fault(fault: GraphTextFault) -> ReadFault
    ensures { result ≡ text_fault fault }
{
    match fault {
        GraphTextFault::NoMemory | GraphTextFault::Graph(GraphFault::NoMemory) =>
            ReadFault::NoMemory,
        fault => ReadFault::File(FileFault::Text(fault)),
    }
}

// The graph of a module at this path.
#[tactic(auto, using(crate::proofs::Faults::module_gives))]
fn read_module(alloc: Global, path: &str, text: &[u8]) -> Result<FileGraph, ReadFault>
    requires few { length text.now < 2 ^ 32 }
    ensures { IsReading result (from_module path.now (parse_of text.now)) }
{
    match parse(alloc, text) {
        Ok(tree) => read_table(alloc, path, &tree),
        Err(fault) => Err(module_fault(fault)),
    }
}

// Where reading a module ends with this fault.
fn module_fault(fault: PyFault) -> ReadFault
    ensures { result ≡ module_fault fault }
{
    match fault {
        PyFault::NoMemory => ReadFault::NoMemory,
        fault => ReadFault::File(FileFault::Python(fault)),
    }
}

// The graph that the table makes of a module at this path.
#[tactic(auto, using(crate::proofs::Faults::table_gives))]
fn read_table(alloc: Global, path: &str, tree: &Module) -> Result<FileGraph, ReadFault>
    ensures { IsReading result (from_table (graph_of path.now tree.now)) }
{
    match translate(alloc, path, tree) {
        Ok(graph) => Ok(graph),
        Err(fault) => Err(table_fault(fault)),
    }
}

// Where making a module's graph ends with this fault.
fn table_fault(fault: TransFault) -> ReadFault
    ensures { result ≡ table_fault fault }
{
    match fault {
        TransFault::NoMemory => ReadFault::NoMemory,
        fault => ReadFault::File(FileFault::Named(fault)),
    }
}
