//! The faults of documents, as replies name them. This is the one place that knows both.
ghost use Rattle.std.specs.Prelude.{◌≡◌};
ghost use Rattle.nav_session.specs.BadFiles.{shape_part, graph_error, text_error, module_error, table_error, file_error};

use graph_json::{GraphTextFault, Part};
use graph_nodes::GraphFault;
use index_gate::FileFault;
use nav_proto::{FileError, ShapePart};
use py_graph::TransFault;
use py_subset::PyFault;

/// A fault of a document, as replies name it. Want of memory is no fault of a document.
pub fn file_error(fault: FileFault) -> FileError
    ensures { result ≡ file_error fault }
{
    match fault {
        FileFault::UnknownKind => FileError::Kind,
        FileFault::TooLarge(bytes) => FileError::Large(bytes),
        FileFault::Text(fault) => text_error(fault),
        FileFault::Python(fault) => module_error(fault),
        FileFault::Named(fault) => table_error(fault),
        FileFault::Heavy(weight) => FileError::Heavy(weight),
    }
}

fn text_error(fault: GraphTextFault) -> FileError
    ensures { result ≡ text_error fault }
{
    match fault {
        GraphTextFault::BadJson | GraphTextFault::NoMemory => FileError::Json,
        GraphTextFault::BadShape(part) => FileError::Shape(shape_part(part)),
        GraphTextFault::Graph(fault) => graph_error(fault),
        GraphTextFault::SameName(n) => FileError::SameName(n),
        GraphTextFault::UnknownName(part) => FileError::UnknownName(shape_part(part)),
    }
}

fn graph_error(fault: GraphFault) -> FileError
    ensures { result ≡ graph_error fault }
{
    match fault {
        GraphFault::TooManyNodes(n) => FileError::TooManyNodes(n),
        GraphFault::TooManyEdges(n) => FileError::TooManyEdges(n),
        GraphFault::BadEnd(e) => FileError::BadEnd(e),
        GraphFault::JumpSource(e) => FileError::JumpSource(e),
        GraphFault::BadScope(n) => FileError::BadScope(n),
        GraphFault::NoMemory => FileError::Json,
    }
}

fn shape_part(part: Part) -> ShapePart
    ensures { result ≡ shape_part part }
{
    match part {
        Part::Top => ShapePart::Top,
        Part::Node(n) => ShapePart::Node(n),
        Part::Edge(e) => ShapePart::Edge(e),
    }
}

fn module_error(fault: PyFault) -> FileError
    ensures { result ≡ module_error fault }
{
    match fault {
        PyFault::NotAscii(line) => FileError::NotAscii(line),
        PyFault::BadIndent(line) => FileError::BadIndent(line),
        PyFault::BadToken(line) => FileError::BadToken(line),
        PyFault::Unsupported(line) => FileError::Unsupported(line),
        PyFault::Expected(line) => FileError::Expected(line),
        PyFault::TooDeep(line) => FileError::TooDeep(line),
        PyFault::NoMemory => FileError::Json,
    }
}

fn table_error(fault: TransFault) -> FileError
    ensures { result ≡ table_error fault }
{
    match fault {
        TransFault::BadName => FileError::BadName,
        TransFault::TooManyNodes(n) => FileError::TooManyNodes(n),
        TransFault::TooManyEdges(n) => FileError::TooManyEdges(n),
        TransFault::NoMemory => FileError::Json,
    }
}
