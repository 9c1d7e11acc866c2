ghost use Rattle.std.specs.{Prelude.{◌≡◌, ◌<◌, length, IfSome}, List.{position_from}, Result.{result_map_both}};
ghost use Rattle.graph_nodes.specs.Graph.{is_definition_kind, kind_at};
ghost use Rattle.stacks_vars.specs.declared.scopes.NodeAt.{NodeAt};
ghost use Rattle.version_tree.specs.Graphs.{graph_rows};
ghost use Rattle.nav_answers.specs.{declared.found.AskFault.TheVariants.{NoDefinition}, Kinds.{is_of, is_meant, missing}, Points.{has_point, is_earlier, is_there, node_meant}, Replies.{meant, meant_in, number_of}};

use crate::found::{AskFault, At};
use graph_nodes::{NodeSpan, Span};
use partial_path::FilePaths;
use stacks_vars::NodeAt;
use version_tree::View;

/// What a query asks about.
#[derive(Clone, Copy)]
pub enum Asked {
    Reference,
    Definition,
}

impl Asked {
    /// Whether the node at the position of the file is asked about; false past the last node.
    fn is_at(self, file: &FilePaths, n: u32) -> bool
        ensures { result ≡ kind_at (is_of self) file.now.graph.nodes n }
    {
        match self {
            Asked::Reference => file.is_reference(n),
            Asked::Definition => file.is_definition(n),
        }
    }

    /// The refusal where there is no such node.
    fn missing(self) -> AskFault
        ensures { result ≡ missing self }
    {
        match self {
            Asked::Reference => AskFault::NoReference,
            Asked::Definition => AskFault::NoDefinition,
        }
    }
}

/// The position of the definition that is meant in the file with the path: the one at the position, or the first
/// whose span has the point. It is `NoFile` where the user sees no file with the path, and else `NoDefinition` where
/// there is no such definition. It takes no memory. The file is found by halving; a point is looked for among all
/// spans of the file.
pub fn definition_at(view: &View, path: &str, at: At) -> Result<u32, AskFault>
    ensures { result ≡ result_map_both (λ (node : NodeAt). node.node)
        (λ fault. fault) (meant is_definition_kind NoDefinition (graph_rows view.now) path.now at) }
{
    match meant(view, Asked::Definition, path, at) {
        Ok(node) => Ok(node.node),
        Err(fault) => Err(fault),
    }
}

/// The node that is meant in the file with the path, of those that are asked about.
pub fn meant(view: &View, asked: Asked, path: &str, at: At) -> Result<NodeAt, AskFault>
    ensures { result ≡ meant (is_of asked) (missing asked) (graph_rows view.now) path.now at }
{
    let Some(file) = number_of(view, path) else {
        return Err(AskFault::NoFile);
    };
    match node_in(view, file, asked, at) {
        Some(node) => Ok(NodeAt { file, node }),
        None => Err(asked.missing()),
    }
}

/// The number of the file with the path; None where it isn't seen.
fn number_of(view: &View, path: &str) -> Option<u32>
    ensures number { result ≡ number_of path.now (graph_rows view.now) }
    ensures inside { IfSome result (λ file. file < length view.now) }
{
    let _count = view.row_count();
    view.find(path)
}

/// The position of the node that is meant in the file.
fn node_in(view: &View, file: u32, asked: Asked, at: At) -> Option<u32>
    requires { file < length view.now }
    ensures { result ≡ meant_in (is_of asked) at (graph_rows view.now) file }
{
    node_meant(view.paths(file).get(), asked, at)
}

/// The position of the node that is meant among those of the file.
fn node_meant(file: &FilePaths, asked: Asked, at: At) -> Option<u32>
    ensures { result ≡ node_meant (is_of asked) file.now.graph.nodes at }
{
    match at {
        At::Node(n) => node_named(file, asked, n),
        At::Point(line, column) => node_around(file, asked, line, column),
    }
}

/// The position, where the node there is of those that are asked about.
fn node_named(file: &FilePaths, asked: Asked, n: u32) -> Option<u32>
    ensures { result ≡ node_meant (is_of asked) file.now.graph.nodes (At.Node n) }
{
    if asked.is_at(file, n) { Some(n) } else { None }
}

/// The position of the first node of those that are asked about whose span has the point.
fn node_around(file: &FilePaths, asked: Asked, line: u32, column: u32) -> Option<u32>
    ensures { result ≡ position_from (is_there (is_of asked) line column) 0 file.now.graph.nodes }
{
    let spans = file.spans();
    for found in spans {
        if is_meant(file, asked, found, line, column) {
            return Some(found.node);
        }
    }
    None
}

/// Whether the span has the point and its node is of those that are asked about.
fn is_meant(file: &FilePaths, asked: Asked, found: &NodeSpan, line: u32, column: u32) -> bool
    ensures { result ≡ is_meant (is_of asked) file.now.graph.nodes line column found.now }
{
    has_point(found.span, line, column) && asked.is_at(file, found.node)
}

/// Whether the span has the point.
fn has_point(span: Span, line: u32, column: u32) -> bool
    ensures { result ≡ has_point line column span }
{
    let before = is_earlier(line, column, span.from_line, span.from_column);
    let past = is_earlier(span.to_line, span.to_column, line, column);
    !before && !past
}

/// Whether a point, by its line and column, comes before another.
fn is_earlier(line: u32, column: u32, other_line: u32, other_column: u32) -> bool
    ensures { result ≡ is_earlier line column other_line other_column }
{
    line < other_line || line == other_line && column < other_column
}
