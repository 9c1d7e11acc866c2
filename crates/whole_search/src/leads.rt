ghost use Rattle.std.specs.{Prelude.{◌≡◌, ℕ, ◌<◌, length, IfOk, IsTrue}, List.{list_any}};
ghost use Rattle.graph_nodes.specs.{Graph.{has_place}, Out.{edges_from}};
ghost use Rattle.whole_search.specs.Leads.{is_landing, mark_at, leads_on, leads_by, AreMarks};

use graph_nodes::{FileGraph, Place};
use partial_path::Spot;
use std::alloc::{AllocError, Global};
use std::marker::Model;

/// The table of live spots: for each node of each file whether edges lead from it, within the file, to a
/// definition or to a place where paths are cut. From any other spot no run lands, so a search may leave it
/// out. A contract sees the marks, file by file.
#[derive(Debug, Drop)]
pub(crate) struct Leads {
    tables: Vec<Vec<bool>>,
}

impl Model for Leads {
    ghost use Rattle.std.specs.Prelude.{List, Bool};
    ghost use Rattle.whole_search.specs.Leads.{contents};

    ghost Value = { List (List Bool) };

    ghost view = { λ l. contents l.tables.items };
}

impl Leads {
    ghost use Rattle.std.specs.Prelude.{◌≡◌, IfOk};
    ghost use Rattle.whole_search.specs.{Leads.{AreTables, live_at}, Walk.{IsLive}};

    /// The table of these files; the one error is want of memory. It takes time and memory that follow the
    /// number of nodes and edges.
    pub(crate) fn of(alloc: Global, files: &[FileGraph]) -> Result<Leads, AllocError>
        ensures exact { IfOk result (λ leads. AreTables files.now leads) }
        ensures live { IfOk result (λ leads. IsLive (live_at leads) files.now) }
    {
        let mut tables = Vec::new(alloc);
        for graph in files {
            tables.push(marks_of(alloc, graph)?)?;
        }
        Ok(Leads { tables })
    }

    /// Whether the spot is live: the root is, and a node by its mark. It takes constant time.
    pub(crate) fn is_live(&self, spot: Spot) -> bool
        ensures { result ≡ live_at self.now spot }
    {
        let Spot::At(node) = spot else {
            return true;
        };
        match self.tables.get(node.file as usize) {
            Some(marks) => mark_at(marks.as_slice(), node.node),
            None => true,
        }
    }
}

/// The marks of a file's nodes. They are set from the last node down: an edge to a place where paths aren't
/// cut leads to a later node, whose mark is there already.
fn marks_of(alloc: Global, graph: &FileGraph) -> Result<Vec<bool>, AllocError>
    ensures { IfOk result (λ marks. AreMarks graph.now marks.items) }
{
    let count = graph.node_count() as usize;
    let mut marks = vec![in alloc; false; count]?;
    for done in 0..count {
        // From the last node down, since the marks of later nodes are asked for.
        let n = count - 1 - done;
        let mark = leads_from(graph, marks.as_slice(), n as u32);
        marks[n] = mark;
    }
    Ok(marks)
}

/// Whether some edge leads on from the node, by the marks of the later nodes.
fn leads_from(graph: &FileGraph, marks: &[bool], n: u32) -> bool
    requires { n < length graph.now.nodes }
    ensures { result ≡ list_any (leads_by graph.now marks.now) (edges_from graph.now (Place.At n)) }
{
    for e in graph.edges_from(Place::At(n)) {
        if leads_by(graph, marks, e) {
            return true;
        }
    }
    false
}

/// Whether the edge at the position leads on; false past the last edge.
fn leads_by(graph: &FileGraph, marks: &[bool], e: u32) -> bool
    ensures { result ≡ leads_by graph.now marks.now e }
{
    if e >= graph.edge_count() {
        return false;
    }
    leads_on(graph, marks, graph.edge(e).sink)
}

/// Whether the place is one to land at, or a node that is marked.
fn leads_on(graph: &FileGraph, marks: &[bool], sink: Place) -> bool
    requires { IsTrue (has_place (length graph.now.nodes) sink) }
    ensures { result ≡ leads_on graph.now marks.now sink }
{
    match sink {
        Place::Root | Place::Jump => true,
        Place::At(n) => is_landing(graph, n) || mark_at(marks, n),
    }
}

/// Whether a path is cut at the node, or it is a definition.
fn is_landing(graph: &FileGraph, n: u32) -> bool
    requires { n < length graph.now.nodes }
    ensures { result ≡ is_landing graph.now (Place.At n) }
{
    graph.is_cut(Place::At(n)) || graph.is_definition(n)
}

/// The mark at the position; true past the last one.
fn mark_at(marks: &[bool], n: u32) -> bool
    ensures { result ≡ mark_at marks.now n }
{
    match marks.get(n as usize) {
        Some(mark) => *mark,
        None => true,
    }
}
