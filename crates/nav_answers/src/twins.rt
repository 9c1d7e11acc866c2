ghost use Rattle.std.specs.Prelude.{◌≡◌, ◌<◌, ℕ, [], ◌∷◌, length, true, IfSome, IsTrue, OnOk};
ghost use Rattle.graph_nodes.specs.Out.{edges_from};
ghost use Rattle.nav_answers.specs.{Asking.{IsFound}, Sources.{graphs_seen}, Twins.{AreKept, BeginsWith, HasKind, HasSink, IsKept, IsLead}};

use crate::asking::Query;
use crate::source::ViewSource;
use crate::viewed::are_sources;
use graph_nodes::{Name, NodeKind, Place};
use partial_path::FilePaths;
use stacks_vars::NodeAt;
use std::alloc::{AllocError, Global};
use whole_search::Found;

/// Of how many references that were searched last it is kept what was found.
const MOST_KEPT: usize = 8;

/// How all paths of a reference begin: with a plain symbol, by the one edge that leaves the reference, to the node at a
/// position of its file.
#[derive(Clone, Copy)]
pub struct Lead<'a> {
    pub sink: u32,
    pub symbol: &'a Name,
}

/// How all paths of the reference begin; None where its symbol isn't plain, where paths are cut at it, or where not one
/// edge alone leaves it, to a node. It takes constant time.
pub fn lead_of<'a>(source: &ViewSource<'a>, reference: NodeAt) -> Option<Lead<'a>>
    ensures { IfSome result (λ lead. IsLead
        (graphs_seen source.now.rows) reference lead.symbol.now (Place.At lead.sink)) }
{
    let file = source.file(reference.file as usize)?;
    lead_in(file, reference.node)
}

/// The same of the node at the position of the file.
fn lead_in(file: &FilePaths, node: u32) -> Option<Lead<'_>>
    ensures { IfSome result
        (λ lead. BeginsWith file.now.graph node lead.symbol.now (Place.At lead.sink)) }
{
    if node >= file.node_count() || file.is_cut(node) {
        return None;
    }
    let symbol = plain_symbol(file, node)?;
    let sink = lone_sink(file, node)?;
    Some(Lead { sink, symbol })
}

/// The symbol of the node, where that is a reference and the symbol is plain.
fn plain_symbol(file: &FilePaths, node: u32) -> Option<&Name>
    requires { node < length file.now.graph.nodes }
    ensures { IfSome result
        (λ symbol. HasKind file.now.graph node (NodeKind.Push symbol.now true)) }
{
    match file.kind(node) {
        NodeKind::Push {
            symbol,
            reference: true,
        } => Some(symbol),
        _ => None,
    }
}

/// The node to which the edge leads that alone leaves the node; None where there are none or several, or where it leads
/// to no node.
fn lone_sink(file: &FilePaths, node: u32) -> Option<u32>
    requires { node < length file.now.graph.nodes }
    ensures { IfSome result (λ sink. (edge : ℕ)
        × (edges_from file.now.graph (Place.At node) ≡ edge ∷ [])
        × HasSink file.now.graph edge (Place.At sink)) }
{
    let mut edges = file.edges_from(node);
    let edge = edges.next()?;
    if edges.next().is_some() {
        return None;
    }
    match file.sink(edge) {
        Place::At(sink) => Some(sink),
        Place::Root | Place::Jump => None,
    }
}

/// What was found of a reference, and how its paths begin.
#[derive(Drop)]
pub struct Kept<'a> {
    pub reference: NodeAt,
    pub lead: Lead<'a>,
    pub found: Found,
}

/// What was found of the references that were searched last, of those whose paths all begin by one edge.
#[derive(Drop)]
pub struct Searched<'a> {
    pub list: Vec<Kept<'a>>,
    /// Where the next one is put once there are `MOST_KEPT`, modulo their number.
    pub next: usize,
}

impl<'a> Searched<'a> {
    /// Nothing is kept yet. It takes no memory.
    pub fn new(alloc: Global) -> Searched<'a>
        ensures { result.list.items ≡ [] }
    {
        Searched {
            list: Vec::new(alloc),
            next: 0,
        }
    }

    /// What is found of the reference, where a reference of its file that begins like it is kept.
    pub fn known(&self, query: &Query, reference: NodeAt, lead: &Lead) -> Option<&Found>
        requires kept { AreKept query.now.bounds
            (graphs_seen query.now.view.now) self.now.list.items }
        requires lead { IsLead
            (graphs_seen query.now.view.now) reference lead.now.symbol.now (Place.At lead.now.sink) }
        ensures { IfSome result (λ found. IsFound query.now.bounds
            (graphs_seen query.now.view.now) reference found.now.rows found.now.limit) }
    {
        are_sources(query.view);
        for kept in &self.list {
            if is_twin(kept, reference, lead) {
                return Some(&kept.found);
            }
        }
        None
    }

    /// Keeps what was found of the reference, in place of what was kept first where there are `MOST_KEPT`; the one error
    /// is want of memory.
    pub fn put(&mut self, _query: &Query, kept: Kept<'a>) -> Result<(), AllocError>
        requires list { AreKept _query.now.bounds
            (graphs_seen _query.now.view.now) self.old.list.items }
        requires kept { IsKept _query.now.bounds (graphs_seen _query.now.view.now) kept }
        ensures { OnOk result (AreKept _query.now.bounds
            (graphs_seen _query.now.view.now) self.new.list.items) }
    {
        if self.list.len() < MOST_KEPT {
            self.list.push(kept)?;
            return Ok(());
        }
        let place = self.next % self.list.len();
        self.list[place] = kept;
        self.next = place + 1;
        Ok(())
    }
}

/// Whether what is kept is of a reference of the same file that begins so. Numbers are compared first, then the symbols.
fn is_twin(kept: &Kept, reference: NodeAt, lead: &Lead) -> bool
    ensures file { IsTrue result → kept.now.reference.file ≡ reference.file }
    ensures sink { IsTrue result → kept.now.lead.sink ≡ lead.now.sink }
    ensures symbol { IsTrue result → kept.now.lead.symbol.now ≡ lead.now.symbol.now }
{
    kept.lead.sink == lead.sink
        && kept.reference.file == reference.file
        && kept.lead.symbol.as_bytes() == lead.symbol.as_bytes()
}
