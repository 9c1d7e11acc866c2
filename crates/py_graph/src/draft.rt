//! The nodes and edges made so far, and the single steps.

ghost use Rattle.std.specs.Prelude.{◌≡◌, [], ◌∷◌, ◌++◌, OnOk, OnErr};
ghost use Rattle.py_graph.specs.Steps as steps;

use crate::fault::TransFault;
use crate::seen::Seen;
use graph_nodes::{
    Edge, FileGraph, GraphFault, MAX_EDGES, MAX_NODES, Name, Node, NodeKind, Place, Span,
};
use py_subset::Word;
use std::alloc::{AllocError, Global};
use std::marker::Model;

/// Why the steps stop.
#[derive(Clone, Copy, Debug, PartialEq, Eq)]
pub enum Stop {
    /// The next node would be one more than a file may have.
    Full,
    /// Memory ran out.
    NoMemory,
}

/// What steps give.
pub type Made<T> = Result<T, Stop>;

impl From<AllocError> for Stop {
    ghost use Rattle.std.specs.Prelude.{◌≡◌};
    ghost use Rattle.py_graph.specs.declared.draft.Stop.TheVariants.{NoMemory};

    ghost from_gives = { λ _ e. e ≡ NoMemory };

    fn from(_: AllocError) -> Stop {
        Stop::NoMemory
    }
}

/// For how many nodes, and for how many edges, room is made at once: enough for a module of five kilobytes. A
/// larger one takes more as they come.
const FIRST_ROOM: usize = 1_024;

/// The nodes and edges made so far, the names that many of the nodes share, and the allocator of all of them.
#[derive(Drop)]
pub struct Draft {
    nodes: Vec<Node>,
    edges: Vec<Edge>,
    /// The name of every dot.
    dot: Name,
    /// The name of every call.
    call: Name,
    /// Where the other names stand.
    seen: Seen,
    alloc: Global,
}

impl Model for Draft {
    ghost use Rattle.graph_nodes.specs.Graph.{Graph};
    ghost use Rattle.py_graph.specs.Inside.{IsDraft};

    ghost Value = { Graph };

    ghost view = { λ d. record { nodes = d.nodes.items; edges = d.edges.items } };

    ghost invariant = { λ d. IsDraft d.nodes.items d.edges.items d.dot d.call };
}

impl Draft {
    ghost use Rattle.std.specs.Prelude.{◌≡◌, ◌<◌, [], length, true, false, IfOk, codes};
    ghost use Rattle.graph_nodes.specs.Checked.{has_scope, has_ends, is_jump};
    ghost use Rattle.py_graph.specs.{Inside.{IsNode, IsNodeIf, ArePair}, Nodes.{call_nodes}, Gives.{Does, Makes}, Modules.{Translates, limited}};
    ghost use Rattle.py_graph.specs.Steps as steps;

    /// Nothing made yet but the two names, and the room for the first nodes and edges; the one error is want of
    /// memory.
    pub fn new(alloc: Global) -> Result<Draft, AllocError>
        ensures nodes { IfOk result (λ draft. draft.nodes ≡ []) }
        ensures edges { IfOk result (λ draft. draft.edges ≡ []) }
    {
        Ok(Draft {
            nodes: Vec::with_capacity(alloc, FIRST_ROOM)?,
            edges: Vec::with_capacity(alloc, FIRST_ROOM)?,
            dot: Name::of(alloc, ".")?,
            call: Name::of(alloc, "()")?,
            seen: Seen::new(),
            alloc,
        })
    }

    /// The allocator of the nodes and edges.
    pub fn alloc(&self) -> Global {
        self.alloc
    }

    /// The name of a dot, held once more. It takes no memory; the one error is want of room to count one
    /// holder more.
    pub fn dot_name(&self) -> Result<Name, AllocError>
        ensures { IfOk result (λ name. name ≡ codes ".") }
    {
        self.dot.share()
    }

    /// The name of a call, held once more; its cost and error are those of `dot_name`.
    pub fn call_name(&self) -> Result<Name, AllocError>
        ensures { IfOk result (λ name. name ≡ codes "()") }
    {
        self.call.share()
    }

    /// A name of this text for the next node, which shares that of a node before it where one is found. It takes
    /// time that follows the length of the text; the one error is want of memory, or of room to count one holder more.
    pub fn name(&mut self, text: &str) -> Result<Name, AllocError>
        ensures value { IfOk result (λ name. name ≡ text.now) }
        ensures same { self.new ≡ self.old }
    {
        self.seen.name(self.alloc, self.nodes.as_slice(), text)
    }

    /// The graph of what was made, where it has no more edges than a file may have. It keeps no room that is not
    /// used.
    #[tactic(auto, using(crate::proofs::Sound::drafting))]
    pub fn finish(self) -> Result<FileGraph, TransFault>
        ensures { Translates result (limited self) }
    {
        if self.edges.len() > MAX_EDGES {
            return Err(TransFault::TooManyEdges(65_537));
        }
        let (mut nodes, mut edges, alloc) = (self.nodes, self.edges, self.alloc);
        nodes.shrink_to_fit();
        edges.shrink_to_fit();
        match FileGraph::check(alloc, nodes, edges) {
            Ok(graph) => Ok(graph),
            Err(fault) => Err(refused(fault)),
        }
    }

    /// Makes a node, and gives its position.
    #[tactic(auto, using(crate::proofs::Sound::drafting))]
    pub fn node(&mut self, kind: NodeKind, span: Option<Span>) -> Made<u32>
        requires scope { has_scope self.old.nodes kind ≡ true }
        ensures { Makes IsNode result self.old self.new (steps.node kind span) }
    {
        // The limit stands here, so that the whole makes too many exactly where a step would.
        let at = self.nodes.len();
        if at >= MAX_NODES {
            return Err(Stop::Full);
        }
        put_node(&mut self.nodes, Node { kind, span })?;
        Ok(at as u32)
    }

    /// Makes the push of a call, and behind it the exported scope of its arguments.
    #[tactic(auto, using(crate::proofs::Sound::drafting))]
    pub fn call_nodes(&mut self) -> Made<(u32, u32)>
        ensures { Makes ArePair result self.old self.new call_nodes }
    {
        let symbol = self.call.share()?;
        let at = self.nodes.len();
        if at + 1 >= MAX_NODES {
            return Err(Stop::Full);
        }
        let push = NodeKind::PushScoped {
            symbol,
            scope: (at + 1) as u32,
            reference: false,
        };
        put_two(
            &mut self.nodes,
            Node {
                kind: push,
                span: None,
            },
            Node {
                kind: NodeKind::Scope { exported: true },
                span: None,
            },
        )?;
        Ok((at as u32, (at + 1) as u32))
    }

    /// Makes an edge.
    #[tactic(auto, using(crate::proofs::Sound::drafting))]
    pub fn join(&mut self, source: Place, sink: Place, precedence: u16) -> Made<()>
        requires ends { has_ends (length self.old.nodes)
            (record { source = source; sink = sink; precedence = precedence }) ≡ true }
        requires source { is_jump source ≡ false }
        ensures { Does result self.old self.new (steps.join source sink precedence) }
    {
        put_edge(
            &mut self.edges,
            Edge {
                source,
                sink,
                precedence,
            },
        )?;
        Ok(())
    }

    /// Makes an edge between two nodes.
    #[tactic(auto, using(crate::proofs::Sound::drafting))]
    pub fn edge(&mut self, u: u32, v: u32, precedence: u16) -> Made<()>
        requires u { u < length self.old.nodes }
        requires v { v < length self.old.nodes }
        ensures { Does result self.old self.new (steps.edge u v precedence) }
    {
        self.join(Place::At(u), Place::At(v), precedence)
    }

    /// Makes an edge of precedence 0 between two nodes.
    #[tactic(auto, using(crate::proofs::Sound::drafting))]
    pub fn link(&mut self, u: u32, v: u32) -> Made<()>
        requires u { u < length self.old.nodes }
        requires v { v < length self.old.nodes }
        ensures { Does result self.old self.new (steps.edge u v 0) }
    {
        self.edge(u, v, 0)
    }

    /// Makes an edge of precedence 0 to the second node, where there is one.
    #[tactic(auto, using(crate::proofs::Sound::drafting))]
    pub fn link_if(&mut self, u: u32, v: Option<u32>) -> Made<()>
        requires u { u < length self.old.nodes }
        requires v { IsNodeIf self.old v }
        ensures { Does result self.old self.new (steps.◌▸?◌ u v) }
    {
        match v {
            Some(v) => self.link(u, v),
            None => Ok(()),
        }
    }
}

/// One node more; the one error is want of memory, and then nothing changes.
fn put_node(nodes: &mut Vec<Node>, node: Node) -> Result<(), AllocError>
    ensures ok { OnOk result (nodes.new.items ≡ nodes.old.items ++ node ∷ []) }
    ensures err { OnErr result (nodes.new.items ≡ nodes.old.items) }
{
    nodes.push(node)?;
    Ok(())
}

/// Both nodes, or none where memory runs out.
fn put_two(nodes: &mut Vec<Node>, first: Node, second: Node) -> Result<(), AllocError>
    ensures ok { OnOk result (nodes.new.items ≡ nodes.old.items ++ first ∷ second ∷ []) }
    ensures err { OnErr result (nodes.new.items ≡ nodes.old.items) }
{
    // Both or none: a push without its scope would be a graph with a fault.
    put_node(nodes, first)?;
    if let Err(e) = put_node(nodes, second) {
        let _ = nodes.pop();
        return Err(e);
    }
    Ok(())
}

/// One edge more; the one error is want of memory, and then nothing changes.
fn put_edge(edges: &mut Vec<Edge>, edge: Edge) -> Result<(), AllocError>
    ensures err { OnErr result (edges.new.items ≡ edges.old.items) }
    ensures ok { OnOk result (edges.new.items ≡ edges.old.items ++ edge ∷ []) }
{
    edges.push(edge)?;
    Ok(())
}

/// What is told of a refused graph: want of memory, since a graph in the making has no other fault.
fn refused(fault: GraphFault) -> TransFault
    requires { fault ≡ GraphFault.NoMemory }
    ensures { result ≡ TransFault.NoMemory }
{
    match fault {
        GraphFault::NoMemory => TransFault::NoMemory,
        GraphFault::TooManyNodes(_)
        | GraphFault::TooManyEdges(_)
        | GraphFault::BadEnd(_)
        | GraphFault::JumpSource(_)
        | GraphFault::BadScope(_) => TransFault::BadName,
    }
}

/// Where a name stands.
pub fn span_of(x: &Word) -> Span
    ensures { result ≡ steps.span_of x.now }
{
    Span {
        from_line: x.line,
        from_column: x.from_column,
        to_line: x.line,
        to_column: x.to_column,
    }
}
