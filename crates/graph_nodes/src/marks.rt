ghost use Rattle.std.specs.{Prelude.{◌≡◌, ◌||◌, false, length, slice_get, All, IfOk, IsTrue}, Option.{option_map_or}};
ghost use Rattle.graph_nodes.specs.{declared.node.Edge.{Edge}, Checked.{has_ends}, Inside.{AreTurns}, Marks.{is_exported_mark, is_reference_mark, is_definition_mark, Marks, IsMarkOf, AreMarked}};

use crate::index::turns_of;
use crate::node::{Edge, Node, NodeKind};
use std::alloc::{AllocError, Global};

/// What a search asks of a node, in one byte, so that it needn't look at the node itself.
#[derive(Clone, Copy, Debug)]
pub enum Mark {
    /// None of the below.
    Plain,
    /// A node at which walks turn, which is none of the below besides.
    Turning,
    /// An exported scope. It is a cut, so whether it is a turning node isn't told.
    Exported,
    /// A reference that is no turning node.
    Reference,
    /// A reference that is a turning node.
    TurningReference,
    /// A definition that is no turning node.
    Definition,
    /// A definition that is a turning node.
    TurningDefinition,
}

impl Mark {
    ghost use Rattle.std.specs.Prelude.{◌≡◌};
    ghost use Rattle.graph_nodes.specs.Marks.{is_cut_mark, is_exported_mark, is_reference_mark, is_definition_mark};

    /// Whether paths are cut at the node.
    pub fn is_cut(self) -> bool
        ensures { result ≡ is_cut_mark self }
    {
        matches!(
            self,
            Mark::Turning | Mark::Exported | Mark::TurningReference | Mark::TurningDefinition
        )
    }

    fn is_exported(self) -> bool
        ensures { result ≡ is_exported_mark self }
    {
        matches!(self, Mark::Exported)
    }

    fn is_reference(self) -> bool
        ensures { result ≡ is_reference_mark self }
    {
        matches!(self, Mark::Reference | Mark::TurningReference)
    }

    fn is_definition(self) -> bool
        ensures { result ≡ is_definition_mark self }
    {
        matches!(self, Mark::Definition | Mark::TurningDefinition)
    }
}

/// The marks of the nodes; the one error is want of memory.
pub fn marks_of(alloc: Global, nodes: &[Node], edges: &[Edge]) -> Result<Vec<Mark>, AllocError>
    requires ends { All (λ (e : Edge). IsTrue (has_ends (length nodes.now) e)) edges.now }
    ensures { IfOk result (λ marks. AreMarked nodes.now edges.now marks.items) }
{
    let turns = turns_of(alloc, nodes.len(), edges)?;
    marked(alloc, nodes, edges, turns.as_slice())
}

/// The marks of nodes of which that tells which ones are turning nodes.
fn marked(
    alloc: Global,
    nodes: &[Node],
    edges: &[Edge],
    turns: &[bool],
) -> Result<Vec<Mark>, AllocError>
    requires { AreTurns (length nodes.now) edges.now turns.now }
    ensures { IfOk result (λ marks. AreMarked nodes.now edges.now marks.items) }
{
    let mut marks = Vec::with_capacity(alloc, nodes.len())?;
    for n in 0..nodes.len() {
        marks.push(mark_of(&nodes[n].kind, turns[n]))?;
    }
    Ok(marks)
}

/// The mark of a node of this kind, which is a turning node or not.
fn mark_of(kind: &NodeKind, turning: bool) -> Mark
    ensures { IsMarkOf kind.now turning result }
{
    match kind {
        NodeKind::Scope { exported } => scope_mark(*exported, turning),
        NodeKind::Push { reference, .. } | NodeKind::PushScoped { reference, .. } => reference_mark(
            *reference, turning,
        ),
        NodeKind::Pop { definition, .. } | NodeKind::PopScoped { definition, .. } =>
            definition_mark(*definition, turning),
        NodeKind::Drops => plain_mark(turning),
    }
}

/// The mark of a scope.
fn scope_mark(exported: bool, turning: bool) -> Mark
    ensures { Marks result (exported || turning) exported false false }
{
    if exported {
        Mark::Exported
    } else {
        plain_mark(turning)
    }
}

/// The mark of a node that pushes a symbol.
fn reference_mark(reference: bool, turning: bool) -> Mark
    ensures { Marks result turning false reference false }
{
    if !reference {
        plain_mark(turning)
    } else if turning {
        Mark::TurningReference
    } else {
        Mark::Reference
    }
}

/// The mark of a node that pops a symbol.
fn definition_mark(definition: bool, turning: bool) -> Mark
    ensures { Marks result turning false false definition }
{
    if !definition {
        plain_mark(turning)
    } else if turning {
        Mark::TurningDefinition
    } else {
        Mark::Definition
    }
}

/// The mark of a node that is none of these.
fn plain_mark(turning: bool) -> Mark
    ensures { Marks result turning false false false }
{
    if turning { Mark::Turning } else { Mark::Plain }
}

/// Whether there is an exported scope at the position; false past the last mark.
pub fn is_exported_at(marks: &[Mark], n: u32) -> bool
    ensures { result ≡ option_map_or is_exported_mark (slice_get marks.now n) false }
{
    match marks.get(n as usize) {
        Some(mark) => mark.is_exported(),
        None => false,
    }
}

/// Whether there is a reference at the position; false past the last mark.
pub fn is_reference_at(marks: &[Mark], n: u32) -> bool
    ensures { result ≡ option_map_or is_reference_mark (slice_get marks.now n) false }
{
    match marks.get(n as usize) {
        Some(mark) => mark.is_reference(),
        None => false,
    }
}

/// Whether there is a definition at the position; false past the last mark.
pub fn is_definition_at(marks: &[Mark], n: u32) -> bool
    ensures { result ≡ option_map_or is_definition_mark (slice_get marks.now n) false }
{
    match marks.get(n as usize) {
        Some(mark) => mark.is_definition(),
        None => false,
    }
}
