//! What is kept of each path of a file beside its parts, which stand in pools.
ghost use Rattle.std.specs.Prelude.{◌≡◌, ◌+◌, ℕ, IfOk};
ghost use Rattle.partial_path.specs.{FileNumbers.{StartIn, EndIn}, Pooled.{start_of, end_of, kept_tail}};

use crate::config::Spot;
use crate::rule::{End, Start};
use stacks_vars::{NodeAt, Tail};
use std::alloc::AllocError;

/// Where a path of one file begins, by the file's own numbers.
#[derive(Clone, Copy, Debug)]
pub enum RowStart {
    /// At this reference, which isn't entered yet.
    Before(u16),
    /// At the root.
    Root,
    /// At this node, which was entered before.
    After(u16),
}

/// A path of one file: its ends, its peak, the variable behind the scopes that it makes, and where its parts stand in the
/// pools. It has 36 bytes: numbers of 16 bits serve for nodes, for how many parts a path has and for its peak, since a
/// graph has at most 16,384 nodes, and a stored path goes through each at most once.
#[derive(Clone, Copy, Debug)]
pub struct PathRow {
    /// From which place on its parts stand: the symbols that it asks for, those that it makes, its scopes, and
    /// its edges.
    pub asked_from: u32,
    pub made_from: u32,
    pub nodes_from: u32,
    pub edges_from: u32,
    pub start: RowStart,
    /// Where it ends: 0 at the root, 1 at the scope in front of the scope stack, which is taken off, and from 2 on at the
    /// node with so much less.
    pub end: u16,
    /// The variable behind the scopes that it makes: 0 for none, 1 for what followed the scopes that it asks for, and from
    /// 2 on for what followed those attached to the symbol that it asks for at the place with so much less.
    pub tail: u16,
    pub peak: u16,
    /// How many symbols it asks for, and how many it makes.
    pub asked: u16,
    pub made: u16,
    /// How many scopes it asks for, and how many it makes, which stand behind them.
    pub fixed: u16,
    pub scopes: u16,
    pub edges: u16,
}

/// The start, as a row of its file keeps it. The error comes where the node has no number of 16 bits.
pub fn row_start(start: Start) -> Result<RowStart, AllocError>
    requires { StartIn (λ file. file ≡ 0) start }
    ensures { IfOk result (λ row. start_of row ≡ start) }
{
    match start {
        Start::Before(node) => Ok(RowStart::Before(short(node.node)?)),
        Start::After(Spot::Root) => Ok(RowStart::Root),
        Start::After(Spot::At(node)) => Ok(RowStart::After(short(node.node)?)),
    }
}

/// The end, as a row of its file keeps it. The error comes where the node has no number of 16 bits.
pub fn row_end(end: End) -> Result<u16, AllocError>
    requires { EndIn (λ file. file ≡ 0) end }
    ensures { IfOk result (λ row. end_of row ≡ end) }
{
    match end {
        End::At(Spot::Root) => Ok(0),
        End::At(Spot::At(node)) => behind_two(node.node),
        End::ByStack => Ok(1),
    }
}

/// The variable, as a row keeps it. The error comes where the symbol's place has no number of 16 bits.
pub fn row_tail(tail: Tail) -> Result<u16, AllocError>
    ensures { IfOk result (λ row. kept_tail row ≡ tail) }
{
    match tail {
        Tail::Nil => Ok(0),
        Tail::Front => Ok(1),
        Tail::Item(place) => behind_two(place),
    }
}

/// The number and two more, in 16 bits. The error comes where it has more.
fn behind_two(number: u32) -> Result<u16, AllocError>
    ensures { IfOk result (λ short. short ≡ number + 2) }
{
    if number >= 65_534 {
        return Err(AllocError);
    }
    Ok(number as u16 + 2)
}

/// The number in 16 bits. The error comes where it has more.
pub fn short(number: u32) -> Result<u16, AllocError>
    ensures { IfOk result (λ short. short ≡ number) }
{
    if number > u16::MAX as u32 {
        return Err(AllocError);
    }
    Ok(number as u16)
}

/// The start that a row keeps.
pub fn start_of(start: RowStart) -> Start
    ensures { result ≡ start_of start }
{
    match start {
        RowStart::Before(node) => Start::Before(own_node(node)),
        RowStart::Root => Start::After(Spot::Root),
        RowStart::After(node) => Start::After(Spot::At(own_node(node))),
    }
}

/// The end that a row keeps.
pub fn end_of(end: u16) -> End
    ensures { result ≡ end_of end }
{
    match end {
        0 => End::At(Spot::Root),
        1 => End::ByStack,
        node => End::At(Spot::At(own_node(node - 2))),
    }
}

/// The variable that a row keeps.
pub fn kept_tail(tail: u16) -> Tail
    ensures { result ≡ kept_tail tail }
{
    match tail {
        0 => Tail::Nil,
        1 => Tail::Front,
        place => Tail::Item(place as u32 - 2),
    }
}

/// The node at that position of file 0.
fn own_node(node: u16) -> NodeAt
    ensures { (result.file ≡ 0) × (result.node ≡ node) }
{
    NodeAt {
        file: 0,
        node: node as u32,
    }
}
