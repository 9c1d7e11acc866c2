//! The nodes of a module's name.

ghost use Rattle.std.specs.{Prelude.{◌≡◌, ◌+◌, ◌<◌, length, map, drop, None}};
ghost use Rattle.py_graph.specs.{Inside.{IsNode, IsNodeIf}, Gives.{Does, Makes}};
ghost use Rattle.py_graph.specs.Modules as row;

use crate::draft::{Draft, Made};
use crate::nodes::pop_dot;
use graph_nodes::{NodeKind, Place, Span};

/// Where a module is defined: at the start of its file, with no width.
const START: Span = Span {
    from_line: 0,
    from_column: 0,
    to_line: 0,
    to_column: 0,
};

/// A part of the module's name; the last one is a definition at the start of the file.
fn part(draft: &mut Draft, x: &str, last: bool) -> Made<u32>
    ensures { Makes IsNode result draft.old draft.new (row.part x.now last) }
{
    let symbol = draft.name(x)?;
    let span = if last { Some(START) } else { None };
    draft.node(
        NodeKind::Pop {
            symbol,
            definition: last,
        },
        span,
    )
}

/// An edge to a node from the one before it, or from the root.
#[tactic(auto, using(crate::proofs::Sound::standing))]
fn arrive(draft: &mut Draft, before: Option<u32>, n: u32) -> Made<()>
    requires n { n < length draft.old.nodes }
    requires before { IsNodeIf draft.old before }
    ensures { Does result draft.old draft.new (row.arrive before n) }
{
    match before {
        Some(t) => draft.link(t, n),
        None => draft.join(Place::Root, Place::At(n), 0),
    }
}

/// Whether no part stands behind this one.
fn is_last(parts: &[&str], i: usize) -> bool
    requires { i < length parts.now }
    ensures { result ≡ row.is_last (map (λ x. x.now) (drop (i + 1) parts.now)) }
{
    if i + 1 < parts.len() { false } else { true }
}

/// The parts of the module's name, from the root to the module's scope.
#[tactic(auto, using(crate::proofs::Sound::standing))]
pub fn name_nodes(draft: &mut Draft, parts: &[&str], s: u32) -> Made<()>
    requires s { s < length draft.old.nodes }
    ensures { Does result draft.old draft.new (row.path None (map (λ x. x.now) parts.now) s) }
{
    let mut before = None;
    for (i, x) in parts.iter().enumerate() {
        let n = part(draft, x, is_last(parts, i))?;
        let t = pop_dot(draft)?;
        arrive(draft, before, n)?;
        draft.link(n, t)?;
        before = Some(t);
    }
    match before {
        Some(t) => draft.link(t, s),
        None => Ok(()),
    }
}
