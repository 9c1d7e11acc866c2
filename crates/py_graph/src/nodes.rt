//! The nodes that the table makes.

ghost use Rattle.std.specs.Prelude.{◌≡◌, IfOk, IfSome, decimal};
ghost use Rattle.py_graph.specs.{Gives.{Makes}, Inside.{IsNode}};
ghost use Rattle.py_graph.specs.Nodes as made;
ghost use Rattle.py_graph.specs.Steps as steps;

use crate::draft::{Draft, Made, span_of};
use graph_nodes::{Name, NodeKind, Span};
use py_subset::Word;
use std::alloc::AllocError;

/// A pop of a symbol.
fn pop(draft: &mut Draft, symbol: Name, definition: bool, span: Option<Span>) -> Made<u32>
    ensures { Makes IsNode result draft.old draft.new
        (steps.node (NodeKind.Pop symbol definition) span) }
{
    draft.node(NodeKind::Pop { symbol, definition }, span)
}

/// A push of a symbol.
fn push(draft: &mut Draft, symbol: Name, reference: bool, span: Option<Span>) -> Made<u32>
    ensures { Makes IsNode result draft.old draft.new
        (steps.node (NodeKind.Push symbol reference) span) }
{
    draft.node(NodeKind::Push { symbol, reference }, span)
}

/// A definition of a name, where it stands.
pub fn definition(draft: &mut Draft, x: &Word) -> Made<u32>
    ensures { Makes IsNode result draft.old draft.new (made.definition x.now) }
{
    let symbol = draft.name(x.text.as_str())?;
    pop(draft, symbol, true, Some(span_of(x)))
}

/// A binding of a name that isn't a definition, where the name stands.
pub fn binding(draft: &mut Draft, x: &Word) -> Made<u32>
    ensures { Makes IsNode result draft.old draft.new (made.binding x.now) }
{
    let symbol = draft.name(x.text.as_str())?;
    pop(draft, symbol, false, Some(span_of(x)))
}

/// A reference to a name, where it stands.
pub fn reference(draft: &mut Draft, x: &Word) -> Made<u32>
    ensures { Makes IsNode result draft.old draft.new (made.reference x.now) }
{
    let symbol = draft.name(x.text.as_str())?;
    push(draft, symbol, true, Some(span_of(x)))
}

/// The pop of a dot.
pub fn pop_dot(draft: &mut Draft) -> Made<u32>
    ensures { Makes IsNode result draft.old draft.new made.pop_dot }
{
    let symbol = draft.dot_name()?;
    pop(draft, symbol, false, None)
}

/// The push of a dot.
pub fn push_dot(draft: &mut Draft) -> Made<u32>
    ensures { Makes IsNode result draft.old draft.new made.push_dot }
{
    let symbol = draft.dot_name()?;
    push(draft, symbol, false, None)
}

/// The pop of a call.
pub fn pop_call(draft: &mut Draft) -> Made<u32>
    ensures { Makes IsNode result draft.old draft.new made.pop_call }
{
    let symbol = draft.call_name()?;
    draft.node(
        NodeKind::PopScoped {
            symbol,
            definition: false,
        },
        None,
    )
}

/// The numeral of a place, where it has one digit.
#[tactic(auto, using(std::proofs::lemmas::Fmt::decimal_digit))]
fn digit(j: usize) -> Option<&'static str>
    ensures { IfSome result (λ text. text.now ≡ decimal j) }
{
    match j {
        0 => Some("0"),
        1 => Some("1"),
        2 => Some("2"),
        3 => Some("3"),
        4 => Some("4"),
        5 => Some("5"),
        6 => Some("6"),
        7 => Some("7"),
        8 => Some("8"),
        9 => Some("9"),
        _ => None,
    }
}

/// The decimal numeral of a place among arguments, as a name for the next node.
fn numeral(draft: &mut Draft, j: usize) -> Result<Name, AllocError>
    ensures value { IfOk result (λ name. name ≡ decimal j) }
    ensures same { draft.new ≡ draft.old }
{
    if let Some(text) = digit(j) {
        return draft.name(text);
    }
    let text = format!(in draft.alloc(); "{j}")?;
    draft.name(text.as_str())
}

/// The pop of an argument's place.
pub fn pop_number(draft: &mut Draft, j: usize) -> Made<u32>
    ensures { Makes IsNode result draft.old draft.new (made.pop_number j) }
{
    let symbol = numeral(draft, j)?;
    pop(draft, symbol, false, None)
}

/// The push of a parameter's place.
pub fn push_number(draft: &mut Draft, j: usize) -> Made<u32>
    ensures { Makes IsNode result draft.old draft.new (made.push_number j) }
{
    let symbol = numeral(draft, j)?;
    push(draft, symbol, false, None)
}

/// A scope of the file's own.
pub fn scope(draft: &mut Draft) -> Made<u32>
    ensures { Makes IsNode result draft.old draft.new made.scope }
{
    draft.node(NodeKind::Scope { exported: false }, None)
}

/// A node that empties the scope stack.
pub fn drops(draft: &mut Draft) -> Made<u32>
    ensures { Makes IsNode result draft.old draft.new made.drops }
{
    draft.node(NodeKind::Drops, None)
}
