ghost use Rattle.std.specs.Prelude.{◌≡◌, codes};
ghost use Rattle.serde_json.specs.{Find.{at, get}, View.{view}};
ghost use Rattle.graph_json.specs.Pieces.{flag_in, text_in, u32_at, has_items, is_forward, span_of, optional_span};

use graph_nodes::Span;
use json_values::u32_of;
use serde_json::Value;

/// The truth value of that member, false where it is left out; None where it is another value.
pub(crate) fn flag(v: &Value, name: &str) -> Option<bool>
    ensures { result ≡ flag_in name.now (view v.now) }
{
    match v.get(name) {
        Some(flag) => flag.as_bool(),
        None => Some(false),
    }
}

/// Whether the value is an array of so many items.
#[tactic(auto, using(crate::proofs::Lengths::lengths))]
pub(crate) fn is_array_of(v: &Value, count: usize) -> bool
    ensures { result ≡ has_items count (view v.now) }
{
    match v.as_array() {
        Some(items) => items.len() == count,
        None => false,
    }
}

/// The number at that place of an array.
fn whole_at(v: &Value, i: usize) -> Option<u32>
    ensures { result ≡ u32_at i (view v.now) }
{
    u32_of(v.get(i)?)
}

fn ends_later(span: &Span) -> bool
    ensures { result ≡ is_forward span.now }
{
    span.from_line < span.to_line
        || (span.from_line == span.to_line && span.from_column <= span.to_column)
}

#[tactic(auto, unfolding(crate::specs::Pieces::span_of))]
fn span(v: &Value) -> Option<Span>
    ensures { result ≡ span_of (view v.now) }
{
    let from_line = whole_at(v, 0)?;
    let from_column = whole_at(v, 1)?;
    let to_line = whole_at(v, 2)?;
    let to_column = whole_at(v, 3)?;
    let span = Span {
        from_line,
        from_column,
        to_line,
        to_column,
    };
    if is_array_of(v, 4) && ends_later(&span) {
        Some(span)
    } else {
        None
    }
}

/// The span of a node, which may be left out: lines from 0, columns in bytes from 0.
pub(crate) fn node_span(v: &Value) -> Option<Option<Span>>
    ensures { result ≡ optional_span (get (codes "span") (view v.now)) }
{
    match v.get("span") {
        Some(found) => span(found).map(Some),
        None => Some(None),
    }
}
