ghost use Rattle.std.specs.{Prelude.{◌≡◌, ◌++◌, ◌∷◌, [], codes, option_map, decimal, IfOk, IfSome, OnOk, length, ◌<◌, ◌^◌}, Option.{option_copied}};
ghost use Rattle.json.specs.Tree.{json_tokens, items_tokens};
ghost use Rattle.json.specs.Json as json;
ghost use Rattle.json.specs.Token as token;
ghost use Rattle.json_values.specs.Numbers.{only_if};
ghost use Rattle.graph_json.specs.{Printed.{number_json, name_text, position_json, place_json, span_json, kind_text, symbol_of, scope_of, node_json, nodes_json, edge_json, edges_json, graph_json}, PrintSteps.{Adds, SpanFits, NodeFits, PlaceFits, EdgeFits, node_with, front_tokens, flag_tokens, value_tokens}};

use crate::kind::{symbol, word};
use graph_nodes::{Edge, NodeKind, Place, Span};
use json::Writer;
use std::alloc::{AllocError, Global};

/// A truth value's member, only where it is true: where it is left out it is read as false.
fn put_flag(out: &mut Writer, name: &str, flag: bool) -> Result<(), AllocError>
    ensures { Adds result out.old out.new (flag_tokens name.now flag) }
{
    if !flag {
        return Ok(());
    }
    out.key(name)?;
    out.boolean(true)
}

/// The name of the node at that position: `n` and the position in decimal, which no reader takes for a shared place.
fn put_name(alloc: Global, out: &mut Writer, n: u32) -> Result<(), AllocError>
    ensures { Adds result out.old out.new (token.string (name_text n) ∷ []) }
{
    let name = format!(in alloc; "n{n}")?;
    out.string(name.as_str())
}

fn put_position(alloc: Global, out: &mut Writer, named: bool, n: u32) -> Result<(), AllocError>
    ensures { Adds result out.old out.new (json_tokens (position_json named n)) }
{
    if named {
        put_name(alloc, out, n)
    } else {
        out.u64(u64::from(n))
    }
}

fn put_place(alloc: Global, out: &mut Writer, named: bool, place: Place) -> Result<(), AllocError>
    ensures adds { Adds result out.old out.new (json_tokens (place_json named place)) }
    ensures fits { PlaceFits place }
{
    match place {
        Place::Root => out.string(if named { "@root" } else { "root" }),
        Place::Jump => out.string(if named { "@jump" } else { "jump" }),
        Place::At(n) => put_position(alloc, out, named, n),
    }
}

fn put_span(out: &mut Writer, span: &Span) -> Result<(), AllocError>
    ensures adds { Adds result out.old out.new (json_tokens (span_json span.now)) }
    ensures fits { OnOk result (SpanFits span.now) }
{
    out.begin_array()?;
    out.u64(u64::from(span.from_line))?;
    out.u64(u64::from(span.from_column))?;
    out.u64(u64::from(span.to_line))?;
    out.u64(u64::from(span.to_column))?;
    out.end_array()
}

fn put_optional_span(out: &mut Writer, span: &Option<Span>) -> Result<(), AllocError>
    ensures adds { Adds result out.old out.new
        (value_tokens (codes "span") (option_map span_json span.now)) }
    ensures fits { OnOk result (IfSome span.now SpanFits) }
{
    match span {
        Some(span) => {
            out.key("span")?;
            put_span(out, span)
        }
        None => Ok(()),
    }
}

fn put_scope(
    alloc: Global,
    out: &mut Writer,
    named: bool,
    kind: &NodeKind,
) -> Result<(), AllocError>
    ensures adds { Adds result out.old out.new
        (value_tokens (codes "scope") (option_map (position_json named) (scope_of kind.now))) }
    ensures fits { OnOk result (IfSome (scope_of kind.now) (λ n. n < 2 ^ 32)) }
{
    match kind {
        NodeKind::PushScoped { scope, .. } => {
            out.key("scope")?;
            put_position(alloc, out, named, *scope)
        }
        NodeKind::Scope { .. }
        | NodeKind::Push { .. }
        | NodeKind::Pop { .. }
        | NodeKind::PopScoped { .. }
        | NodeKind::Drops => Ok(()),
    }
}

fn put_symbol(out: &mut Writer, kind: &NodeKind) -> Result<(), AllocError>
    ensures { Adds result out.old out.new
        (value_tokens (codes "symbol") (option_map json.string (symbol_of kind.now))) }
{
    match symbol(kind) {
        Some(text) => {
            out.key("symbol")?;
            out.string(text)
        }
        None => Ok(()),
    }
}

fn put_own_name(alloc: Global, out: &mut Writer, named: bool, n: u32) -> Result<(), AllocError>
    ensures { Adds result out.old out.new
        (value_tokens (codes "name") (only_if named (json.string (name_text n)))) }
{
    if !named {
        return Ok(());
    }
    out.key("name")?;
    put_name(alloc, out, n)
}

/// What stands before the member `reference`, in the order of the names' bytes, as all members do.
fn put_front(
    alloc: Global,
    out: &mut Writer,
    named: bool,
    n: u32,
    kind: &NodeKind,
) -> Result<(), AllocError>
    ensures { Adds result out.old out.new (front_tokens named n kind.now) }
{
    put_flag(out, "definition", kind.is_definition())?;
    put_flag(out, "exported", kind.is_exported())?;
    out.key("kind")?;
    out.string(word(kind))?;
    put_own_name(alloc, out, named, n)
}

/// The node at position n, in format 2 where it is named.
#[tactic(auto, using(crate::proofs::Tokens::nodes))]
pub(crate) fn put_node(
    alloc: Global,
    out: &mut Writer,
    named: bool,
    n: u32,
    kind: &NodeKind,
    span: Option<Span>,
) -> Result<(), AllocError>
    ensures adds { Adds result out.old out.new
        (json_tokens (node_json named n (node_with kind.now span))) }
    ensures fits { OnOk result (NodeFits (node_with kind.now span)) }
{
    out.begin_object()?;
    put_front(alloc, out, named, n, kind)?;
    put_flag(out, "reference", kind.is_reference())?;
    put_scope(alloc, out, named, kind)?;
    put_optional_span(out, &span)?;
    put_symbol(out, kind)?;
    out.end_object()
}

/// The edge, in format 2 where it is named.
pub(crate) fn put_edge(
    alloc: Global,
    out: &mut Writer,
    named: bool,
    edge: &Edge,
) -> Result<(), AllocError>
    ensures adds { Adds result out.old out.new (json_tokens (edge_json named edge.now)) }
    ensures fits { OnOk result (EdgeFits edge.now) }
{
    out.begin_array()?;
    put_place(alloc, out, named, edge.source)?;
    put_place(alloc, out, named, edge.sink)?;
    out.u64(u64::from(edge.precedence))?;
    out.end_array()
}
