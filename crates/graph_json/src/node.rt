ghost use Rattle.std.specs.Prelude.{◌≡◌, codes, IfOk};
ghost use Rattle.serde_json.specs.{Find.{get}, View.{view}};
ghost use Rattle.json_values.specs.Members.{has_only};
ghost use Rattle.graph_json.specs.{Pieces.{text_in}, Nodes.{scope_in, marked_in, push_in, push_scoped_in, pop_in, pop_scoped_in, kind_in, takes, may_have, node_in}, Plain.{node_of, scope_at}};

use crate::pieces::{flag, node_span};
use graph_nodes::{Name, Node, NodeKind};
use json_values::{Form, has_only, u32_of};
use serde_json::Value;
use std::alloc::{AllocError, Global};

fn symbol(alloc: Global, v: &Value) -> Result<Option<Name>, AllocError>
    ensures { IfOk result (λ s. s ≡ text_in (codes "symbol") (view v.now)) }
{
    match v.get("symbol").and_then(Value::as_str) {
        Some(text) => Ok(Some(Name::of(alloc, text)?)),
        None => Ok(None),
    }
}

#[tactic(auto, unfolding(crate::specs::Nodes::scope_in))]
fn scope(v: &Value) -> Option<NodeKind>
    ensures { result ≡ scope_in (view v.now) }
{
    let exported = flag(v, "exported")?;
    Some(NodeKind::Scope { exported })
}

/// The symbol, and the flag of this name.
#[tactic(auto, unfolding(crate::specs::Nodes::marked_in))]
fn marked(alloc: Global, v: &Value, name: &str) -> Result<Option<(Name, bool)>, AllocError>
    ensures { IfOk result (λ m. m ≡ marked_in name.now (view v.now)) }
{
    let Some(flag) = flag(v, name) else {
        return Ok(None);
    };
    Ok(symbol(alloc, v)?.map(|symbol| (symbol, flag)))
}

#[tactic(auto, unfolding(crate::specs::Nodes::push_in))]
fn push(alloc: Global, v: &Value) -> Result<Option<NodeKind>, AllocError>
    ensures { IfOk result (λ k. k ≡ push_in (view v.now)) }
{
    let found = marked(alloc, v, "reference")?;
    Ok(found.map(|(symbol, reference)| NodeKind::Push { symbol, reference }))
}

#[tactic(auto, unfolding(crate::specs::Nodes::push_scoped_in))]
fn push_scoped(alloc: Global, v: &Value, scope: Option<u32>) -> Result<Option<NodeKind>, AllocError>
    ensures { IfOk result (λ k. k ≡ push_scoped_in scope (view v.now)) }
{
    let Some(scope) = scope else {
        return Ok(None);
    };
    let found = marked(alloc, v, "reference")?;
    Ok(found.map(|(symbol, reference)| NodeKind::PushScoped {
        symbol,
        scope,
        reference,
    }))
}

#[tactic(auto, unfolding(crate::specs::Nodes::pop_in))]
fn pop(alloc: Global, v: &Value) -> Result<Option<NodeKind>, AllocError>
    ensures { IfOk result (λ k. k ≡ pop_in (view v.now)) }
{
    let found = marked(alloc, v, "definition")?;
    Ok(found.map(|(symbol, definition)| NodeKind::Pop { symbol, definition }))
}

#[tactic(auto, unfolding(crate::specs::Nodes::pop_scoped_in))]
fn pop_scoped(alloc: Global, v: &Value) -> Result<Option<NodeKind>, AllocError>
    ensures { IfOk result (λ k. k ≡ pop_scoped_in (view v.now)) }
{
    let found = marked(alloc, v, "definition")?;
    Ok(found.map(|(symbol, definition)| NodeKind::PopScoped { symbol, definition }))
}

#[tactic(auto, unfolding(crate::specs::Nodes::kind_in))]
fn kind(
    alloc: Global,
    v: &Value,
    text: &str,
    attached: Option<u32>,
) -> Result<Option<NodeKind>, AllocError>
    ensures { IfOk result (λ k. k ≡ kind_in text.now attached (view v.now)) }
{
    if text == "scope" {
        Ok(scope(v))
    } else if text == "push" {
        push(alloc, v)
    } else if text == "push_scoped" {
        push_scoped(alloc, v, attached)
    } else if text == "pop" {
        pop(alloc, v)
    } else if text == "pop_scoped" {
        pop_scoped(alloc, v)
    } else if text == "drop" {
        Ok(Some(NodeKind::Drops))
    } else {
        Ok(None)
    }
}

/// Whether a node of this kind may have a member of this name, beside `kind`, `span` and `name`.
fn is_of_kind(kind: &NodeKind, name: &str) -> bool
    ensures { result ≡ takes kind.now name.now }
{
    match kind {
        NodeKind::Scope { .. } => name == "exported",
        NodeKind::Push { .. } => name == "symbol" || name == "reference",
        NodeKind::PushScoped { .. } => {
            name == "symbol" || name == "scope" || name == "reference"
        }
        NodeKind::Pop { .. } => name == "symbol" || name == "definition",
        NodeKind::PopScoped { .. } => name == "symbol" || name == "definition",
        NodeKind::Drops => false,
    }
}

/// The members of a node of this kind; `name` is one where nodes have names.
#[derive(Clone, Copy)]
struct NodeForm<'a> {
    named: bool,
    kind: &'a NodeKind,
}

impl<'a> Form for NodeForm<'a> {
    ghost use Rattle.graph_json.specs.Nodes.{may_have};

    ghost allows = { λ form name. may_have form.named form.kind.now name };

    fn may_have(&self, name: &str) -> bool {
        name == "kind"
            || name == "span"
            || (self.named && name == "name")
            || is_of_kind(self.kind, name)
    }
}

fn has_only_members(v: &Value, named: bool, kind: &NodeKind) -> bool
    ensures { result ≡ has_only (may_have named kind.now) (view v.now) }
{
    has_only(v, &NodeForm { named, kind })
}

/// A node of that value, where its member `scope` names `attached`.
#[tactic(auto, unfolding(crate::specs::Nodes::node_in))]
pub(crate) fn node(
    alloc: Global,
    v: &Value,
    named: bool,
    attached: Option<u32>,
) -> Result<Option<Node>, AllocError>
    ensures { IfOk result (λ n. n ≡ node_in named attached (view v.now)) }
{
    let Some(span) = node_span(v) else {
        return Ok(None);
    };
    let Some(text) = v.get("kind").and_then(Value::as_str) else {
        return Ok(None);
    };
    let Some(kind) = kind(alloc, v, text, attached)? else {
        return Ok(None);
    };
    // Which members may stand hangs on the kind, so this comes last.
    if has_only_members(v, named, &kind) {
        Ok(Some(Node { kind, span }))
    } else {
        Ok(None)
    }
}

fn scope_position(v: &Value) -> Option<u32>
    ensures { result ≡ scope_at (view v.now) }
{
    u32_of(v.get("scope")?)
}

/// A node of format 1.
pub(crate) fn plain_node(alloc: Global, v: &Value) -> Result<Option<Node>, AllocError>
    ensures { IfOk result (λ n. n ≡ node_of (view v.now)) }
{
    node(alloc, v, false, scope_position(v))
}
